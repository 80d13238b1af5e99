//! Calls of `yp_select`: what filters keep and select for readers.
ghost use Rattle.std.specs.Prelude.{◌≡◌, ◌<◌, [], IfOk, None, true};
ghost use Rattle.yp_schema.specs.Datastore.{AreWritable, IsDatastore, goes_down, is_path_of};
ghost use Rattle.yp_filter.specs.Fits.{filter_fits};
ghost use Rattle.yp_filter.specs.View.{filter_view};

use crate::patches::{data_of, tree_of};
use crate::policies::{own_rules, path_of};
use case_frame::fault::{OrFault, or_bad};
use case_frame::given::part;
use case_frame::setting::Setting;
use case_frame::shown::{Answer, Told, plain, quoted, truth};
use serde_json::Value as Json;
use std::alloc::Global;
use std::marker::Brand;
use std::sync::ledger::{Blank, Ledger};
use yp_base::memory::NoMemory;
use yp_base::path::Path;
use yp_base::row::{Rows, Value};
use yp_base::steps::Steps;
use yp_filter::filter::Filter;
use yp_filter::same::same_filter;
use yp_kept::keeping::kept;
use yp_nacm::compile::UserRules;
use yp_schema::schema::Schema;
use yp_select::select::{select_all, select_at, select_below};
use yp_tree::tree::Tree;

/// A filter, what a user may read, and a datastore.
#[derive(Drop)]
pub struct Asked {
    pub filter: Filter,
    pub rules: UserRules,
    pub tree: Tree,
}

pub fn answer(alloc: Global, setting: &Setting, call: &str, arguments: &Json) -> Answer {
    Ok(Some(match call {
        "select" => selected(alloc, setting, arguments)?,
        "select_at" => selected_at(alloc, setting, arguments)?,
        "select_below" => selected_below(alloc, setting, arguments)?,
        "keeps" => truth(alloc, keeps(alloc, setting, arguments)?)?,
        "same_filter" => truth(alloc, is_same(alloc, &setting.schema, arguments)?)?,
        _ => return Ok(None),
    }))
}

/// The filter of a case: everything where it is null.
fn filter_of(alloc: Global, schema: &Schema, json: &Json) -> OrFault<Filter>
    ensures { IfOk result (λ filter. filter_fits schema.now (filter_view filter) ≡ true) }
{
    if json.is_null() {
        return Ok(Filter::All);
    }
    or_bad(Filter::read(alloc, schema, json))
}

/// Whether two filters say the same.
fn is_same(alloc: Global, schema: &Schema, arguments: &Json) -> OrFault<bool> {
    let one = filter_of(alloc, schema, part(arguments, "one")?)?;
    let other = filter_of(alloc, schema, part(arguments, "other")?)?;
    Ok(same_filter(&one, &other))
}

/// What a case asks.
pub fn asked_of(alloc: Global, setting: &Setting, arguments: &Json) -> OrFault<Asked>
    ensures fits { IfOk result (λ asked. filter_fits setting.now.schema (filter_view asked.filter) ≡ true) }
    ensures datastore { IfOk result (λ asked. IsDatastore setting.now.schema asked.tree) }
{
    let filter = filter_of(alloc, &setting.schema, part(arguments, "filter")?)?;
    let rules = own_rules(alloc, setting, arguments)?;
    let tree = tree_of(alloc, &setting.schema, part(arguments, "on")?)?;
    Ok(Asked {
        filter,
        rules,
        tree,
    })
}

/// What is selected, with a count of steps of its own.
#[tactic(auto, using(yp_kept::specs::KeptLaws::kept_writable))]
fn select_counted<L: Ledger>(
    alloc: Global,
    schema: &Schema,
    asked: &Asked,
    blank: Blank,
) -> Result<Rows, NoMemory>
    requires name { blank.name ≡ L.name }
    requires parts { blank.parts ≡ L.parts }
    requires some { 0 < L.parts }
    requires fits { filter_fits schema.now (filter_view asked.now.filter) ≡ true }
    requires datastore { IsDatastore schema.now asked.now.tree }
    ensures { IfOk result (λ rows. AreWritable schema.now [] rows) }
{
    let mut steps = Steps::<L>::open(blank);
    select_all(
        alloc,
        schema,
        &asked.filter,
        &asked.rules,
        &asked.tree,
        &mut steps,
    )
}

/// What is selected at or below a path, with a count of steps of its own.
#[tactic(auto, using(crate::proofs::Writable::below_writable))]
fn select_counted_below<L: Ledger>(
    alloc: Global,
    schema: &Schema,
    asked: &Asked,
    at: &Path,
    blank: Blank,
) -> Result<Rows, NoMemory>
    requires name { blank.name ≡ L.name }
    requires parts { blank.parts ≡ L.parts }
    requires some { 0 < L.parts }
    requires fits { filter_fits schema.now (filter_view asked.now.filter) ≡ true }
    requires datastore { IsDatastore schema.now asked.now.tree }
    ensures { IfOk result (λ rows. AreWritable schema.now [] rows) }
{
    let mut steps = Steps::<L>::open(blank);
    select_below(
        alloc,
        schema,
        &asked.filter,
        &asked.rules,
        &asked.tree,
        at,
        &mut steps,
    )
}

fn plain_value(alloc: Global, value: &Value) -> OrFault<String> {
    let mut told = Told::new(alloc);
    told.plain_value(value);
    told.done()
}

/// The value that is selected at a path, or null, with a count of steps of its own.
fn select_counted_at<L: Ledger>(
    alloc: Global,
    schema: &Schema,
    asked: &Asked,
    at: &Path,
    blank: Blank,
) -> OrFault<String>
    requires name { blank.name ≡ L.name }
    requires parts { blank.parts ≡ L.parts }
    requires some { 0 < L.parts }
    requires fits { filter_fits schema.now (filter_view asked.now.filter) ≡ true }
    requires path { is_path_of schema.now at.now ≡ true }
{
    let mut steps = Steps::<L>::open(blank);
    let Asked {
        filter,
        rules,
        tree,
    } = asked;
    match select_at(alloc, schema, filter, rules, tree, at, &mut steps)? {
        Some(held) => quoted(alloc, plain_value(alloc, held)?.as_str()),
        None => plain(alloc, "null"),
    }
}

/// Whether a path is kept, with a count of steps of its own.
fn keeps_counted<L: Ledger>(
    alloc: Global,
    schema: &Schema,
    asked: &Asked,
    path: &Path,
    blank: Blank,
) -> Result<bool, NoMemory>
    requires name { blank.name ≡ L.name }
    requires parts { blank.parts ≡ L.parts }
    requires some { 0 < L.parts }
    requires fits { filter_fits schema.now (filter_view asked.now.filter) ≡ true }
    requires way { goes_down schema.now None path.now ≡ true }
{
    let mut steps = Steps::<L>::open(blank);
    kept(
        alloc,
        schema,
        &asked.filter,
        &asked.rules,
        &asked.tree,
        path,
        &mut steps,
    )
}

/// The data that a filter selects for a user.
fn selected(alloc: Global, setting: &Setting, arguments: &Json) -> OrFault<String> {
    let asked = asked_of(alloc, setting, arguments)?;
    let rows = select_counted::<Brand>(alloc, &setting.schema, &asked, Blank::new(1))?;
    data_of(alloc, &setting.schema, &rows)
}

/// The data of it at or below a path.
fn selected_below(alloc: Global, setting: &Setting, arguments: &Json) -> OrFault<String> {
    let asked = asked_of(alloc, setting, arguments)?;
    let path = path_of(alloc, setting, arguments)?;
    let rows = select_counted_below::<Brand>(alloc, &setting.schema, &asked, &path, Blank::new(1))?;
    data_of(alloc, &setting.schema, &rows)
}

/// What it holds at a path.
fn selected_at(alloc: Global, setting: &Setting, arguments: &Json) -> OrFault<String> {
    let asked = asked_of(alloc, setting, arguments)?;
    let path = path_of(alloc, setting, arguments)?;
    select_counted_at::<Brand>(alloc, &setting.schema, &asked, &path, Blank::new(1))
}

/// Whether a filter keeps a path for a user.
#[tactic(auto, using(yp_schema::specs::SchemaLaws::path_down))]
fn keeps(alloc: Global, setting: &Setting, arguments: &Json) -> OrFault<bool> {
    let asked = asked_of(alloc, setting, arguments)?;
    let path = path_of(alloc, setting, arguments)?;
    Ok(keeps_counted::<Brand>(alloc, &setting.schema, &asked, &path, Blank::new(1))?)
}

//! Calls of `yp_touch`: the records of steps, and of windows of steps.
ghost use Rattle.std.specs.Prelude.{◌≡◌, ◌<◌, ◌^◌, All, IfOk, OnOk, length, true};
ghost use Rattle.std.specs.List.{AllByRecursion};
ghost use Rattle.yp_schema.specs.Datastore.{IsDatastore, is_path_of};
ghost use Rattle.yp_encode.specs.Sendable.{IsSendableChange};
ghost use Rattle.yp_filter.specs.Fits.{filter_fits};
ghost use Rattle.yp_filter.specs.View.{filter_view};
ghost use Rattle.yp_nacm.specs.Decision.{is_readable};
ghost use Rattle.yp_changes.specs.Changes.{changed_rows};
ghost use Rattle.yp_kept.specs.Selection.{selection};
ghost use Rattle.yp_touch.specs.Absorbed.{EndsAsRow, absorbed, paths_of};

use crate::selections::{Asked, asked_of};
use case_frame::fault::{CaseFault, OrFault, or_bad};
use case_frame::given::{items, no_kinds, part, text};
use case_frame::setting::Setting;
use case_frame::shown::{Answer, Told, plain};
use serde_json::Value as Json;
use std::alloc::Global;
use std::marker::Brand;
use std::sync::ledger::{Blank, Ledger};
use yp_base::memory::{Duplicate, NoMemory};
use yp_base::notice::{Changes, Kinds};
use yp_base::path::Path;
use yp_base::steps::Steps;
use yp_changes::changed::ChangedRow;
use yp_changes::former::{follow, former};
use yp_edit::applying::apply;
use yp_edit::fault::EditFault;
use yp_encode::contents::patch_text;
use yp_filter::filter::Filter;
use yp_patch::patch::Patch;
use yp_patch::reading::read_patch;
use yp_path::target::write_target;
use yp_schema::schema::Schema;
use yp_touch::changes::record_of_step;
use yp_touch::laws::roots_end_as_rows;
use yp_touch::touched::Touched;
use yp_tree::tree::Tree;
use yp_value::json::member;

/// What is asked of the datastore as it is, a tree that follows it, and the places that were touched.
#[derive(Drop)]
struct Window {
    asked: Asked,
    before: Tree,
    touched: Touched,
}

pub fn answer(alloc: Global, setting: &Setting, call: &str, arguments: &Json) -> Answer {
    Ok(Some(match call {
        "record_of_step" => recorded_at_once(alloc, setting, arguments)?,
        "touched" => touched(alloc, setting, arguments)?,
        _ => return Ok(None),
    }))
}

/// The record of the step that a patch makes, with a count of steps of its own.
fn record_counted<L: Ledger>(
    alloc: Global,
    schema: &Schema,
    asked: &mut Asked,
    patch: &Patch,
    blank: Blank,
) -> Result<Changes, EditFault>
    requires name { blank.name ≡ L.name }
    requires parts { blank.parts ≡ L.parts }
    requires some { 0 < L.parts }
    requires few { length patch.now.edits < 2 ^ 32 }
    requires fits { filter_fits schema.now (filter_view asked.old.filter) ≡ true }
    requires datastore { IsDatastore schema.now asked.old.tree }
    ensures { IfOk result (λ changes. AllByRecursion (IsSendableChange schema.now) changes) }
{
    let mut steps = Steps::<L>::open(blank);
    let changed = apply(alloc, schema, &mut asked.tree, patch, &mut steps)?;
    let before = former(alloc, &asked.tree, &changed, &mut steps)?;
    let (filter, rules, after) = (&asked.filter, &asked.rules, &asked.tree);
    let rows = changed.items();
    Ok(record_of_step(
        alloc, schema, filter, rules, &before, after, rows, &mut steps,
    )?)
}

/// The record of one patch.
fn recorded_at_once(alloc: Global, setting: &Setting, arguments: &Json) -> OrFault<String> {
    let mut asked = asked_of(alloc, setting, arguments)?;
    let patch = or_bad(read_patch(alloc, part(arguments, "patch")?))?;
    let blank = Blank::new(1);
    let schema = &setting.schema;
    let changes = or_bad(record_counted::<Brand>(alloc, schema, &mut asked, &patch, blank))?;
    edits_text(alloc, schema, &changes)
}

/// The edits of a record, as a patch of the id 1.
fn edits_text(alloc: Global, schema: &Schema, changes: &Changes) -> OrFault<String>
    requires { AllByRecursion (IsSendableChange schema.now) changes.now }
{
    let text = patch_text(alloc, schema, 1, changes)?;
    plain(alloc, text.as_str())
}

/// Goes on by a step with the places that were touched: where nothing is filtered, from the changed rows alone.
fn absorb<L: Ledger>(
    alloc: Global,
    schema: &Schema,
    asked: &Asked,
    before: &Tree,
    touched: &mut Touched,
    changed: &[ChangedRow],
    steps: &mut Steps<L>,
) -> Result<(), NoMemory>
    requires old { IsDatastore schema.now before.now }
    requires new { IsDatastore schema.now asked.now.tree }
    requires changed { changed.now ≡ changed_rows before.now asked.now.tree }
    requires fits { filter_fits schema.now (filter_view asked.now.filter) ≡ true }
    ensures roots { OnOk result (touched.new ≡ absorbed touched.old (selection schema.now (filter_view asked.now.filter) (is_readable schema.now asked.now.rules) before.now) (selection schema.now (filter_view asked.now.filter) (is_readable schema.now asked.now.rules) asked.now.tree)) }
{
    let (rules, after) = (&asked.rules, &asked.tree);
    match &asked.filter {
        Filter::All => touched.absorb_unfiltered(alloc, schema, rules, changed),
        filter => touched.absorb(alloc, schema, filter, rules, before, after, changed, steps),
    }
}

/// Goes on by the step that a patch makes, with a count of steps of its own.
fn go_on<L: Ledger>(
    alloc: Global,
    schema: &Schema,
    window: &mut Window,
    patch: &Patch,
    blank: Blank,
) -> Result<(), EditFault>
    requires name { blank.name ≡ L.name }
    requires parts { blank.parts ≡ L.parts }
    requires some { 0 < L.parts }
    requires few { length patch.now.edits < 2 ^ 32 }
    requires fits { filter_fits schema.now (filter_view window.old.asked.filter) ≡ true }
    requires datastore { IsDatastore schema.now window.old.asked.tree }
    requires same { window.old.before ≡ window.old.asked.tree }
    requires ends { AllByRecursion (EndsAsRow schema.now) (paths_of window.old.touched) }
    ensures fits { OnOk result (filter_fits schema.now (filter_view window.new.asked.filter) ≡ true) }
    ensures datastore { OnOk result (IsDatastore schema.now window.new.asked.tree) }
    ensures same { OnOk result (window.new.before ≡ window.new.asked.tree) }
    ensures ends { OnOk result (AllByRecursion (EndsAsRow schema.now) (paths_of window.new.touched)) }
{
    roots_end_as_rows();
    let mut steps = Steps::<L>::open(blank);
    let changed = apply(alloc, schema, &mut window.asked.tree, patch, &mut steps)?;
    absorb(
        alloc,
        schema,
        &window.asked,
        &window.before,
        &mut window.touched,
        changed.items(),
        &mut steps,
    )?;
    follow(alloc, &mut window.before, &changed, &mut steps)?;
    Ok(())
}

/// The window of a case's patches, one after another.
fn window_of(alloc: Global, setting: &Setting, arguments: &Json) -> OrFault<Window>
    ensures fits { IfOk result (λ window. filter_fits setting.now.schema (filter_view window.asked.filter) ≡ true) }
    ensures datastore { IfOk result (λ window. IsDatastore setting.now.schema window.asked.tree) }
    ensures ends { IfOk result (λ window. AllByRecursion (EndsAsRow setting.now.schema) (paths_of window.touched)) }
{
    let asked = asked_of(alloc, setting, arguments)?;
    let before = asked.tree.copy(alloc)?;
    let touched = Touched::new(alloc);
    let mut window = Window {
        asked,
        before,
        touched,
    };
    for json in items(part(arguments, "patches")?)? {
        let patch = or_bad(read_patch(alloc, json))?;
        or_bad(go_on::<Brand>(alloc, &setting.schema, &mut window, &patch, Blank::new(1)))?;
    }
    Ok(window)
}

/// The record of a window, with a count of steps of its own.
fn window_record<L: Ledger>(
    alloc: Global,
    schema: &Schema,
    window: &Window,
    excluded: &Kinds,
    blank: Blank,
) -> Result<Changes, NoMemory>
    requires name { blank.name ≡ L.name }
    requires parts { blank.parts ≡ L.parts }
    requires some { 0 < L.parts }
    requires fits { filter_fits schema.now (filter_view window.now.asked.filter) ≡ true }
    requires datastore { IsDatastore schema.now window.now.asked.tree }
    requires ends { AllByRecursion (EndsAsRow schema.now) (paths_of window.now.touched) }
    ensures { IfOk result (λ changes. AllByRecursion (IsSendableChange schema.now) changes) }
{
    let mut steps = Steps::<L>::open(blank);
    let Asked {
        filter,
        rules,
        tree,
    } = &window.asked;
    window
        .touched
        .record(alloc, schema, filter, rules, tree, excluded, &mut steps)
}

/// The kinds of edits that a case excludes.
fn excluded_of(arguments: &Json) -> OrFault<Kinds> {
    let mut kinds = no_kinds();
    if let Some(words) = member(arguments, "excluded") {
        for word in items(words)? {
            match text(word)? {
                "create" => kinds.create = true,
                "delete" => kinds.delete = true,
                "insert" => kinds.insert = true,
                "move" => kinds.moved = true,
                "replace" => kinds.replace = true,
                _ => return Err(CaseFault::BadArgument),
            }
        }
    }
    Ok(kinds)
}

/// Paths as targets.
fn targets(alloc: Global, schema: &Schema, paths: &[Path]) -> OrFault<String>
    requires { All (λ path. is_path_of schema.now path ≡ true) paths.now }
{
    let mut told = Told::new(alloc);
    told.push("[");
    for path in paths {
        told.comma();
        told.quoted(write_target(alloc, schema, path)?.as_str());
    }
    told.push("]");
    told.done()
}

/// The roots of a window, and its record.
#[tactic(auto, using(crate::proofs::Roots::ends_are_paths))]
fn touched(alloc: Global, setting: &Setting, arguments: &Json) -> OrFault<String> {
    let excluded = excluded_of(arguments)?;
    let window = window_of(alloc, setting, arguments)?;
    let schema = &setting.schema;
    let changes = window_record::<Brand>(alloc, schema, &window, &excluded, Blank::new(1))?;
    let record = edits_text(alloc, schema, &changes)?;
    let roots = targets(alloc, schema, window.touched.roots())?;
    Ok(format!(in alloc; "{{\"record\":{record},\"roots\":{roots}}}")?)
}

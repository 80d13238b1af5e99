//! The rows that a filter selects for a reader.
ghost use Rattle.std.specs.Prelude.{◌≡◌, ◌+◌, ◌*◌, ◌≤◌, length, option_copied, true, None, IfOk, IfSome, OnOk, List, Bool};
ghost use Rattle.std.specs.List.{AllByRecursion};
ghost use Rattle.yp_base.specs.declared.path.Seg.{Seg};
ghost use Rattle.yp_base.specs.declared.row.Row.{Row};
ghost use Rattle.yp_base.specs.RowLaws.{picked};
ghost use Rattle.yp_base.specs.Rows.{rows_within, value_at};
ghost use Rattle.yp_schema.specs.Datastore.{is_path_of, IsRowOf};
ghost use Rattle.yp_filter.specs.Filters.{filter_size, of_set, set_size};
ghost use Rattle.yp_filter.specs.Fits.{filter_fits, set_fits};
ghost use Rattle.yp_filter.specs.View.{filter_view, set_view};
ghost use Rattle.yp_nacm.specs.Decision.{visible_rows};
ghost use Rattle.yp_kept.specs.Selection.{kept, selection};

use crate::reached::rows_reached;
use crate::reaches::reaches_of;
use std::alloc::Global;
use std::sync::ledger::Ledger;
use yp_base::memory::{Duplicate, NoMemory};
use yp_base::path::{Path, is_prefix};
use yp_base::row::{Rows, Value};
use yp_base::series::Series;
use yp_base::steps::Steps;
use yp_filter::filter::{Filter, FilterSet};
use yp_kept::form::could_be_kept;
use yp_kept::keeping::kept;
use yp_kept::standing::Way;
use yp_kept::visible::Visible;
use yp_nacm::readable::Readable;
use yp_schema::schema::Schema;
use yp_tree::tree::Tree;

/// Whether a path may be read, where one that may be read is given: of a path below it only what is left
/// has to be asked.
#[tactic(auto, using(crate::proofs::Reading::front_open, crate::proofs::Reading::front_within))]
fn may_be_read<R: Readable>(
    schema: &Schema,
    readable: &R,
    above: Option<&Path>,
    path: &Path,
) -> bool
    requires path { is_path_of schema.now path.now ≡ true }
    requires above { IfSome above (λ above. R.may readable.now schema.now above.now ≡ true) }
    ensures { result ≡ R.may readable.now schema.now path.now }
{
    if let Some(above) = above {
        if is_prefix(above, path) {
            return readable.readable_below(schema, path, above.len());
        }
    }
    readable.readable(schema, path)
}

/// Of these rows those that may be read. What stands below the last entry is asked only from there on.
#[tactic(auto, using(yp_schema::specs::SchemaLaws::row_path))]
fn keep_readable<R: Readable>(
    alloc: Global,
    schema: &Schema,
    readable: &R,
    rows: Rows,
) -> Result<Rows, NoMemory>
    requires { AllByRecursion (IsRowOf schema.now) rows }
    ensures { IfOk result (λ seen. seen ≡ visible_rows (R.may readable.now schema.now) rows) }
{
    let mut seen = Vec::new(alloc);
    let mut entry: Option<Path> = None;
    for row in rows.into_vec(alloc)? {
        if may_be_read(schema, readable, entry.as_ref(), &row.path) {
            if matches!(row.value, Value::Present) {
                entry = Some(row.path.copy(alloc)?);
            }
            seen.push(row)?;
        }
    }
    Ok(Series::from_vec(seen))
}

/// Of these rows those that a filter's set keeps, among all that may be read. What stands on the way to a
/// row is kept for the next one, as far as both ways are the same. It counts at most a visit for each row
/// and each node of the set.
#[tactic(auto, using(yp_schema::specs::SchemaLaws::row_down))]
fn keep_kept<R: Readable, L: Ledger>(
    alloc: Global,
    visible: &Visible<R>,
    set: &FilterSet,
    rows: Rows,
    steps: &mut Steps<L>,
) -> Result<Rows, NoMemory>
    requires schema { AllByRecursion (IsRowOf visible.now.schema.now) rows }
    requires fits { set_fits visible.now.schema.now None (set_view set.now) ≡ true }
    ensures rows { IfOk result (λ seen. seen ≡ picked (kept visible.now.schema.now (of_set (set_view set.now)) (visible_rows (R.may visible.now.readable.now visible.now.schema.now) visible.now.tree.now)) rows) }
    ensures visits { OnOk result (steps.new ≤ steps.old + length rows * set_size (set_view set.now)) }
{
    let mut seen = Vec::new(alloc);
    let mut way = Way::new(alloc)?;
    for row in rows.into_vec(alloc)? {
        if way.keeps(alloc, visible, set, &row.path, steps)? {
            seen.push(row)?;
        }
    }
    Ok(Series::from_vec(seen))
}

/// Of these rows those that may be read and that a filter keeps. Without a filter it counts no visit, and
/// else at most one for each row and each node of the filter.
fn keep_selected<R: Readable, L: Ledger>(
    alloc: Global,
    visible: &Visible<R>,
    filter: &Filter,
    rows: Rows,
    steps: &mut Steps<L>,
) -> Result<Rows, NoMemory>
    requires schema { AllByRecursion (IsRowOf visible.now.schema.now) rows }
    requires fits { filter_fits visible.now.schema.now (filter_view filter.now) ≡ true }
    ensures rows { IfOk result (λ selected. selected ≡ picked (kept visible.now.schema.now (filter_view filter.now) (visible_rows (R.may visible.now.readable.now visible.now.schema.now) visible.now.tree.now)) (visible_rows (R.may visible.now.readable.now visible.now.schema.now) rows)) }
    ensures visits { OnOk result (steps.new ≤ steps.old + length rows * filter_size (filter_view filter.now)) }
{
    let seen = keep_readable(alloc, visible.schema, visible.readable, rows)?;
    match filter {
        Filter::All => Ok(seen),
        Filter::Set(set) => keep_kept(alloc, visible, set, seen, steps),
    }
}

/// The value that a reader's selection by a filter has at a path, and `None` exactly where it has no row
/// there. It counts at most one visit, and one for each node of the filter. Where the filter's form alone
/// says no, nothing is looked up.
#[tactic(auto, using(yp_kept::specs::KeptLaws::value_kept, yp_kept::specs::FormLaws::not_selected, yp_schema::specs::SchemaLaws::path_down))]
pub fn select_at<'a, R: Readable, L: Ledger>(
    alloc: Global,
    schema: &Schema,
    filter: &Filter,
    readable: &R,
    tree: &'a Tree,
    path: &Path,
    steps: &mut Steps<L>,
) -> Result<Option<&'a Value>, NoMemory>
    requires path { is_path_of schema.now path.now ≡ true }
    requires fits { filter_fits schema.now (filter_view filter.now) ≡ true }
    ensures value { IfOk result (λ value. option_copied value ≡ value_at path.now (selection schema.now (filter_view filter.now) (R.may readable.now schema.now) tree.now)) }
    ensures visits { OnOk result (steps.new ≤ steps.old + (filter_size (filter_view filter.now) + 1)) }
{
    if !could_be_kept(schema, filter, path) {
        return Ok(None);
    }
    if !readable.readable(schema, path) {
        return Ok(None);
    }
    match tree.get(path, steps) {
        Some(value) => {
            if kept(alloc, schema, filter, readable, tree, path, steps)? {
                Ok(Some(value))
            } else {
                Ok(None)
            }
        }
        None => Ok(None),
    }
}

/// The same where the value that the rows have at the path is known: it isn't looked up. It counts at most
/// one visit for each node of the filter.
#[tactic(auto, using(yp_kept::specs::KeptLaws::value_kept, yp_kept::specs::FormLaws::not_selected, yp_schema::specs::SchemaLaws::path_down))]
pub fn select_known<'v, R: Readable, L: Ledger>(
    alloc: Global,
    schema: &Schema,
    filter: &Filter,
    readable: &R,
    tree: &Tree,
    path: &Path,
    value: Option<&'v Value>,
    steps: &mut Steps<L>,
) -> Result<Option<&'v Value>, NoMemory>
    requires path { is_path_of schema.now path.now ≡ true }
    requires fits { filter_fits schema.now (filter_view filter.now) ≡ true }
    requires known { option_copied value ≡ value_at path.now tree.now }
    ensures value { IfOk result (λ value. option_copied value ≡ value_at path.now (selection schema.now (filter_view filter.now) (R.may readable.now schema.now) tree.now)) }
    ensures visits { OnOk result (steps.new ≤ steps.old + filter_size (filter_view filter.now)) }
{
    if !could_be_kept(schema, filter, path) {
        return Ok(None);
    }
    if !readable.readable(schema, path) {
        return Ok(None);
    }
    match value {
        Some(value) => {
            if kept(alloc, schema, filter, readable, tree, path, steps)? {
                Ok(Some(value))
            } else {
                Ok(None)
            }
        }
        None => Ok(None),
    }
}

/// What of a reader's selection by a filter is at or below a path, in order. It counts at most a visit for
/// each row there and one more, and as many again for each node of the filter.
pub fn select_below<R: Readable, L: Ledger>(
    alloc: Global,
    schema: &Schema,
    filter: &Filter,
    readable: &R,
    tree: &Tree,
    at: &Path,
    steps: &mut Steps<L>,
) -> Result<Rows, NoMemory>
    requires schema { AllByRecursion (IsRowOf schema.now) tree.now }
    requires fits { filter_fits schema.now (filter_view filter.now) ≡ true }
    ensures rows { IfOk result (λ rows. rows ≡ rows_within at.now (selection schema.now (filter_view filter.now) (R.may readable.now schema.now) tree.now)) }
    ensures visits { OnOk result (steps.new ≤ steps.old + (length (rows_within at.now tree.now) + 1) * (filter_size (filter_view filter.now) + 1)) }
{
    let all = tree.rows_within(alloc, at, steps)?;
    let visible = Visible {
        schema,
        readable,
        tree,
    };
    let selected = keep_selected(alloc, &visible, filter, all, steps)?;
    Ok(selected)
}

/// Rows of a datastore among which are all that a filter keeps: without one all rows, and else those that
/// it reaches. It counts at most a visit for each row and for each node of the filter, and one more.
fn rows_for<L: Ledger>(
    alloc: Global,
    schema: &Schema,
    filter: &Filter,
    tree: &Tree,
    steps: &mut Steps<L>,
) -> Result<Rows, NoMemory>
    requires schema { AllByRecursion (IsRowOf schema.now) tree.now }
    requires fits { filter_fits schema.now (filter_view filter.now) ≡ true }
    ensures schema { IfOk result (λ rows. AllByRecursion (IsRowOf schema.now) rows) }
    ensures few { IfOk result (λ rows. length rows ≤ length tree.now) }
    ensures enough { IfOk result (λ rows. (readable : List Seg → Bool) (seen : List Row)
        → picked (kept schema.now (filter_view filter.now) seen) (visible_rows readable rows) ≡ picked (kept schema.now (filter_view filter.now) seen) (visible_rows readable tree.now)) }
    ensures visits { OnOk result (steps.new ≤ steps.old + length tree.now + filter_size (filter_view filter.now) + 1) }
{
    match filter {
        Filter::All => {
            let top = Path::top(alloc)?;
            let all = tree.rows_within(alloc, &top, steps)?;
            Ok(all)
        }
        Filter::Set(set) => {
            schema.stands();
            let reaches = reaches_of(alloc, schema, set)?;
            let reached = rows_reached(alloc, tree, reaches, steps)?;
            Ok(reached)
        }
    }
}

/// A reader's selection by a filter, in order. Of the rows only those are looked at that the filter can
/// keep, so that one which names entries by their keys costs little more than these. It counts at most a
/// visit for each row and one more, and as many again for each node of the filter.
pub fn select_all<R: Readable, L: Ledger>(
    alloc: Global,
    schema: &Schema,
    filter: &Filter,
    readable: &R,
    tree: &Tree,
    steps: &mut Steps<L>,
) -> Result<Rows, NoMemory>
    requires schema { AllByRecursion (IsRowOf schema.now) tree.now }
    requires fits { filter_fits schema.now (filter_view filter.now) ≡ true }
    ensures rows { IfOk result (λ rows. rows ≡ selection schema.now (filter_view filter.now) (R.may readable.now schema.now) tree.now) }
    ensures visits { OnOk result (steps.new ≤ steps.old + (length tree.now + 1) * (filter_size (filter_view filter.now) + 1)) }
{
    let rows = rows_for(alloc, schema, filter, tree, steps)?;
    let visible = Visible {
        schema,
        readable,
        tree,
    };
    let selected = keep_selected(alloc, &visible, filter, rows, steps)?;
    Ok(selected)
}

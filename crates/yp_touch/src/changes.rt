//! The record of a step, from the rows that it changed.
ghost use Rattle.std.specs.Prelude.{◌≡◌, ◌+◌, ◌≤◌, ◌&&◌, [], List, true, not, option_copied, IfOk, OnOk};
ghost use Rattle.std.specs.List.{AllByRecursion};
ghost use Rattle.yp_base.specs.declared.row.Row.{Row};
ghost use Rattle.yp_base.specs.Paths.{is_covered};
ghost use Rattle.yp_schema.specs.Datastore.{is_path_of, IsRowOf, IsDatastore};
ghost use Rattle.yp_nacm.specs.Decision.{visible_rows};
ghost use Rattle.yp_changes.specs.Changes.{changed_rows};
ghost use Rattle.yp_changes.specs.Records.{change_record};
ghost use Rattle.yp_encode.specs.Sendable.{IsSendableChange};
ghost use Rattle.yp_filter.specs.Fits.{filter_fits};
ghost use Rattle.yp_filter.specs.View.{filter_view};
ghost use Rattle.yp_kept.specs.Selection.{selection};
ghost use Rattle.yp_touch.specs.Absorbed.{absorbed};
ghost use Rattle.yp_touch.specs.Looked.{step_visits, window_visits};
ghost use Rattle.yp_touch.specs.Roots.{kind_of, carried_below, row_edit, visits_at, record_visits};

use crate::touched::Touched;
use std::alloc::Global;
use std::sync::ledger::Ledger;
use yp_base::memory::{Duplicate, NoMemory};
use yp_base::notice::{Change, ChangeKind, Changes, Kinds};
use yp_base::path::{Path, is_covered};
use yp_base::row::Rows;
use yp_base::series::Series;
use yp_base::steps::Steps;
use yp_changes::changed::ChangedRow;
use yp_filter::filter::Filter;
use yp_nacm::readable::Readable;
use yp_schema::schema::Schema;
use yp_select::select::select_below;
use yp_tree::tree::Tree;

/// Whether a path may be read and isn't at or below the last root.
fn is_root<R: Readable>(schema: &Schema, readable: &R, root: Option<&Path>, path: &Path) -> bool
    requires { is_path_of schema.now path.now ≡ true }
    ensures { result ≡ (R.may readable.now schema.now path.now && not (is_covered (option_copied root.entry) path.now)) }
{
    readable.readable(schema, path) && !is_covered(root, path)
}

/// The operation of the edit of a changed row.
fn kind_of(row: &ChangedRow) -> ChangeKind
    ensures { result ≡ kind_of row.now.old row.now.new }
{
    if row.new.is_none() {
        ChangeKind::Delete
    } else if row.old.is_some() {
        ChangeKind::Replace
    } else {
        ChangeKind::Create
    }
}

/// What the edit of a changed row carries.
fn carried_below<R: Readable, L: Ledger>(
    alloc: Global,
    schema: &Schema,
    readable: &R,
    row: &ChangedRow,
    rows: &Tree,
    steps: &mut Steps<L>,
) -> Result<Rows, NoMemory>
    requires { AllByRecursion (IsRowOf schema.now) rows.now }
    ensures carried { IfOk result (λ carried. carried ≡ carried_below (visible_rows (R.may readable.now schema.now) rows.now) row.now) }
    ensures visits { OnOk result (steps.new ≤ steps.old + visits_at rows.now row.now.path) }
{
    if row.new.is_some() {
        let all = Filter::All;
        let carried = select_below(alloc, schema, &all, readable, rows, &row.path, steps)?;
        Ok(carried)
    } else {
        Ok(Series::from_vec(Vec::new(alloc)))
    }
}

/// The edit of a changed row.
fn row_edit<R: Readable, L: Ledger>(
    alloc: Global,
    schema: &Schema,
    readable: &R,
    row: &ChangedRow,
    rows: &Tree,
    steps: &mut Steps<L>,
) -> Result<Change, NoMemory>
    requires { AllByRecursion (IsRowOf schema.now) rows.now }
    ensures edit { IfOk result (λ edit. edit ≡ row_edit (visible_rows (R.may readable.now schema.now) rows.now) row.now) }
    ensures visits { OnOk result (steps.new ≤ steps.old + visits_at rows.now row.now.path) }
{
    let carried = carried_below(alloc, schema, readable, row, rows, steps)?;
    Ok(Change {
        kind: kind_of(row),
        target: row.path.copy(alloc)?,
        rows: carried,
        after: None,
    })
}

/// The edits by which what a reader selects before a step becomes what it selects after it (RFC 8641
/// section 3.7), from the rows that the step changed: one for each topmost changed row that may be read,
/// in order. It counts at most one visit for each row at or below an edit's target, and one more for each
/// edit.
pub fn record_of<R: Readable, L: Ledger>(
    alloc: Global,
    schema: &Schema,
    readable: &R,
    changed: &[ChangedRow],
    rows: &Tree,
    steps: &mut Steps<L>,
) -> Result<Changes, NoMemory>
    requires datastore { IsDatastore schema.now rows.now }
    requires changed { (before : List Row) × IsDatastore schema.now before × (changed.now ≡ changed_rows before rows.now) }
    ensures changes { IfOk result (λ changes. (before : List Row) → IsDatastore schema.now before → changed.now ≡ changed_rows before rows.now
        → changes ≡ change_record (visible_rows (R.may readable.now schema.now) before) (visible_rows (R.may readable.now schema.now) rows.now)) }
    ensures sendable { IfOk result (λ changes. AllByRecursion (IsSendableChange schema.now) changes) }
    ensures visits { IfOk result (λ changes. steps.new ≤ steps.old + record_visits rows.now changes) }
{
    let mut changes = Vec::new(alloc);
    let mut root = None;
    for row in changed {
        if is_root(schema, readable, root, &row.path) {
            changes.push(row_edit(alloc, schema, readable, row, rows, steps)?)?;
            root = Some(&row.path);
        }
    }
    Ok(Series::from_vec(changes))
}

/// The edits by which what a filter selects for a reader before a step becomes what it selects after it
/// (RFC 8641 section 3.7), from the rows that the step changed. It counts the visits of `Touched::absorb`
/// and `Touched::record`.
pub fn record_of_step<R: Readable, L: Ledger>(
    alloc: Global,
    schema: &Schema,
    filter: &Filter,
    readable: &R,
    before: &Tree,
    after: &Tree,
    changed: &[ChangedRow],
    steps: &mut Steps<L>,
) -> Result<Changes, NoMemory>
    requires old { IsDatastore schema.now before.now }
    requires new { IsDatastore schema.now after.now }
    requires changed { changed.now ≡ changed_rows before.now after.now }
    requires fits { filter_fits schema.now (filter_view filter.now) ≡ true }
    ensures changes { IfOk result (λ changes. changes ≡ change_record (selection schema.now (filter_view filter.now) (R.may readable.now schema.now) before.now) (selection schema.now (filter_view filter.now) (R.may readable.now schema.now) after.now)) }
    ensures sendable { IfOk result (λ changes. AllByRecursion (IsSendableChange schema.now) changes) }
    ensures visits { OnOk result (steps.new ≤ steps.old + (step_visits schema.now (filter_view filter.now) before.now after.now changed.now + window_visits (filter_view filter.now) after.now (absorbed [] (selection schema.now (filter_view filter.now) (R.may readable.now schema.now) before.now) (selection schema.now (filter_view filter.now) (R.may readable.now schema.now) after.now)))) }
{
    let none = Kinds {
        create: false,
        delete: false,
        insert: false,
        moved: false,
        replace: false,
    };
    let mut touched = Touched::new(alloc);
    touched.absorb(
        alloc, schema, filter, readable, before, after, changed, steps,
    )?;
    let changes = touched.record(alloc, schema, filter, readable, after, &none, steps)?;
    Ok(changes)
}

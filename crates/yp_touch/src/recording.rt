//! The record of roots.
ghost use Rattle.std.specs.Prelude.{◌≡◌, ◌+◌, ◌*◌, ◌≤◌, [], length, is_some, true, if◌then◌else◌, IfOk, OnOk};
ghost use Rattle.std.specs.List.{list_any, AllByRecursion};
ghost use Rattle.std.specs.Ordering.{is_eq};
ghost use Rattle.yp_base.specs.Order.{path_cmp};
ghost use Rattle.yp_schema.specs.Datastore.{IsDatastore};
ghost use Rattle.yp_changes.specs.Records.{carried_rows, is_excluded};
ghost use Rattle.yp_encode.specs.Sendable.{IsSendableChange};
ghost use Rattle.yp_filter.specs.Fits.{filter_fits};
ghost use Rattle.yp_filter.specs.View.{filter_view};
ghost use Rattle.yp_kept.specs.Selection.{selection};
ghost use Rattle.yp_touch.specs.Absorbed.{EndsAsRow, flagged, kind_since, recorded, root_change};
ghost use Rattle.yp_touch.specs.Looked.{root_visits, rows_from, window_visits};

use std::alloc::Global;
use std::sync::ledger::Ledger;
use yp_base::memory::{Duplicate, NoMemory};
use yp_base::notice::{Change, ChangeKind, Changes, Kinds};
use yp_base::path::Path;
use yp_base::row::{Row, Rows};
use yp_base::series::Series;
use yp_base::steps::Steps;
use yp_filter::filter::Filter;
use yp_nacm::readable::Readable;
use yp_schema::schema::Schema;
use yp_select::select::{select_at, select_below};
use yp_tree::tree::Tree;

/// A datastore, and what is selected of it for whom.
#[derive(Drop)]
pub struct Source<'a, R> {
    pub schema: &'a Schema,
    pub filter: &'a Filter,
    pub readable: &'a R,
    pub tree: &'a Tree,
}

/// The operation of the edit of a root that was selected or not, and is now or not.
fn kind_since(was: bool, is: bool) -> ChangeKind
    ensures { result ≡ kind_since was is }
{
    if !is {
        ChangeKind::Delete
    } else if was {
        ChangeKind::Replace
    } else {
        ChangeKind::Create
    }
}

/// Whether a kind of edits is excluded.
fn is_excluded(excluded: &Kinds, kind: ChangeKind) -> bool
    ensures { result ≡ is_excluded excluded.now kind }
{
    match kind {
        ChangeKind::Create => excluded.create,
        ChangeKind::Delete => excluded.delete,
        ChangeKind::Insert => excluded.insert,
        ChangeKind::Move => excluded.moved,
        ChangeKind::Replace => excluded.replace,
    }
}

/// Whether one of these rows has this path.
fn has_row(rows: &[Row], path: &Path) -> bool
    ensures { result ≡ list_any (λ row. is_eq (path_cmp path.now row.path)) rows.now }
{
    rows.iter().any(|row| path.cmp(&row.path).is_eq())
}

/// What is selected at or below a path by a single look-up: none where its own row isn't among it.
fn rows_at_once<R: Readable, L: Ledger>(
    alloc: Global,
    source: &Source<R>,
    path: &Path,
    steps: &mut Steps<L>,
) -> Result<Option<Rows>, NoMemory>
    requires datastore { IsDatastore source.now.schema.now source.now.tree.now }
    requires fits { filter_fits source.now.schema.now (filter_view source.now.filter.now) ≡ true }
    ensures rows { IfOk result (λ rows. rows ≡ rows_from (selection source.now.schema.now (filter_view source.now.filter.now) (R.may source.now.readable.now source.now.schema.now) source.now.tree.now) path.now) }
    ensures visits { OnOk result (steps.new ≤ steps.old + root_visits (filter_view source.now.filter.now) source.now.tree.now path.now) }
{
    let rows = select_below(
        alloc,
        source.schema,
        source.filter,
        source.readable,
        source.tree,
        path,
        steps,
    )?;
    if has_row(rows.items(), path) {
        Ok(Some(rows))
    } else {
        Ok(None)
    }
}

/// What is selected at or below a root, where its own row is. Where no filter can leave that out, and it may
/// be read, what is below it isn't looked at in vain, so it is looked up only once.
fn rows_from<R: Readable, L: Ledger>(
    alloc: Global,
    source: &Source<R>,
    path: &Path,
    steps: &mut Steps<L>,
) -> Result<Option<Rows>, NoMemory>
    requires path { EndsAsRow source.now.schema.now path.now }
    requires datastore { IsDatastore source.now.schema.now source.now.tree.now }
    requires fits { filter_fits source.now.schema.now (filter_view source.now.filter.now) ≡ true }
    ensures rows { IfOk result (λ rows. rows ≡ rows_from (selection source.now.schema.now (filter_view source.now.filter.now) (R.may source.now.readable.now source.now.schema.now) source.now.tree.now) path.now) }
    ensures visits { OnOk result (steps.new ≤ steps.old + root_visits (filter_view source.now.filter.now) source.now.tree.now path.now) }
{
    if matches!(source.filter, Filter::All) && source.readable.readable(source.schema, path) {
        return rows_at_once(alloc, source, path, steps);
    }
    let value = select_at(
        alloc,
        source.schema,
        source.filter,
        source.readable,
        source.tree,
        path,
        steps,
    )?;
    if value.is_none() {
        return Ok(None);
    }
    let rows = select_below(
        alloc,
        source.schema,
        source.filter,
        source.readable,
        source.tree,
        path,
        steps,
    )?;
    Ok(Some(rows))
}

/// The edit of a root.
fn root_change<R: Readable, L: Ledger>(
    alloc: Global,
    source: &Source<R>,
    path: &Path,
    was: bool,
    steps: &mut Steps<L>,
) -> Result<Change, NoMemory>
    requires path { EndsAsRow source.now.schema.now path.now }
    requires datastore { IsDatastore source.now.schema.now source.now.tree.now }
    requires fits { filter_fits source.now.schema.now (filter_view source.now.filter.now) ≡ true }
    ensures change { IfOk result (λ change. change ≡ root_change (selection source.now.schema.now (filter_view source.now.filter.now) (R.may source.now.readable.now source.now.schema.now) source.now.tree.now) (record { path = path.now; was = was })) }
    ensures visits { OnOk result (steps.new ≤ steps.old + root_visits (filter_view source.now.filter.now) source.now.tree.now path.now) }
{
    let rows = rows_from(alloc, source, path, steps)?;
    let kind = kind_since(was, rows.is_some());
    let rows = match rows {
        Some(rows) => rows,
        None => Series::from_vec(Vec::new(alloc)),
    };
    Ok(Change {
        kind,
        target: path.copy(alloc)?,
        rows,
        after: None,
    })
}

/// The record of roots, without the edits of excluded kinds.
pub fn record_roots<R: Readable, L: Ledger>(
    alloc: Global,
    source: &Source<R>,
    paths: &[Path],
    flags: &[bool],
    excluded: &Kinds,
    steps: &mut Steps<L>,
) -> Result<Changes, NoMemory>
    requires same { length paths.now ≡ length flags.now }
    requires ends { AllByRecursion (EndsAsRow source.now.schema.now) paths.now }
    requires datastore { IsDatastore source.now.schema.now source.now.tree.now }
    requires fits { filter_fits source.now.schema.now (filter_view source.now.filter.now) ≡ true }
    ensures changes { IfOk result (λ changes. changes ≡ recorded excluded.now (flagged paths.now flags.now) (selection source.now.schema.now (filter_view source.now.filter.now) (R.may source.now.readable.now source.now.schema.now) source.now.tree.now)) }
    ensures visits { OnOk result (steps.new ≤ steps.old + window_visits (filter_view source.now.filter.now) source.now.tree.now (flagged paths.now flags.now)) }
{
    let mut changes = Vec::new(alloc);
    for root in paths.iter().zip(flags) {
        let change = root_change(alloc, source, root.0, *root.1, steps)?;
        if !is_excluded(excluded, change.kind) {
            changes.push(change)?;
        }
    }
    Ok(Series::from_vec(changes))
}

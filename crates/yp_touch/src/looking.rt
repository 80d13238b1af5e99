//! Looks at the places at which a step may have changed a selection.
ghost use Rattle.std.specs.Prelude.{◌≡◌, ◌∷◌, [], ◌++◌, ◌+◌, ◌*◌, ◌≤◌, ◌<◌, ◌||◌, length, map, sum, true, None, Some, is_some, option_copied, if◌then◌else◌, IfOk, IfSome, OnOk};
ghost use Rattle.std.specs.List.{AllByRecursion};
ghost use Rattle.yp_base.specs.Paths.{last_node};
ghost use Rattle.yp_base.specs.Rows.{path_of, row_of};
ghost use Rattle.yp_schema.specs.Datastore.{is_path_of, is_leaf_kind, IsRowOf};
ghost use Rattle.yp_changes.specs.Changes.{are_alike};
ghost use Rattle.yp_filter.specs.Filters.{filter_size, compares};
ghost use Rattle.yp_filter.specs.Fits.{filter_fits};
ghost use Rattle.yp_filter.specs.View.{filter_view};
ghost use Rattle.yp_select.specs.Places.{path_above, is_compared};
ghost use Rattle.yp_kept.specs.Selection.{selection};
ghost use Rattle.yp_touch.specs.Absorbed.{AreTopmost};
ghost use Rattle.yp_touch.specs.Looked.{IsBetween, root_found, roots_found, look_visits, looks_visits, looks_at, looks_of};

use crate::placing::place_of;
use crate::root::Root;
use std::alloc::Global;
use std::sync::ledger::Ledger;
use yp_base::memory::{Duplicate, NoMemory};
use yp_base::path::Path;
use yp_base::row::Value;
use yp_base::steps::Steps;
use yp_changes::changed::{ChangedRow, are_alike};
use yp_filter::filter::Filter;
use yp_nacm::readable::Readable;
use yp_schema::schema::{Kind, Schema};
use yp_select::select::{select_at, select_known};
use yp_tree::tree::Tree;

/// The two sides of a step, what is selected of them for whom, and the roots so far.
#[derive(Drop)]
pub struct Sides<'a, R> {
    pub schema: &'a Schema,
    pub filter: &'a Filter,
    pub readable: &'a R,
    pub before: &'a Tree,
    pub after: &'a Tree,
    pub roots: &'a [Path],
}

/// The root at a path with these values in two selections, if they differ.
pub(crate) fn root_of(
    alloc: Global,
    path: &Path,
    old: Option<&Value>,
    new: Option<&Value>,
) -> Result<Option<Root>, NoMemory>
    ensures { IfOk result (λ root. root ≡ (if are_alike (option_copied old.entry) (option_copied new.entry) then None else Some (record { path = path.now; was = is_some old.entry }))) }
{
    if are_alike(old, new) {
        return Ok(None);
    }
    Ok(Some(Root {
        path: path.copy(alloc)?,
        was: old.is_some(),
    }))
}

/// Looks at a path in both selections, unless a root is at or above it. It counts at most two visits, and
/// two for each node of the filter.
fn look<R: Readable, L: Ledger>(
    alloc: Global,
    sides: &Sides<R>,
    path: &Path,
    steps: &mut Steps<L>,
) -> Result<Option<Root>, NoMemory>
    requires topmost { AreTopmost sides.now.roots.now }
    requires path { is_path_of sides.now.schema.now path.now ≡ true }
    requires fits { filter_fits sides.now.schema.now (filter_view sides.now.filter.now) ≡ true }
    ensures root { IfOk result (λ root. root ≡ root_found sides.now.roots.now (selection sides.now.schema.now (filter_view sides.now.filter.now) (R.may sides.now.readable.now sides.now.schema.now) sides.now.before.now) (selection sides.now.schema.now (filter_view sides.now.filter.now) (R.may sides.now.readable.now sides.now.schema.now) sides.now.after.now) path.now) }
    ensures visits { OnOk result (steps.new ≤ steps.old + look_visits (filter_size (filter_view sides.now.filter.now))) }
{
    if place_of(sides.roots, path).is_none() {
        return Ok(None);
    }
    let old = select_at(
        alloc,
        sides.schema,
        sides.filter,
        sides.readable,
        sides.before,
        path,
        steps,
    )?;
    let new = select_at(
        alloc,
        sides.schema,
        sides.filter,
        sides.readable,
        sides.after,
        path,
        steps,
    )?;
    root_of(alloc, path, old, new)
}

/// Looks at a path, and adds the root that is found.
fn look_at<R: Readable, L: Ledger>(
    alloc: Global,
    sides: &Sides<R>,
    path: &Path,
    found: &mut Vec<Root>,
    steps: &mut Steps<L>,
) -> Result<(), NoMemory>
    requires topmost { AreTopmost sides.now.roots.now }
    requires path { is_path_of sides.now.schema.now path.now ≡ true }
    requires fits { filter_fits sides.now.schema.now (filter_view sides.now.filter.now) ≡ true }
    ensures roots { OnOk result (found.new.items ≡ found.old.items ++ roots_found sides.now.roots.now (selection sides.now.schema.now (filter_view sides.now.filter.now) (R.may sides.now.readable.now sides.now.schema.now) sides.now.before.now) (selection sides.now.schema.now (filter_view sides.now.filter.now) (R.may sides.now.readable.now sides.now.schema.now) sides.now.after.now) (path.now ∷ [])) }
    ensures visits { OnOk result (steps.new ≤ steps.old + look_visits (filter_size (filter_view sides.now.filter.now))) }
{
    if let Some(root) = look(alloc, sides, path, steps)? {
        found.push(root)?;
    }
    Ok(())
}

/// Looks at the path of a changed row in both selections, unless a root is at or above it. Its values are
/// known, so neither is looked up. It counts at most two visits for each node of the filter.
fn look_known<R: Readable, L: Ledger>(
    alloc: Global,
    sides: &Sides<R>,
    row: &ChangedRow,
    steps: &mut Steps<L>,
) -> Result<Option<Root>, NoMemory>
    requires topmost { AreTopmost sides.now.roots.now }
    requires path { is_path_of sides.now.schema.now row.now.path ≡ true }
    requires between { IsBetween sides.now.before.now sides.now.after.now row.now }
    requires fits { filter_fits sides.now.schema.now (filter_view sides.now.filter.now) ≡ true }
    ensures root { IfOk result (λ root. root ≡ root_found sides.now.roots.now (selection sides.now.schema.now (filter_view sides.now.filter.now) (R.may sides.now.readable.now sides.now.schema.now) sides.now.before.now) (selection sides.now.schema.now (filter_view sides.now.filter.now) (R.may sides.now.readable.now sides.now.schema.now) sides.now.after.now) row.now.path) }
    ensures visits { OnOk result (steps.new ≤ steps.old + look_visits (filter_size (filter_view sides.now.filter.now))) }
{
    if place_of(sides.roots, &row.path).is_none() {
        return Ok(None);
    }
    let old = select_known(
        alloc,
        sides.schema,
        sides.filter,
        sides.readable,
        sides.before,
        &row.path,
        row.old.as_ref(),
        steps,
    )?;
    let new = select_known(
        alloc,
        sides.schema,
        sides.filter,
        sides.readable,
        sides.after,
        &row.path,
        row.new.as_ref(),
        steps,
    )?;
    root_of(alloc, &row.path, old, new)
}

/// Looks at the path of a changed row, and adds the root that is found.
fn look_at_changed<R: Readable, L: Ledger>(
    alloc: Global,
    sides: &Sides<R>,
    row: &ChangedRow,
    found: &mut Vec<Root>,
    steps: &mut Steps<L>,
) -> Result<(), NoMemory>
    requires topmost { AreTopmost sides.now.roots.now }
    requires path { is_path_of sides.now.schema.now row.now.path ≡ true }
    requires between { IsBetween sides.now.before.now sides.now.after.now row.now }
    requires fits { filter_fits sides.now.schema.now (filter_view sides.now.filter.now) ≡ true }
    ensures roots { OnOk result (found.new.items ≡ found.old.items ++ roots_found sides.now.roots.now (selection sides.now.schema.now (filter_view sides.now.filter.now) (R.may sides.now.readable.now sides.now.schema.now) sides.now.before.now) (selection sides.now.schema.now (filter_view sides.now.filter.now) (R.may sides.now.readable.now sides.now.schema.now) sides.now.after.now) (row.now.path ∷ [])) }
    ensures visits { OnOk result (steps.new ≤ steps.old + look_visits (filter_size (filter_view sides.now.filter.now))) }
{
    if let Some(root) = look_known(alloc, sides, row, steps)? {
        found.push(root)?;
    }
    Ok(())
}

/// Looks at the paths of rows, and adds the roots that are found.
fn look_at_rows<'b, R: Readable, L: Ledger>(
    alloc: Global,
    sides: &Sides<R>,
    rows: Vec<(&'b Path, &'b Value)>,
    found: &mut Vec<Root>,
    steps: &mut Steps<L>,
) -> Result<(), NoMemory>
    requires topmost { AreTopmost sides.now.roots.now }
    requires rows { AllByRecursion (IsRowOf sides.now.schema.now) (map (λ each. row_of (each.0.now, each.1.now)) rows.items) }
    requires fits { filter_fits sides.now.schema.now (filter_view sides.now.filter.now) ≡ true }
    ensures roots { OnOk result (found.new.items ≡ found.old.items ++ roots_found sides.now.roots.now (selection sides.now.schema.now (filter_view sides.now.filter.now) (R.may sides.now.readable.now sides.now.schema.now) sides.now.before.now) (selection sides.now.schema.now (filter_view sides.now.filter.now) (R.may sides.now.readable.now sides.now.schema.now) sides.now.after.now) (map path_of (map (λ each. row_of (each.0.now, each.1.now)) rows.entry.items))) }
    ensures visits { OnOk result (steps.new ≤ steps.old + length rows.entry.items * look_visits (filter_size (filter_view sides.now.filter.now))) }
{
    for row in rows {
        look_at(alloc, sides, row.0, found, steps)?;
    }
    Ok(())
}

fn is_leaf(kind: Kind) -> bool
    ensures { result ≡ is_leaf_kind kind }
{
    matches!(kind, Kind::Leaf | Kind::LeafList)
}

/// Whether a path ends in a leaf or a leaf-list entry on whose node a filter matches.
fn is_compared(schema: &Schema, filter: &Filter, path: &Path) -> bool
    requires { is_path_of schema.now path.now ≡ true }
    ensures { result ≡ is_compared schema.now (filter_view filter.now) (last_node path.now) }
{
    match path.items().last() {
        Some(segment) => is_leaf(schema.kind(segment.node)) && filter.compares(segment.node),
        None => false,
    }
}

/// Looks at the places that a changed row can move, and adds the roots that are found.
fn look_for<R: Readable, L: Ledger>(
    alloc: Global,
    sides: &Sides<R>,
    row: &ChangedRow,
    found: &mut Vec<Root>,
    steps: &mut Steps<L>,
) -> Result<(), NoMemory>
    requires topmost { AreTopmost sides.now.roots.now }
    requires path { is_path_of sides.now.schema.now row.now.path ≡ true }
    requires between { IsBetween sides.now.before.now sides.now.after.now row.now }
    requires old { AllByRecursion (IsRowOf sides.now.schema.now) sides.now.before.now }
    requires new { AllByRecursion (IsRowOf sides.now.schema.now) sides.now.after.now }
    requires fits { filter_fits sides.now.schema.now (filter_view sides.now.filter.now) ≡ true }
    ensures roots { OnOk result (found.new.items ≡ found.old.items ++ roots_found sides.now.roots.now (selection sides.now.schema.now (filter_view sides.now.filter.now) (R.may sides.now.readable.now sides.now.schema.now) sides.now.before.now) (selection sides.now.schema.now (filter_view sides.now.filter.now) (R.may sides.now.readable.now sides.now.schema.now) sides.now.after.now) (looks_at sides.now.schema.now (filter_view sides.now.filter.now) sides.now.before.now sides.now.after.now row.now.path)) }
    ensures visits { OnOk result (steps.new ≤ steps.old + looks_visits sides.now.schema.now (filter_view sides.now.filter.now) sides.now.before.now sides.now.after.now row.now.path) }
{
    if !is_compared(sides.schema, sides.filter, &row.path) {
        return look_at_changed(alloc, sides, row, found, steps);
    }
    let above = row.path.first(row.path.len().saturating_sub(1))?;
    let old = sides.before.within(alloc, &above, steps)?;
    look_at_rows(alloc, sides, old, found, steps)?;
    let new = sides.after.within(alloc, &above, steps)?;
    look_at_rows(alloc, sides, new, found, steps)?;
    Ok(())
}

/// The roots that are found at the places that changed rows can move, in the order of the looks.
pub fn find_roots<R: Readable, L: Ledger>(
    alloc: Global,
    sides: &Sides<R>,
    changed: &[ChangedRow],
    steps: &mut Steps<L>,
) -> Result<Vec<Root>, NoMemory>
    requires topmost { AreTopmost sides.now.roots.now }
    requires between { AllByRecursion (IsBetween sides.now.before.now sides.now.after.now) changed.now }
    requires paths { AllByRecursion (λ row. is_path_of sides.now.schema.now row.path ≡ true) changed.now }
    requires old { AllByRecursion (IsRowOf sides.now.schema.now) sides.now.before.now }
    requires new { AllByRecursion (IsRowOf sides.now.schema.now) sides.now.after.now }
    requires fits { filter_fits sides.now.schema.now (filter_view sides.now.filter.now) ≡ true }
    ensures roots { IfOk result (λ found. found.items ≡ roots_found sides.now.roots.now (selection sides.now.schema.now (filter_view sides.now.filter.now) (R.may sides.now.readable.now sides.now.schema.now) sides.now.before.now) (selection sides.now.schema.now (filter_view sides.now.filter.now) (R.may sides.now.readable.now sides.now.schema.now) sides.now.after.now) (looks_of sides.now.schema.now (filter_view sides.now.filter.now) sides.now.before.now sides.now.after.now (map (λ row. row.path) changed.now))) }
    ensures visits { OnOk result (steps.new ≤ steps.old + sum (map (λ row. looks_visits sides.now.schema.now (filter_view sides.now.filter.now) sides.now.before.now sides.now.after.now row.path) changed.now)) }
{
    let mut found = Vec::new(alloc);
    for row in changed {
        look_for(alloc, sides, row, &mut found, steps)?;
    }
    Ok(found)
}

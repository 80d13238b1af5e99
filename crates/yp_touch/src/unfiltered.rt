//! The roots of a step where nothing is filtered: a changed row moves no other, and what it held is known.
ghost use Rattle.std.specs.Prelude.{◌≡◌, ◌∷◌, [], ◌++◌, List, map, true, IfOk, OnOk};
ghost use Rattle.std.specs.List.{AllByRecursion};
ghost use Rattle.yp_base.specs.declared.row.Row.{Row};
ghost use Rattle.yp_schema.specs.Datastore.{is_path_of};
ghost use Rattle.yp_filter.specs.Filters.{all_rows};
ghost use Rattle.yp_kept.specs.Selection.{selection};
ghost use Rattle.yp_touch.specs.Absorbed.{AreTopmost};
ghost use Rattle.yp_touch.specs.Looked.{IsBetween, root_found, roots_found};

use crate::looking::root_of;
use crate::placing::place_of;
use crate::root::Root;
use std::alloc::Global;
use yp_base::memory::NoMemory;
use yp_base::path::Path;
use yp_changes::changed::ChangedRow;
use yp_nacm::readable::Readable;
use yp_schema::schema::Schema;

/// The root at the path of a changed row in what a reader may read, unless a root is at or above it.
#[tactic(auto, using(crate::proofs::AllRows::covered_finds_none, crate::proofs::AllRows::hidden_finds_none, crate::proofs::AllRows::readable_finds))]
fn look<R: Readable>(
    alloc: Global,
    schema: &Schema,
    readable: &R,
    roots: &[Path],
    row: &ChangedRow,
) -> Result<Option<Root>, NoMemory>
    requires topmost { AreTopmost roots.now }
    requires path { is_path_of schema.now row.now.path ≡ true }
    ensures { IfOk result (λ root. (before after : List Row) → IsBetween before after row.now
        → root ≡ root_found roots.now (selection schema.now all_rows (R.may readable.now schema.now) before) (selection schema.now all_rows (R.may readable.now schema.now) after) row.now.path) }
{
    if place_of(roots, &row.path).is_none() {
        return Ok(None);
    }
    if !readable.readable(schema, &row.path) {
        return Ok(None);
    }
    root_of(alloc, &row.path, row.old.as_ref(), row.new.as_ref())
}

/// Looks at the path of a changed row, and adds the root that is found.
fn look_at<R: Readable>(
    alloc: Global,
    schema: &Schema,
    readable: &R,
    roots: &[Path],
    row: &ChangedRow,
    found: &mut Vec<Root>,
) -> Result<(), NoMemory>
    requires topmost { AreTopmost roots.now }
    requires path { is_path_of schema.now row.now.path ≡ true }
    ensures { OnOk result ((before after : List Row) → IsBetween before after row.now
        → found.new.items ≡ found.old.items ++ roots_found roots.now (selection schema.now all_rows (R.may readable.now schema.now) before) (selection schema.now all_rows (R.may readable.now schema.now) after) (row.now.path ∷ [])) }
{
    if let Some(root) = look(alloc, schema, readable, roots, row)? {
        found.push(root)?;
    }
    Ok(())
}

/// The roots at the paths of changed rows in what a reader may read, in the order of the rows.
pub fn find_unfiltered_roots<R: Readable>(
    alloc: Global,
    schema: &Schema,
    readable: &R,
    roots: &[Path],
    changed: &[ChangedRow],
) -> Result<Vec<Root>, NoMemory>
    requires topmost { AreTopmost roots.now }
    requires paths { AllByRecursion (λ row. is_path_of schema.now row.path ≡ true) changed.now }
    ensures { IfOk result (λ found. (before after : List Row) → AllByRecursion (IsBetween before after) changed.now
        → found.items ≡ roots_found roots.now (selection schema.now all_rows (R.may readable.now schema.now) before) (selection schema.now all_rows (R.may readable.now schema.now) after) (map (λ row. row.path) changed.now)) }
{
    let mut found = Vec::new(alloc);
    for row in changed {
        look_at(alloc, schema, readable, roots, row, &mut found)?;
    }
    Ok(found)
}

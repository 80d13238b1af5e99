//! The tree that a patch found, and one that follows another.
ghost use Rattle.std.specs.Prelude.{◌≡◌, List, map, IfOk, OnOk, OnErr};
ghost use Rattle.yp_base.specs.declared.row.Row.{Row};
ghost use Rattle.yp_base.specs.Rows.{AreInOrder};
ghost use Rattle.yp_changes.specs.Changes.{changed_rows, turned};

use crate::changed::{Changed, ChangedRow};
use crate::commit::commit;
use crate::renewal::renewed;
use std::alloc::Global;
use std::sync::ledger::Ledger;
use yp_base::memory::{Duplicate, NoMemory};
use yp_base::series::Series;
use yp_base::steps::Steps;
use yp_tree::tree::Tree;

/// A change the other way round.
fn turned(alloc: Global, change: &ChangedRow) -> Result<ChangedRow, NoMemory>
    ensures { IfOk result (λ other. other ≡ turned change.now) }
{
    Ok(ChangedRow {
        path: change.path.copy(alloc)?,
        old: change.new.copy(alloc)?,
        new: change.old.copy(alloc)?,
    })
}

/// Changes the other way round.
fn all_turned(alloc: Global, changed: &[ChangedRow]) -> Result<Changed, NoMemory>
    ensures { IfOk result (λ others. others ≡ map turned changed.now) }
{
    let mut others = Vec::new(alloc);
    for change in changed {
        others.push(turned(alloc, change)?)?;
    }
    Ok(Series::from_vec(others))
}

/// The tree that a patch found, from the one that it left, which stays as it is, and from what it changed.
pub fn former<L: Ledger>(
    alloc: Global,
    tree: &Tree,
    changed: &Changed,
    steps: &mut Steps<L>,
) -> Result<Tree, NoMemory>
    requires { (before : List Row) × AreInOrder before × (changed.now ≡ changed_rows before tree.now) }
    ensures { IfOk result (λ found. (before : List Row) → AreInOrder before → changed.now ≡ changed_rows before tree.now → found ≡ before) }
{
    let _rows = tree.len();
    let others = all_turned(alloc, changed.items())?;
    let found = renewed(alloc, tree, &others, steps)?;
    Ok(found)
}

/// Makes the changes of a patch in a tree that is as the patched one was before. After `NoMemory` it is
/// still so.
pub fn follow<L: Ledger>(
    alloc: Global,
    tree: &mut Tree,
    changed: &Changed,
    steps: &mut Steps<L>,
) -> Result<(), NoMemory>
    requires { (after : List Row) × AreInOrder after × (changed.now ≡ changed_rows tree.old after) }
    ensures rows { OnOk result ((after : List Row) → AreInOrder after → changed.now ≡ changed_rows tree.old after → tree.new ≡ after) }
    ensures unchanged { OnErr result (tree.new ≡ tree.old) }
{
    let _rows = tree.len();
    commit(alloc, tree, changed, steps)?;
    Ok(())
}

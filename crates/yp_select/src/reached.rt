//! The rows that a filter reaches.
ghost use Rattle.std.specs.Prelude.{◌≡◌, ◌+◌, ◌≤◌, [], ◌-◌, length, false, slice_get, option_map, unwrap_or, IfOk, OnOk, List, Bool, ◌||◌};
ghost use Rattle.std.specs.Ordering.{is_eq};
ghost use Rattle.yp_base.specs.declared.path.Seg.{Seg};
ghost use Rattle.yp_base.specs.Order.{path_cmp, is_within};
ghost use Rattle.yp_base.specs.RowLaws.{picked};
ghost use Rattle.yp_base.specs.Rows.{AreInOrder, put_rows, rows_within};
ghost use Rattle.yp_select.specs.Reaches.{is_one_of, is_below, is_reached, StandApart, AreThose};

use crate::reaches::Reaches;
use std::alloc::Global;
use std::sync::ledger::Ledger;
use yp_base::memory::{Duplicate, NoMemory};
use yp_base::path::{Path, is_prefix};
use yp_base::row::{Row, Rows};
use yp_base::steps::Steps;
use yp_tree::rising::Rising;
use yp_tree::tree::Tree;

/// Whether a path is at or below the last of some paths, where there is one.
fn is_below_last(paths: &[Path], path: &Path) -> bool
    ensures { result ≡ unwrap_or (option_map (λ last. is_within last path.now) (slice_get paths.now (length paths.now - 1))) false }
{
    match paths.last() {
        Some(last) => is_prefix(last, path),
        None => false,
    }
}

/// Of some paths those that are at or below no other, and of those that are there twice one.
fn tops_of(alloc: Global, paths: Vec<Path>) -> Result<Vec<Path>, NoMemory>
    ensures apart { IfOk result (λ tops. StandApart tops.items) }
    ensures same { IfOk result (λ tops. (path : List Seg) → is_below tops.items path ≡ is_below paths.items path) }
    ensures few { IfOk result (λ tops. length tops.items ≤ length paths.items) }
{
    let mut sorted = paths;
    sorted.sort()?;
    let mut tops = Vec::new(alloc);
    for path in &sorted {
        if is_below_last(tops.as_slice(), path) {
            continue;
        }
        tops.push(path.copy(alloc)?)?;
    }
    Ok(tops)
}

/// Adds the row of a path, where there is one. It counts a visit.
#[tactic(auto, using(yp_base::specs::RowLaws::put_keeps_order))]
fn add_own<L: Ledger>(
    alloc: Global,
    tree: &Tree,
    path: &Path,
    rows: &mut Rising,
    steps: &mut Steps<L>,
) -> Result<(), NoMemory>
    requires { AreInOrder rows.old }
    ensures those { OnOk result ((test : List Seg → Bool) → AreThose test tree.now rows.old → AreThose (λ other. test other || is_eq (path_cmp other path.now)) tree.now rows.new) }
    ensures order { OnOk result (AreInOrder rows.new) }
    ensures visits { OnOk result (steps.new ≤ steps.old + 1) }
{
    if let Some(value) = tree.get(path, steps) {
        let path = path.copy(alloc)?;
        let value = value.copy(alloc)?;
        rows.put(alloc, Row { path, value })?;
    }
    Ok(())
}

/// Adds the rows at or below a path. It counts a visit for each of them, and one more.
#[tactic(auto, using(yp_base::specs::RowLaws::puts_order, yp_base::specs::RowLaws::within_keeps_order, crate::proofs::Those::below_added))]
fn add_below<L: Ledger>(
    alloc: Global,
    tree: &Tree,
    path: &Path,
    rows: &mut Rising,
    steps: &mut Steps<L>,
) -> Result<(), NoMemory>
    requires { AreInOrder rows.old }
    ensures those { OnOk result ((test : List Seg → Bool) → AreThose test tree.now rows.old → AreThose (λ other. test other || is_within path.now other) tree.now rows.new) }
    ensures order { OnOk result (AreInOrder rows.new) }
    ensures visits { OnOk result (steps.new ≤ steps.old + length (rows_within path.now tree.now) + 1) }
{
    let _count = tree.len();
    let found = tree.rows_within(alloc, path, steps)?;
    rows.put_all(alloc, found)
}

/// The rows of these paths. It counts a visit for each of them.
fn own_rows<L: Ledger>(
    alloc: Global,
    tree: &Tree,
    paths: &[Path],
    steps: &mut Steps<L>,
) -> Result<Rising, NoMemory>
    ensures those { IfOk result (λ rows. AreThose (is_one_of paths.now) tree.now rows) }
    ensures order { IfOk result (λ rows. AreInOrder rows) }
    ensures visits { OnOk result (steps.new ≤ steps.old + length paths.now) }
{
    let mut rows = Rising::new(alloc);
    for path in paths {
        add_own(alloc, tree, path, &mut rows, steps)?;
    }
    Ok(rows)
}

/// Adds the rows at or below these paths. It counts a visit for each of them at most, and one for each path.
fn add_all_below<L: Ledger>(
    alloc: Global,
    tree: &Tree,
    paths: &[Path],
    rows: &mut Rising,
    steps: &mut Steps<L>,
) -> Result<(), NoMemory>
    requires order { AreInOrder rows.old }
    requires apart { StandApart paths.now }
    ensures those { OnOk result ((test : List Seg → Bool) → AreThose test tree.now rows.old → AreThose (λ other. test other || is_below paths.now other) tree.now rows.new) }
    ensures order { OnOk result (AreInOrder rows.new) }
    ensures visits { OnOk result (steps.new ≤ steps.old + length tree.now + length paths.now) }
{
    for path in paths {
        add_below(alloc, tree, path, rows, steps)?;
    }
    Ok(())
}

/// The rows that are reached, in order. It counts a visit for each row of the tree at most, and one for each
/// path that is reached.
pub fn rows_reached<L: Ledger>(
    alloc: Global,
    tree: &Tree,
    reaches: Reaches,
    steps: &mut Steps<L>,
) -> Result<Rows, NoMemory>
    ensures rows { IfOk result (λ rows. rows ≡ picked (is_reached reaches.own.items reaches.below.items) tree.now) }
    ensures visits { OnOk result (steps.new ≤ steps.old + length tree.now + length reaches.own.items + length reaches.below.items) }
{
    let _count = tree.len();
    let Reaches { own, below } = reaches;
    let tops = tops_of(alloc, below)?;
    let mut rows = own_rows(alloc, tree, own.as_slice(), steps)?;
    add_all_below(alloc, tree, tops.as_slice(), &mut rows, steps)?;
    rows.into_rows(alloc)
}

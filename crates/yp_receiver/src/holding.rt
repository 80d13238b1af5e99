//! What a receiver holds of one subscription.
ghost use Rattle.std.specs.Prelude.{◌≡◌, [], OnOk, OnErr, IfOk};
ghost use Rattle.yp_base.specs.Rows.{put_rows, changed_by};

use crate::changing::{changed_from_none, hear_changes};
use crate::compact::CompactRows;
use std::alloc::Global;
use std::marker::Model;
use std::mem::replace;
use std::sync::ledger::Ledger;
use yp_base::memory::{Duplicate, NoMemory};
use yp_base::notice::Change;
use yp_base::path::Path;
use yp_base::row::Rows;
use yp_base::steps::Steps;
use yp_tree::rising::Rising;
use yp_tree::tree::Tree;

/// How rows are kept: as they were told, in little room, or in a tree.
#[derive(Drop)]
enum Kept {
    Told(Rows),
    Compact(CompactRows),
    Changed(Tree),
}

/// The rows that a receiver holds of a subscription. Those of its last full update are kept as this told
/// them, shared with whatever else it told, and those of a first change update in little room; only where
/// a change update comes after it are they put into a tree. Contracts see the rows, in the order of their
/// paths.
#[derive(Drop)]
pub struct Holding {
    kept: Kept,
}

impl Model for Holding {
    ghost use Rattle.std.specs.Prelude.{List};
    ghost use Rattle.yp_base.specs.declared.row.Row.{Row};
    ghost use Rattle.yp_receiver.specs.Holdings.{held_rows};

    ghost Value = { List Row };

    ghost view = { λ h. held_rows h.kept };
}

/// The rows of a tree, in order.
fn all_rows<L: Ledger>(alloc: Global, tree: &Tree, steps: &mut Steps<L>) -> Result<Rows, NoMemory>
    ensures { IfOk result (λ rows. rows ≡ tree.now) }
{
    let top = Path::top(alloc)?;
    let rows = tree.rows_within(alloc, &top, steps)?;
    Ok(rows)
}

/// A tree of rows that were kept in little room.
fn tree_of(alloc: Global, rows: &CompactRows) -> Result<Tree, NoMemory>
    ensures { IfOk result (λ tree. tree ≡ put_rows rows.now []) }
{
    let rows = rows.rows(alloc)?;
    Tree::of_rows(alloc, &rows)
}

/// Rows in order, as they are put one after another. Where they come in order they are only appended.
fn put_in_order(alloc: Global, rows: Rows) -> Result<Rows, NoMemory>
    ensures { IfOk result (λ all. all ≡ put_rows rows []) }
{
    let mut all = Rising::new(alloc);
    for row in rows.into_vec(alloc)? {
        all.put(alloc, row)?;
    }
    all.into_rows(alloc)
}

impl Holding {
    /// After a full update of these rows. It takes no memory.
    pub fn told(rows: Rows) -> Holding
        ensures { result ≡ put_rows rows [] }
    {
        Holding {
            kept: Kept::Told(rows),
        }
    }

    // Copies of rows, in little room.
    fn compact(alloc: Global, rows: &Rows) -> Result<Holding, NoMemory>
        ensures { IfOk result (λ held. held ≡ put_rows rows.now []) }
    {
        let kept = Kept::Compact(CompactRows::of_rows(alloc, rows.items())?);
        Ok(Holding { kept })
    }

    /// After a change update that is the first update: its edits, in order, from no rows on.
    #[tactic(auto, using(yp_base::specs::RowLaws::put_to_none))]
    pub fn first(alloc: Global, changes: &[Change]) -> Result<Holding, NoMemory>
        ensures { IfOk result (λ rows. rows ≡ changed_by changes.now []) }
    {
        let rows = changed_from_none(alloc, changes)?;
        Holding::compact(alloc, &rows)
    }

    // A tree of the rows, which is to be given back. After `NoMemory` they are as they were.
    fn take_tree(&mut self, alloc: Global) -> Result<Tree, NoMemory>
        ensures rows { IfOk result (λ tree. tree ≡ self.old) }
        ensures unchanged { OnErr result (self.new ≡ self.old) }
    {
        match replace(&mut self.kept, Kept::Told(Rows::from_vec(Vec::new(alloc)))) {
            Kept::Changed(tree) => Ok(tree),
            Kept::Told(rows) => {
                let tree = Tree::of_rows(alloc, &rows);
                if tree.is_err() {
                    self.kept = Kept::Told(rows);
                }
                tree
            }
            Kept::Compact(rows) => {
                let tree = tree_of(alloc, &rows);
                if tree.is_err() {
                    self.kept = Kept::Compact(rows);
                }
                tree
            }
        }
    }

    /// After one more change update: each edit, in order, takes away the rows at or below its target, and
    /// puts its own. After `NoMemory` the rows are as they were.
    pub fn change(&mut self, alloc: Global, changes: &[Change]) -> Result<(), NoMemory>
        ensures heard { OnOk result (self.new ≡ changed_by changes.now self.old) }
        ensures unchanged { OnErr result (self.new ≡ self.old) }
    {
        let mut tree = self.take_tree(alloc)?;
        let heard = hear_changes(alloc, changes, &mut tree);
        self.kept = Kept::Changed(tree);
        heard
    }

    /// Copies of the rows, in the order of their paths.
    pub fn rows<L: Ledger>(&self, alloc: Global, steps: &mut Steps<L>) -> Result<Rows, NoMemory>
        ensures { IfOk result (λ rows. rows ≡ self.now) }
    {
        match &self.kept {
            Kept::Told(rows) => put_in_order(alloc, rows.copy(alloc)?),
            Kept::Compact(rows) => put_in_order(alloc, rows.rows(alloc)?),
            Kept::Changed(tree) => all_rows(alloc, tree, steps),
        }
    }

    /// The rows, in the order of their paths, given away. They are copied only where they are shared.
    pub fn into_rows(self, alloc: Global) -> Result<Rows, NoMemory>
        ensures { IfOk result (λ rows. rows ≡ self) }
    {
        let Holding { kept } = self;
        match kept {
            Kept::Told(rows) => put_in_order(alloc, rows),
            Kept::Compact(rows) => put_in_order(alloc, rows.rows(alloc)?),
            Kept::Changed(tree) => tree.into_rows(alloc),
        }
    }
}

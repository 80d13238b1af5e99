//! Rows under change, over a tree that isn't changed yet.
ghost use Rattle.std.specs.Prelude.{◌≡◌, length, is_some, IfOk, OnOk, OnErr};
ghost use Rattle.yp_base.specs.Rows.{value_at, put_row, has_within, rows_without, AreInOrder};
ghost use Rattle.yp_changes.specs.Changes.{changed_rows};

use crate::base::Base;
use std::alloc::Global;
use std::marker::Model;
use std::sync::ledger::Ledger;
use yp_base::memory::NoMemory;
use yp_base::path::Path;
use yp_base::row::Row;
use yp_base::steps::Steps;
use yp_changes::changed::Changed;
use yp_changes::difference::differing;
use yp_tree::rising::Rising;
use yp_tree::tree::Tree;

/// The rows of a tree that edits don't touch, and the rows that they put.
#[derive(Drop)]
pub struct Draft<'a> {
    base: Base<'a>,
    put: Rising,
}

impl<'a> Model for Draft<'a> {
    ghost use Rattle.yp_edit.specs.Drafts.{Drafted, drafted, IsDraft};

    ghost Value = { Drafted };

    ghost view = { λ d. drafted d.base d.put };

    ghost invariant = { λ d. IsDraft d.base d.put };
}

impl<'a> Draft<'a> {
    /// The rows of a tree, as they are.
    pub fn new(alloc: Global, tree: &'a Tree) -> Draft<'a>
        ensures { result ≡ record { before = tree.now; after = tree.now } }
    {
        Draft {
            base: Base::new(alloc, tree),
            put: Rising::new(alloc),
        }
    }

    /// The rows are in the order of their paths.
    pub fn in_order(&self)
        ensures { AreInOrder self.now.after }
    {
        let _rows = (self.put.len(), self.base.len());
    }

    /// How many rows there are to be.
    pub fn len(&self) -> usize
        ensures { result ≡ length self.now.after }
    {
        self.put.len() + self.base.len()
    }

    /// Whether there is to be a row of this path.
    pub fn has<L: Ledger>(&self, path: &Path, steps: &mut Steps<L>) -> bool
        ensures { result ≡ is_some (value_at path.now self.now.after) }
    {
        let _rows = (self.put.len(), self.base.len());
        self.put.has(path) || self.base.has(path, steps)
    }

    /// Adds the row, or gives its value to the row that has its path.
    pub fn put<L: Ledger>(
        &mut self,
        alloc: Global,
        row: Row,
        steps: &mut Steps<L>,
    ) -> Result<(), NoMemory>
        ensures { OnOk result (self.new ≡ record self.old { after = put_row row self.old.after }) }
    {
        let _rows = (self.put.len(), self.base.len());
        self.base.touch(alloc, &row.path, steps)?;
        self.put.put(alloc, row)?;
        Ok(())
    }

    /// Whether there are to be rows at or below a target.
    pub fn has_within<L: Ledger>(
        &mut self,
        alloc: Global,
        target: &Path,
        steps: &mut Steps<L>,
    ) -> Result<bool, NoMemory>
        ensures found { IfOk result (λ found. found ≡ has_within target.now self.old.after) }
        ensures same { self.new ≡ self.old }
    {
        let found = self.put.has_within(alloc, target, steps)?;
        if found {
            return Ok(true);
        }
        self.base.has_within(alloc, target, steps)
    }

    /// Takes out the rows at or below a target.
    pub fn cut<L: Ledger>(
        &mut self,
        alloc: Global,
        target: &Path,
        steps: &mut Steps<L>,
    ) -> Result<(), NoMemory>
        ensures { OnOk result (self.new ≡ record self.old { after = rows_without target.now self.old.after }) }
    {
        let _rows = (self.put.len(), self.base.len());
        self.base.touch_within(alloc, target, steps)?;
        self.put.cut(alloc, target)?;
        Ok(())
    }

    /// The rows that differ.
    pub fn changes(self, alloc: Global) -> Result<Changed, NoMemory>
        ensures { IfOk result (λ changed. changed ≡ changed_rows self.entry.before self.entry.after) }
    {
        let _rows = (self.put.len(), self.base.len());
        let Draft { base, put } = self;
        let olds = base.into_touched(alloc)?;
        let news = put.into_rows(alloc)?;
        differing(alloc, olds.items(), news.items())
    }
}

//! Edits that are tried on a draft.
ghost use Rattle.std.specs.Prelude.{◌≡◌, length, nat_lt, is_some, IfOk, OnOk};
ghost use Rattle.yp_base.specs.Rows.{value_at, put_row, has_within, rows_without};
ghost use Rattle.yp_changes.specs.Changes.{changed_rows};
ghost use Rattle.yp_edit.specs.Drafts.{covers, remaining, remains};

use crate::base::is_covered;
use crate::draft::Draft;
use std::alloc::Global;
use std::marker::Model;
use std::sync::ledger::Ledger;
use yp_base::memory::{Duplicate, NoMemory};
use yp_base::path::{Path, is_prefix};
use yp_base::row::Row;
use yp_base::steps::Steps;
use yp_changes::changed::Changed;
use yp_tree::tree::Tree;

/// A draft, without the rows at or below a path that an edit took out. The draft loses them only once
/// that is needed: what is taken out and then not looked at, as before a refusal or within more that is
/// taken out, is never walked over.
#[derive(Drop)]
pub struct Trial<'a> {
    draft: Draft<'a>,
    gone: Option<Path>,
}

impl<'a> Model for Trial<'a> {
    ghost use Rattle.yp_edit.specs.Drafts.{Drafted, remains};

    ghost Value = { Drafted };

    ghost view = { λ t. remains t.gone t.draft };
}

/// Whether a path is at or above the one that is gone.
fn covers(path: &Path, gone: &Option<Path>) -> bool
    ensures { result ≡ covers path.now gone.now }
{
    match gone {
        Some(below) => is_prefix(path, below),
        None => true,
    }
}

/// Takes what is gone out of a draft.
fn take_out<L: Ledger>(
    alloc: Global,
    draft: &mut Draft,
    gone: Option<Path>,
    steps: &mut Steps<L>,
) -> Result<(), NoMemory>
    ensures { OnOk result (draft.new ≡ remains gone draft.old) }
{
    match gone {
        Some(path) => draft.cut(alloc, &path, steps),
        None => Ok(()),
    }
}

/// Takes what is gone out of a draft, unless it goes with what is at or below a target.
#[tactic(auto, using(crate::proofs::Trials::cut_over))]
fn make_way<L: Ledger>(
    alloc: Global,
    draft: &mut Draft,
    gone: Option<Path>,
    target: &Path,
    steps: &mut Steps<L>,
) -> Result<(), NoMemory>
    ensures rest { OnOk result (rows_without target.now draft.new.after ≡ rows_without target.now (remaining gone draft.old.after)) }
    ensures before { OnOk result (draft.new.before ≡ draft.old.before) }
{
    if covers(target, &gone) {
        return Ok(());
    }
    take_out(alloc, draft, gone, steps)?;
    Ok(())
}

impl<'a> Trial<'a> {
    /// The rows of a tree, as they are.
    pub fn new(alloc: Global, tree: &'a Tree) -> Trial<'a>
        ensures { result ≡ record { before = tree.now; after = tree.now } }
    {
        Trial {
            draft: Draft::new(alloc, tree),
            gone: None,
        }
    }

    /// Whether there are to be more rows than so many.
    #[tactic(auto, using(crate::proofs::Trials::no_more))]
    pub fn exceeds<L: Ledger>(
        &mut self,
        alloc: Global,
        most: usize,
        steps: &mut Steps<L>,
    ) -> Result<bool, NoMemory>
        ensures more { IfOk result (λ more. more ≡ nat_lt most (length self.old.after)) }
        ensures same { OnOk result (self.new ≡ self.old) }
    {
        if self.draft.len() <= most {
            return Ok(false);
        }
        let gone = self.gone.take();
        take_out(alloc, &mut self.draft, gone, steps)?;
        Ok(most < self.draft.len())
    }

    /// Whether there is to be a row of this path.
    #[tactic(auto, using(crate::proofs::Trials::none_has, crate::proofs::Trials::other_has))]
    pub fn has<L: Ledger>(&self, path: &Path, steps: &mut Steps<L>) -> bool
        ensures { result ≡ is_some (value_at path.now self.now.after) }
    {
        if is_covered(&self.gone, path) {
            return false;
        }
        self.draft.has(path, steps)
    }

    /// Adds the row, or gives its value to the row that has its path.
    #[tactic(auto, using(crate::proofs::Trials::put_remains))]
    pub fn put<L: Ledger>(
        &mut self,
        alloc: Global,
        row: Row,
        steps: &mut Steps<L>,
    ) -> Result<(), NoMemory>
        ensures { OnOk result (self.new ≡ record self.old { after = put_row row self.old.after }) }
    {
        if !is_covered(&self.gone, &row.path) {
            self.draft.in_order();
            self.draft.put(alloc, row, steps)?;
            return Ok(());
        }
        let gone = self.gone.take();
        take_out(alloc, &mut self.draft, gone, steps)?;
        self.draft.put(alloc, row, steps)?;
        Ok(())
    }

    /// Whether there are to be rows at or below a target.
    #[tactic(auto, using(crate::proofs::Trials::none_gone, crate::proofs::Trials::others_stay))]
    pub fn has_within<L: Ledger>(
        &mut self,
        alloc: Global,
        target: &Path,
        steps: &mut Steps<L>,
    ) -> Result<bool, NoMemory>
        ensures found { IfOk result (λ found. found ≡ has_within target.now self.old.after) }
        ensures same { OnOk result (self.new ≡ self.old) }
    {
        if is_covered(&self.gone, target) {
            return Ok(false);
        }
        if !covers(target, &self.gone) {
            let found = self.draft.has_within(alloc, target, steps)?;
            return Ok(found);
        }
        let gone = self.gone.take();
        take_out(alloc, &mut self.draft, gone, steps)?;
        let found = self.draft.has_within(alloc, target, steps)?;
        Ok(found)
    }

    /// Takes out the rows at or below a target.
    #[tactic(auto, using(crate::proofs::Trials::cut_gone))]
    pub fn cut<L: Ledger>(
        &mut self,
        alloc: Global,
        target: &Path,
        steps: &mut Steps<L>,
    ) -> Result<(), NoMemory>
        ensures { OnOk result (self.new ≡ record self.old { after = rows_without target.now self.old.after }) }
    {
        if is_covered(&self.gone, target) {
            return Ok(());
        }
        let path = target.copy(alloc)?;
        let gone = self.gone.take();
        make_way(alloc, &mut self.draft, gone, target, steps)?;
        self.gone = Some(path);
        Ok(())
    }

    /// The rows that differ.
    pub fn changes<L: Ledger>(
        self,
        alloc: Global,
        steps: &mut Steps<L>,
    ) -> Result<Changed, NoMemory>
        ensures { IfOk result (λ changed. changed ≡ changed_rows self.entry.before self.entry.after) }
    {
        let Trial { draft, gone } = self;
        let mut draft = draft;
        take_out(alloc, &mut draft, gone, steps)?;
        let changed = draft.changes(alloc)?;
        Ok(changed)
    }
}

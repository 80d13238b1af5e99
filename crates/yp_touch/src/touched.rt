//! The topmost places at which a selection changed.
ghost use Rattle.std.specs.Prelude.{◌≡◌, ◌+◌, ◌≤◌, [], List, true, IfOk, OnOk, OnErr};
ghost use Rattle.std.specs.List.{AllByRecursion};
ghost use Rattle.yp_base.specs.declared.row.Row.{Row};
ghost use Rattle.yp_schema.specs.Datastore.{IsDatastore};
ghost use Rattle.yp_changes.specs.Changes.{changed_rows};
ghost use Rattle.yp_encode.specs.Sendable.{IsSendableChange};
ghost use Rattle.yp_filter.specs.Filters.{all_rows};
ghost use Rattle.yp_filter.specs.Fits.{filter_fits};
ghost use Rattle.yp_filter.specs.View.{filter_view};
ghost use Rattle.yp_kept.specs.Selection.{selection};
ghost use Rattle.yp_touch.specs.Absorbed.{EndsAsRow, absorbed, paths_of, recorded};
ghost use Rattle.yp_touch.specs.Looked.{step_visits, window_visits};

use crate::looking::{Sides, find_roots};
use crate::placing::{put_roots, uncovered};
use crate::recording::{Source, record_roots};
use crate::unfiltered::find_unfiltered_roots;
use std::alloc::Global;
use std::marker::Model;
use std::sync::ledger::Ledger;
use yp_base::memory::{Duplicate, NoMemory};
use yp_base::notice::{Changes, Kinds};
use yp_base::path::Path;
use yp_base::steps::Steps;
use yp_changes::changed::ChangedRow;
use yp_filter::filter::Filter;
use yp_nacm::readable::Readable;
use yp_schema::schema::Schema;
use yp_tree::tree::Tree;

/// The topmost places at which a selection changed since its first state, in order: its roots. Contracts
/// see for each whether it was in the selection before it was first touched.
#[derive(Drop)]
pub struct Touched {
    paths: Vec<Path>,
    flags: Vec<bool>,
}

impl Model for Touched {
    ghost use Rattle.std.specs.Prelude.{◌≡◌, List, length};
    ghost use Rattle.yp_touch.specs.declared.root.Root.{Root};
    ghost use Rattle.yp_touch.specs.Absorbed.{AreTopmost, flagged};

    ghost Value = { List Root };

    ghost view = { λ t. flagged t.paths.items t.flags.items };

    ghost invariant = { λ t. (length t.paths.items ≡ length t.flags.items) × AreTopmost t.paths.items };
}

impl Touched {
    /// Nothing is touched. It takes no memory.
    #[tactic(auto, using(crate::proofs::Absorbing::none_are))]
    pub fn new(alloc: Global) -> Touched
        ensures { result ≡ [] }
    {
        Touched {
            paths: Vec::new(alloc),
            flags: Vec::new(alloc),
        }
    }

    /// The paths of the roots, in order. None of them is above another.
    pub fn roots(&self) -> &[Path]
        ensures { result.now ≡ paths_of self.now }
    {
        self.paths.as_slice()
    }

    /// Goes on by a step (RFC 8641 section 3.7), from the rows that it changed: the roots become the topmost
    /// of the roots and of the places at which what a filter selects for a reader differs. It compares no
    /// whole selections, and looks only at the places that a changed row can move: at its own path, and
    /// where the filter matches on its node at the rows at or below the path above it. It counts at most
    /// sixteen visits for each of these rows and each changed one, and as many again for each node of the
    /// filter. After `NoMemory` the roots are as they were.
    pub fn absorb<R: Readable, L: Ledger>(
        &mut self,
        alloc: Global,
        schema: &Schema,
        filter: &Filter,
        readable: &R,
        before: &Tree,
        after: &Tree,
        changed: &[ChangedRow],
        steps: &mut Steps<L>,
    ) -> Result<(), NoMemory>
        requires old { IsDatastore schema.now before.now }
        requires new { IsDatastore schema.now after.now }
        requires changed { changed.now ≡ changed_rows before.now after.now }
        requires fits { filter_fits schema.now (filter_view filter.now) ≡ true }
        ensures roots { OnOk result (self.new ≡ absorbed self.old (selection schema.now (filter_view filter.now) (R.may readable.now schema.now) before.now) (selection schema.now (filter_view filter.now) (R.may readable.now schema.now) after.now)) }
        ensures unchanged { OnErr result (self.new ≡ self.old) }
        ensures visits { OnOk result (steps.new ≤ steps.old + step_visits schema.now (filter_view filter.now) before.now after.now changed.now) }
    {
        schema.stands();
        let sides = Sides {
            schema,
            filter,
            readable,
            before,
            after,
            roots: self.paths.as_slice(),
        };
        let found = find_roots(alloc, &sides, changed, steps)?;
        self.paths.reserve(found.len())?;
        self.flags.reserve(found.len())?;
        put_roots(&mut self.paths, &mut self.flags, found);
        Ok(())
    }

    /// The same where nothing is filtered. Each changed row tells what it held, and moves no other, so no row
    /// is looked up. After `NoMemory` the roots are as they were.
    pub fn absorb_unfiltered<R: Readable>(
        &mut self,
        alloc: Global,
        schema: &Schema,
        readable: &R,
        changed: &[ChangedRow],
    ) -> Result<(), NoMemory>
        requires { (before : List Row) × (after : List Row) × IsDatastore schema.now before × IsDatastore schema.now after × (changed.now ≡ changed_rows before after) }
        ensures roots { OnOk result ((before after : List Row) → IsDatastore schema.now before → IsDatastore schema.now after → changed.now ≡ changed_rows before after
            → self.new ≡ absorbed self.old (selection schema.now all_rows (R.may readable.now schema.now) before) (selection schema.now all_rows (R.may readable.now schema.now) after)) }
        ensures unchanged { OnErr result (self.new ≡ self.old) }
    {
        schema.stands();
        let found = find_unfiltered_roots(alloc, schema, readable, self.paths.as_slice(), changed)?;
        self.paths.reserve(found.len())?;
        self.flags.reserve(found.len())?;
        put_roots(&mut self.paths, &mut self.flags, found);
        Ok(())
    }

    /// Goes on by a step of which the roots from nothing are known: the roots become the topmost of the roots
    /// and of those, as they would by `absorb`. It looks at no rows. After `NoMemory` the roots are as they
    /// were.
    pub fn join(&mut self, alloc: Global, step: &Touched) -> Result<(), NoMemory>
        ensures roots { OnOk result ((before after : List Row) → step.now ≡ absorbed [] before after → self.new ≡ absorbed self.old before after) }
        ensures unchanged { OnErr result (self.new ≡ self.old) }
    {
        if self.paths.is_empty() {
            *self = step.copy(alloc)?;
            return Ok(());
        }
        let found = uncovered(
            alloc,
            self.paths.as_slice(),
            step.paths.as_slice(),
            step.flags.as_slice(),
        )?;
        self.paths.reserve(found.len())?;
        self.flags.reserve(found.len())?;
        put_roots(&mut self.paths, &mut self.flags, found);
        Ok(())
    }

    /// The record of the roots (RFC 8641 sections 3.7 and 3.9): an edit of each, with what the filter selects
    /// for the reader there now, but for those of excluded kinds. It counts at most sixteen visits for each
    /// root and each row at or below one, and as many again for each node of the filter.
    pub fn record<R: Readable, L: Ledger>(
        &self,
        alloc: Global,
        schema: &Schema,
        filter: &Filter,
        readable: &R,
        after: &Tree,
        excluded: &Kinds,
        steps: &mut Steps<L>,
    ) -> Result<Changes, NoMemory>
        requires paths { AllByRecursion (EndsAsRow schema.now) (paths_of self.now) }
        requires after { IsDatastore schema.now after.now }
        requires fits { filter_fits schema.now (filter_view filter.now) ≡ true }
        ensures changes { IfOk result (λ changes. changes ≡ recorded excluded.now self.now (selection schema.now (filter_view filter.now) (R.may readable.now schema.now) after.now)) }
        ensures sendable { IfOk result (λ changes. AllByRecursion (IsSendableChange schema.now) changes) }
        ensures visits { OnOk result (steps.new ≤ steps.old + window_visits (filter_view filter.now) after.now self.now) }
    {
        let source = Source {
            schema,
            filter,
            readable,
            tree: after,
        };
        record_roots(
            alloc,
            &source,
            self.paths.as_slice(),
            self.flags.as_slice(),
            excluded,
            steps,
        )
    }
}

/// Copies of paths.
fn copies_of(alloc: Global, paths: &[Path]) -> Result<Vec<Path>, NoMemory>
    ensures { IfOk result (λ copies. copies.items ≡ paths.now) }
{
    let mut copies = Vec::with_capacity(alloc, paths.len())?;
    for path in paths {
        copies.push(path.copy(alloc)?)?;
    }
    Ok(copies)
}

impl Duplicate for Touched {
    fn copy(&self, alloc: Global) -> Result<Touched, NoMemory> {
        Ok(Touched {
            paths: copies_of(alloc, self.paths.as_slice())?,
            flags: Vec::from_slice(alloc, self.flags.as_slice())?,
        })
    }
}

/// Whether two paths are one.
#[tactic(auto, using(yp_base::specs::PathLaws::are_one))]
fn same_path(one: &Path, other: &Path) -> bool
    ensures { result ≡ true → one.now ≡ other.now }
{
    one.cmp(other).is_eq()
}

/// Whether two lists of paths are one.
fn same_paths(one: &[Path], other: &[Path]) -> bool
    ensures { result ≡ true → one.now ≡ other.now }
{
    if one.len() != other.len() {
        return false;
    }
    for at in 0..one.len() {
        if !same_path(&one[at], &other[at]) {
            return false;
        }
    }
    true
}

/// Whether two lists of flags are one.
fn same_flags(one: &[bool], other: &[bool]) -> bool
    ensures { result ≡ true → one.now ≡ other.now }
{
    if one.len() != other.len() {
        return false;
    }
    for at in 0..one.len() {
        if one[at] != other[at] {
            return false;
        }
    }
    true
}

/// Whether two have the same roots, which were there or not alike.
pub fn same_roots(one: &Touched, other: &Touched) -> bool
    ensures { result ≡ true → one.now ≡ other.now }
{
    same_paths(one.paths.as_slice(), other.paths.as_slice())
        && same_flags(one.flags.as_slice(), other.flags.as_slice())
}

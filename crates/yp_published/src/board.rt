//! What is published, by its writer, and the front that it is.
ghost use Rattle.std.specs.Prelude.{◌≡◌, ◌<◌, ◌≤◌, ◌^◌, ◌++◌, ◌∷◌, [], true, false, drop, IfOk, IfSome, IfNone, MatchBool, Some, None};
ghost use Rattle.left_right.specs.Sides.{view as knows};
ghost use Rattle.yp_journal.specs.History.{MayFollow, state_of};
ghost use Rattle.yp_published.specs.Histories.{Begins, after_op};
ghost use Rattle.yp_published.specs.Views.{blank};

use crate::history::{Front, History, Naming};
use crate::published::{StoreReader, StoreWriter, publish};
use crate::store::{Op, Store};
use core::mem::replace_with;
use left_right::Absorb;
use std::alloc::{AllocError, Global};
use std::marker::Model;
use std::sync::Wait;
use yp_journal::entry::Entry;

/// The writer of what is published. It is not `Drop`: end it by `take`.
pub struct Board<J: Naming>
where
    Store<J>: Absorb<Op<J>, State = ([Entry; 0], bool)>,
{
    history: History<J>,
    writer: StoreWriter<J>,
    front: Front<J>,
    spent: bool,
}

impl<J: Naming> Model for Board<J>
where
    Store<J>: Absorb<Op<J>, State = ([Entry; 0], bool)>,
{
    ghost use Rattle.std.specs.Coded.{codes};
    ghost use Rattle.std.specs.Prelude.{◌≡◌, false, [], drop};
    ghost use Rattle.yp_journal.specs.contracts.entry.Entry as entry;
    ghost use Rattle.yp_published.specs.Histories.{Shelf};

    ghost Value = { Shelf };

    ghost coded = { Prim.hlevel (codes, entry.the_row.coded) };

    ghost view = { λ b. record { known = b.writer.desk.shown.value; spent = b.spent } };

    ghost invariant = { λ b. b.spent ≡ false → (drop b.writer.behind b.writer.log.items ≡ []) × (b.front ≡ b.writer.desk.shown.value) };
}

impl<J: Naming> Board<J> {
    /// A board with nothing published, for so many readers.
    pub fn open(
        alloc: Global,
        history: History<J>,
        front: Front<J>,
        readers: usize,
    ) -> Result<Board<J>, AllocError>
        requires readers { (0 < readers) × (readers < 2 ^ 32) }
        requires empty { (front.entries ≡ []) × (front.ended ≡ false) }
        ensures { IfOk result (λ board. (board.known.entries ≡ []) × (board.known.ended ≡ false) × (board.spent ≡ false)) }
    {
        let first = Store {
            alloc,
            entries: Vec::new(alloc),
            front: front.again(),
        };
        let second = Store {
            alloc,
            entries: Vec::new(alloc),
            front: front.again(),
        };
        let writer = StoreWriter::new(alloc, first, second, readers)?;
        Ok(Board {
            history,
            writer,
            front,
            spent: false,
        })
    }

    /// A reader of what is published; `Err` where there is no place for it.
    pub fn reader(&self) -> Result<StoreReader<J>, AllocError>
        ensures { IfOk result (λ reader. knows reader.place ≡ blank) }
    {
        self.writer.factory().reader()
    }

    /// What was seen of the history: all that is published, where the board isn't spent.
    pub fn front(&self) -> &Front<J>
        ensures { self.now.spent ≡ false → result.now ≡ self.now.known }
    {
        &self.front
    }

    /// Whether nothing more can be published.
    pub fn is_spent(&self) -> bool
        ensures { result ≡ self.now.spent }
    {
        self.spent
    }

    /// Adds an entry to what is published. Where it can't, nothing more is published.
    pub fn add<W: Wait>(&mut self, rt: &W, entry: Entry, seen: &Front<J>) -> Option<Front<J>>
        requires legal { self.old.spent ≡ false → MayFollow J.nodes (state_of J.nodes J.opening self.old.known.entries) entry }
        requires lane { (0 < entry.lane) × (entry.lane ≤ J.parts) }
        ensures added { IfSome result (λ front. (front ≡ after_op self.old.known (Some entry)) × (self.new.known ≡ front) × (self.new.spent ≡ false) × Begins seen.now self.old.known) }
        ensures same { IfNone result (self.new.known ≡ self.old.known) }
    {
        let (op, after) = self.prepared(entry, seen)?;
        self.show(rt, op, after)
    }

    /// Ends what is published. Where it can't, nothing more is published either.
    pub fn end<W: Wait>(&mut self, rt: &W) -> Option<Front<J>>
        ensures ended { IfSome result (λ front. (front ≡ after_op self.old.known None) × (self.new.known ≡ front) × (self.new.spent ≡ false)) }
        ensures same { IfNone result (self.new.known ≡ self.old.known) }
    {
        let (op, after) = self.ending()?;
        self.show(rt, op, after)
    }

    /// The operation that adds an entry, and the front with it. The entry is in the history then.
    fn prepared(&self, entry: Entry, seen: &Front<J>) -> Option<(Op<J>, Front<J>)>
        requires legal { self.now.spent ≡ false → MayFollow J.nodes (state_of J.nodes J.opening self.now.known.entries) entry }
        requires lane { (0 < entry.lane) × (entry.lane ≤ J.parts) }
        ensures { IfSome result (λ p. (self.now.spent ≡ false) × (self.now.known.ended ≡ false) × (p.0 ≡ Some entry) × (p.1 ≡ after_op self.now.known (Some entry)) × Begins seen.now self.now.known) }
    {
        if self.spent || self.front.has_ended() || self.front.len() >= 1 << 62 {
            return None;
        }
        let after = self.front.with(&self.history, &entry, seen)?;
        let op = Op {
            added: Some(entry),
            before: self.front.again(),
            after: after.again(),
        };
        Some((op, after))
    }

    /// The operation that ends the history, and the front that it is then. The history has ended then.
    fn ending(&self) -> Option<(Op<J>, Front<J>)>
        ensures { IfSome result (λ p. (self.now.spent ≡ false) × (self.now.known.ended ≡ false) × (p.0 ≡ None) × (p.1 ≡ after_op self.now.known None)) }
    {
        if self.spent || self.front.has_ended() || self.front.len() >= 1 << 62 {
            return None;
        }
        let after = self.front.end(&self.history)?;
        let op = Op {
            added: None,
            before: self.front.again(),
            after: after.again(),
        };
        Some((op, after))
    }

    /// Publishes an operation, and gives the front that is published then. Where memory runs out, what is
    /// published stays, and nothing more is published.
    fn show<W: Wait>(&mut self, rt: &W, op: Op<J>, after: Front<J>) -> Option<Front<J>>
        requires ready { (self.old.spent ≡ false) × (self.old.known.ended ≡ false) }
        requires next { after ≡ after_op self.old.known op }
        ensures shown { IfSome result (λ front. (front ≡ after) × (self.new.known ≡ after) × (self.new.spent ≡ false)) }
        ensures same { IfNone result (self.new.known ≡ self.old.known) }
    {
        self.spent = true;
        let shown = replace_with(
            &mut self.writer,
            op,
            |writer: StoreWriter<J>, op: Op<J>| -> (StoreWriter<J>, bool)
                requires { (drop writer.behind writer.log.items ≡ []) × (writer.desk.shown.value.ended ≡ false) }
                ensures { MatchBool result.1 ((drop result.0.behind result.0.log.items ≡ []) × (result.0.desk.shown.value ≡ after_op writer.desk.shown.value op)) (result.0.desk.shown.value ≡ writer.desk.shown.value) }
            { publish(rt, writer, op) },
        );
        if !shown {
            return None;
        }
        self.front = after.again();
        self.spent = false;
        Some(after)
    }

    /// Ends the board, and gives the entries. It waits for the readers.
    pub fn take<W: Wait>(self, rt: &W) -> Vec<Entry>
        ensures { result.items ≡ self.known.entries }
    {
        let Board {
            history: _,
            writer,
            front: _,
            spent: _,
        } = self;
        let Store {
            alloc: _,
            entries,
            front: _,
        } = Box::into_inner(writer.take(rt));
        entries
    }
}

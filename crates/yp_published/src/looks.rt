//! All calls on the handles of readers. A handle says neither when it gives no place nor when it gives no read, so these
//! are counted here, and nowhere else is such a count written.
ghost use Rattle.std.specs.Prelude.{◌≡◌, ◌+◌, drop, length, All, IfOk, Err};
ghost use Rattle.left_right.specs.Sides.{view as knows};
ghost use Rattle.yp_base.specs.Counts.{one_more};
ghost use Rattle.yp_published.specs.Histories.{Begins};
ghost use Rattle.yp_published.specs.Reads.{fresh_sight};
ghost use Rattle.yp_published.specs.Views.{SeesAll, known_by};
ghost use Rattle.yp_published.specs.declared.looks.CatchFault.TheVariants.{NoRead};

use crate::board::Board;
use crate::history::{Front, Naming};
use crate::published::{Sees, StoreReader};
use crate::store::Store;
use core::mem::replace_with;
use std::alloc::Global;
use std::marker::Model;
use yp_base::memory::{Duplicate, NoMemory};
use yp_journal::entry::Entry;

/// Why nothing was read.
#[derive(Debug, Drop, Clone, Copy, PartialEq, Eq, thiserror::Error)]
pub enum CatchFault {
    /// The handle gave no read, which is counted.
    #[error("no read")]
    NoRead,
    /// Memory ran out.
    #[error("no memory")]
    Memory,
}

/// Copies of entries.
fn copies_of(alloc: Global, entries: &[Entry]) -> Result<Vec<Entry>, NoMemory>
    ensures { IfOk result (λ copies. copies.items ≡ entries.now) }
{
    let mut copies = Vec::with_capacity(alloc, entries.len())?;
    for entry in entries {
        copies.push(entry.copy(alloc)?)?;
    }
    Ok(copies)
}

/// Copies of the entries that are published past a position.
fn copies_past<J: Naming>(
    alloc: Global,
    store: &Store<J>,
    position: usize,
) -> Result<Vec<Entry>, NoMemory>
    ensures { IfOk result (λ copies. copies.items ≡ drop position store.now.entries) }
{
    match store.entries.get(position..) {
        Some(past) => copies_of(alloc, past),
        None => Ok(Vec::new(alloc)),
    }
}

/// Reads what is published past a position, with the front that all of it is.
fn look<J: Naming>(
    reader: StoreReader<J>,
    alloc: Global,
    position: usize,
) -> (StoreReader<J>, Result<(Vec<Entry>, Front<J>), CatchFault>)
    ensures read { IfOk result.1 (λ got. SeesAll (knows reader.place) got.1 (knows result.0.place) × (got.0.items ≡ drop position got.1.entries)) }
    ensures more { Begins (known_by (knows reader.place)) (known_by (knows result.0.place)) }
    ensures missed { result.1 ≡ Err NoRead → knows result.0.place ≡ knows reader.place }
{
    let reading = match reader.enter_as::<Sees>() {
        Ok(reading) => reading,
        Err(reader) => return (reader, Err(CatchFault::NoRead)),
    };
    let front = reading.get().front.again();
    let copies = copies_past(alloc, reading.get(), position);
    let reader = reading.leave();
    match copies {
        Ok(copies) => (reader, Ok((copies, front))),
        Err(NoMemory) => (reader, Err(CatchFault::Memory)),
    }
}

/// The handle of a reader, with the count of reads that it was not given.
#[derive(Drop)]
pub(crate) struct Looks<J: Naming> {
    reader: StoreReader<J>,
    missed: u64,
}

impl<J: Naming> Model for Looks<J> {
    ghost use Rattle.std.specs.Coded.{codes};
    ghost use Rattle.left_right.specs.Sides.{view as knows};
    ghost use Rattle.yp_journal.specs.contracts.entry.Entry as entry;
    ghost use Rattle.yp_published.specs.Reads.{Sight};

    ghost Value = { Sight };

    ghost coded = { Prim.hlevel (codes, entry.the_row.coded) };

    ghost view = { λ l. record { view = knows l.reader.place; missed = l.missed } };
}

impl<J: Naming> Looks<J> {
    /// Reads what is published past a position, with the front that all of it is.
    pub(crate) fn read(
        &mut self,
        alloc: Global,
        position: usize,
    ) -> Result<(Vec<Entry>, Front<J>), CatchFault>
        ensures read { IfOk result (λ got. SeesAll self.old.view got.1 self.new.view × (got.0.items ≡ drop position got.1.entries) × (self.new.missed ≡ self.old.missed)) }
        ensures more { Begins (known_by self.old.view) (known_by self.new.view) }
        ensures missed { result ≡ Err NoRead → self.new ≡ record self.old { missed = one_more self.old.missed } }
    {
        let got = replace_with(
            &mut self.reader,
            (alloc, position),
            |reader: StoreReader<J>, place: (Global, usize)| -> (
                StoreReader<J>,
                Result<(Vec<Entry>, Front<J>), CatchFault>,
            )
                ensures read { IfOk result.1 (λ got. SeesAll (knows reader.place) got.1 (knows result.0.place) × (got.0.items ≡ drop place.1 got.1.entries)) }
                ensures more { Begins (known_by (knows reader.place)) (known_by (knows result.0.place)) }
                ensures missed { result.1 ≡ Err NoRead → knows result.0.place ≡ knows reader.place }
            { look(reader, place.0, place.1) },
        );
        if let Err(CatchFault::NoRead) = got {
            self.missed = self.missed.saturating_add(1);
        }
        got
    }

    /// The handles of so many readers, as far as there are places, and how many there are not.
    pub(crate) fn of_board(
        alloc: Global,
        board: &Board<J>,
        workers: u32,
    ) -> Result<(Vec<Looks<J>>, u32), NoMemory>
        ensures { IfOk result (λ p. (length p.0.items + p.1 ≡ workers) × All (λ looks. looks ≡ fresh_sight) p.0.items) }
    {
        let mut handles = Vec::with_capacity(alloc, workers as usize)?;
        let mut refused = 0;
        for _ in 0..workers {
            match board.reader() {
                Ok(reader) => handles.push(Looks { reader, missed: 0 })?,
                Err(_) => refused += 1,
            }
        }
        Ok((handles, refused))
    }
}

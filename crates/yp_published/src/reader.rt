//! Readers of the published journal, which take no lock and wait for nobody.
ghost use Rattle.std.specs.Prelude.{◌≡◌, ◌+◌, ◌<◌, ◌++◌, [], false, length, map, All, IfOk, OnErr, Err};
ghost use Rattle.yp_base.specs.Counts.{one_more};
ghost use Rattle.yp_journal.specs.History.{IsLegal};
ghost use Rattle.yp_published.specs.Reads.{IsCaughtInto, fresh_reading, reading_of};
ghost use Rattle.yp_published.specs.declared.looks.CatchFault.TheVariants.{NoRead};

use crate::board::Board;
use crate::history::{Front, Naming};
pub use crate::looks::CatchFault;
use crate::looks::Looks;
use std::alloc::Global;
use std::marker::Model;
use yp_base::memory::NoMemory;
use yp_journal::entry::Entry;

/// A reader of the published journal. Contracts see the entries that it got, whether they are all, what was published at
/// its last read, how often it read, and how often it was given no read. What it got is legal from the state that the
/// journal goes on from.
#[derive(Drop)]
pub struct LogReader<J: Naming> {
    looks: Looks<J>,
    front: Front<J>,
}

impl<J: Naming> Model for LogReader<J> {
    ghost use Rattle.std.specs.Coded.{codes};
    ghost use Rattle.std.specs.Prelude.{◌≡◌};
    ghost use Rattle.yp_journal.specs.contracts.entry.Entry as entry;
    ghost use Rattle.yp_published.specs.Histories.{Begins};
    ghost use Rattle.yp_published.specs.Reads.{Reading, reading_of};
    ghost use Rattle.yp_published.specs.Views.{known_by};

    ghost Value = { Reading };

    ghost coded = { Prim.hlevel (codes, entry.the_row.coded) };

    ghost view = { λ r. reading_of r.front r.looks };

    ghost invariant = { λ r. Begins r.front (known_by r.looks.view) };
}

impl<J: Naming> LogReader<J> {
    /// Appends what is published past what it got, and says how many entries that is. It takes no lock, and waits for
    /// nobody. None come only where nothing more was published at this read.
    pub fn catch_up(&mut self, alloc: Global, into: &mut Vec<Entry>) -> Result<u64, CatchFault>
        ensures caught { IfOk result (λ count. IsCaughtInto self.old self.new into.old.items into.new.items count) }
        ensures missed { result ≡ Err NoRead → self.new ≡ record self.old { missed = one_more self.old.missed } }
        ensures same { OnErr result ((into.new.items ≡ into.old.items) × (self.new.got ≡ self.old.got)) }
    {
        let (mut fresh, front) = self.looks.read(alloc, self.front.len() as usize)?;
        let count = fresh.len() as u64;
        match into.append(&mut fresh) {
            Ok(()) => {
                self.front = front;
                Ok(count)
            }
            Err(_) => Err(CatchFault::Memory),
        }
    }

    /// Whether its last read that was given saw the end: then it got all.
    pub fn ended(&self) -> bool
        ensures { result ≡ self.now.got.ended }
    {
        self.front.has_ended()
    }

    /// What it got.
    pub fn front(&self) -> &Front<J>
        ensures { result.now ≡ self.now.got }
    {
        &self.front
    }

    /// What it got is legal from the state that the journal goes on from.
    pub fn legal(&self)
        ensures { IsLegal J.nodes J.opening self.now.got.entries }
    {
        self.front.legal();
    }
}

/// Readers of a published journal: at least one.
#[derive(Drop)]
pub struct Readers<J: Naming> {
    pub readers: Vec<LogReader<J>>,
    /// How many more were asked for than there are places.
    pub refused: u32,
}

impl<J: Naming> Readers<J> {
    /// Readers for so many workers, as far as there are places. With no place at all it answers `NoMemory`.
    pub fn open(
        alloc: Global,
        board: &Board<J>,
        front: &Front<J>,
        workers: u32,
    ) -> Result<Readers<J>, NoMemory>
        requires { (front.now.entries ≡ []) × (front.now.ended ≡ false) }
        ensures places { IfOk result (λ opened. length opened.readers.items + opened.refused ≡ workers) }
        ensures some { IfOk result (λ opened. 0 < length opened.readers.items) }
        ensures fresh { IfOk result (λ opened. All (λ reader. reader ≡ fresh_reading) opened.readers.items) }
    {
        let (handles, refused) = Looks::of_board(alloc, board, workers)?;
        if handles.is_empty() {
            return Err(NoMemory);
        }
        let readers = readers_by(alloc, handles, front)?;
        Ok(Readers { readers, refused })
    }
}

/// The readers by these handles, which got nothing yet.
fn readers_by<J: Naming>(
    alloc: Global,
    handles: Vec<Looks<J>>,
    front: &Front<J>,
) -> Result<Vec<LogReader<J>>, NoMemory>
    requires { (front.now.entries ≡ []) × (front.now.ended ≡ false) }
    ensures { IfOk result (λ readers. readers.items ≡ map (λ looks. reading_of front.now looks) handles.items) }
{
    let mut readers = Vec::with_capacity(alloc, handles.len())?;
    for looks in handles {
        readers.push(reader_by(looks, front))?;
    }
    Ok(readers)
}

/// The reader by a handle, which got nothing yet.
fn reader_by<J: Naming>(looks: Looks<J>, front: &Front<J>) -> LogReader<J>
    requires { (front.now.entries ≡ []) × (front.now.ended ≡ false) }
    ensures { result ≡ reading_of front.now looks }
{
    LogReader {
        looks,
        front: front.again(),
    }
}

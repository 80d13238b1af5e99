//! The beginning of a shared journal.
ghost use Rattle.std.specs.Prelude.{◌≡◌, ◌+◌, ◌<◌, ◌≤◌, ◌^◌, [], false, length, All, IfOk};
ghost use Rattle.yp_published.specs.Reads.{fresh_reading};
ghost use Rattle.yp_log_share.specs.Seats.{AreOfLanesFrom, count_calls};

use crate::desk::Desk;
use crate::seat::{LaneSeat, seats};
use left_right::Absorb;
use std::alloc::Global;
use std::sync::Wait;
use std::sync::ledger::Blank;
use yp_base::memory::NoMemory;
use yp_journal::entry::Entry;
use yp_journal::state::State;
use yp_published::board::Board;
use yp_published::history::{Naming, Opened};
use yp_published::reader::Readers;
use yp_published::store::{Op, Store};

/// A journal that was opened: its desk, a seat for each lane from 1 on, and its readers.
pub struct Parts<J: Naming>
where
    Store<J>: Absorb<Op<J>, State = ([Entry; 0], bool)>,
{
    pub desk: Desk<J>,
    pub seats: Vec<LaneSeat<J>>,
    pub readers: Readers<J>,
}

/// Opens a journal that goes on from a state, for so many lanes and so many workers that read it. There is no entry yet.
/// Where a reader is refused its place, there is a worker less.
pub fn open<J: Naming, W: Wait>(
    rt: &W,
    alloc: Global,
    opened: Opened,
    blank: Blank,
    state: State,
    lanes: u32,
    workers: u32,
) -> Result<Parts<J>, NoMemory>
    requires book { opened.seen.book ≡ J.book }
    requires name { blank.name ≡ J.name }
    requires parts { (blank.parts ≡ J.parts) × (J.parts ≡ lanes) }
    requires opening { J.opening ≡ state }
    requires workers { 0 < workers }
    ensures desk { IfOk result (λ parts. (parts.desk.known.entries ≡ []) × (parts.desk.known.ended ≡ false) × (parts.desk.spent ≡ false)) }
    ensures seats { IfOk result (λ parts. (length parts.seats.items ≡ lanes) × AreOfLanesFrom 1 parts.seats.items × (count_calls parts.seats.items ≡ 0)) }
    ensures readers { IfOk result (λ parts. (length parts.readers.readers.items + parts.readers.refused ≡ workers) × (0 < length parts.readers.readers.items) × All (λ reader. reader ≡ fresh_reading) parts.readers.readers.items) }
{
    let (history, front) = opened.named::<J>();
    let (calls, mut rest) = blank.open::<J>();
    let seats = seats(alloc, &front, &mut rest, lanes)?;
    let board = Board::open(alloc, history, front.again(), workers as usize)?;
    match Readers::open(alloc, &board, &front, workers) {
        Ok(readers) => Ok(Parts {
            desk: Desk {
                board,
                state,
                spent: false,
                calls,
                rest,
            },
            seats,
            readers,
        }),
        Err(NoMemory) => {
            board.take(rt);
            Err(NoMemory)
        }
    }
}

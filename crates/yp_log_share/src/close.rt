//! What a journal that has ended comes to.
ghost use Rattle.std.specs.Prelude.{◌≡◌, ◌+◌, true, length, All, IfOk, IfErr};
ghost use Rattle.yp_journal.specs.History.{IsLegal, state_of};
ghost use Rattle.yp_published.specs.Histories.{Begins, AreOfLanes};
ghost use Rattle.yp_log_share.specs.Seats.{AreWhole, count_calls};

use crate::desk::Desk;
use crate::finished::Finished;
use crate::settle::{LaneCalls, settle};
use left_right::Absorb;
use std::alloc::Global;
use std::sync::Wait;
use yp_journal::entry::Entry;
use yp_journal::state::State;
use yp_published::history::{Front, Naming};
use yp_published::reader::LogReader;
use yp_published::store::{Op, Store};

/// The entries of a journal that has ended, the state after them, and the calls of each lane.
#[derive(Drop)]
pub struct Closed {
    pub entries: Vec<Entry>,
    pub state: State,
    pub lanes: Vec<LaneCalls>,
}

/// A journal that wasn't closed, since there was no memory. It is not `Drop`: end its desk by `abandon`.
pub struct Unclosed<J: Naming>
where
    Store<J>: Absorb<Op<J>, State = ([Entry; 0], bool)>,
{
    pub desk: Desk<J>,
    pub finished: Finished<J>,
    pub readers: Vec<LogReader<J>>,
}

/// What any reader got begins the whole journal.
fn each_begins<J: Naming>(whole: &Front<J>, readers: &[LogReader<J>])
    requires { whole.now.ended ≡ true }
    ensures { All (λ reader. Begins reader.got whole.now) readers.now }
{
    for reader in readers {
        reader.front().begins(whole);
    }
}

impl<J: Naming> Desk<J> {
    /// Closes a journal that has ended: gives its entries, the state after them, and the calls of each lane. It waits
    /// for readers that are at it. After want of memory, which is met first, all comes back.
    pub fn close<W: Wait>(
        self,
        rt: &W,
        alloc: Global,
        finished: Finished<J>,
        readers: Vec<LogReader<J>>,
    ) -> Result<Closed, Unclosed<J>>
        ensures entries { IfOk result (λ closed. closed.entries.items ≡ self.known.entries) }
        ensures legal { IfOk result (λ closed. IsLegal J.nodes J.opening closed.entries.items) }
        ensures state { IfOk result (λ closed. closed.state ≡ state_of J.nodes J.opening closed.entries.items) }
        ensures seats { IfOk result (λ closed. closed.lanes.items ≡ finished.seats) }
        ensures lanes { IfOk result (λ closed. AreWhole (J.opening.position + 1) closed.entries.items closed.lanes.items) }
        ensures others { IfOk result (λ closed. AreOfLanes J.parts closed.entries.items) }
        ensures count { IfOk result (λ closed. count_calls closed.lanes.items ≡ length closed.entries.items) }
        ensures read { IfOk result (λ closed. All (λ reader. Begins reader.got (record { entries = closed.entries.items; ended = true })) readers.items) }
        ensures back { IfErr result (λ back. (back.desk ≡ self) × (back.finished ≡ finished) × (back.readers ≡ readers)) }
    {
        if self.spent || !self.board.front().has_ended() {
            return Err(Unclosed {
                desk: self,
                finished,
                readers,
            });
        }
        let mut lanes = match Vec::with_capacity(alloc, finished.seats.len()) {
            Ok(lanes) => lanes,
            Err(_) => {
                return Err(Unclosed {
                    desk: self,
                    finished,
                    readers,
                });
            }
        };
        let Desk {
            board,
            state,
            spent: _,
            mut calls,
            rest,
        } = self;
        each_begins(board.front(), readers.as_slice());
        let Finished { seats, whole: _ } = finished;
        settle(&mut calls, rest, board.front(), seats, &mut lanes);
        drop(readers);
        Ok(Closed {
            entries: board.take(rt),
            state,
            lanes,
        })
    }

    /// Ends a journal that isn't closed. It waits for readers that are at it.
    pub fn abandon<W: Wait>(self, rt: &W) {
        let Desk {
            board,
            state: _,
            spent: _,
            calls: _,
            rest: _,
        } = self;
        board.take(rt);
    }
}

//! What lies under the lock: the state that commands find, and what is published.
ghost use Rattle.std.specs.Prelude.{◌≡◌, ◌+◌, ◌<◌, ◌≤◌, ◌^◌, ◌++◌, ◌∷◌, [], true, false, length, IfOk, IfErr, OnErr, None};
ghost use Rattle.yp_journal.specs.History.{MayCome};
ghost use Rattle.yp_published.specs.Histories.{after_op};
ghost use Rattle.yp_log_share.specs.Seats.{with_call, call_of, AreOfLanesFrom, IsEntered};

use crate::finished::Finished;
use crate::seat::{Call, LaneSeat, Receipt};
use left_right::Absorb;
use std::alloc::Global;
use std::marker::Model;
use std::sync::Wait;
use std::sync::ledger::{Book, Share};
use yp_base::memory::{Duplicate, NoMemory};
use yp_journal::command::Command;
use yp_journal::entry::Entry;
use yp_journal::reply::Reply;
use yp_journal::state::{Outcome, State};
use yp_published::board::Board;
use yp_published::history::Naming;
use yp_published::store::{Op, Store};
use yp_schema::schema::Schema;

/// The journal that threads share: what is published of it, and the state after that. It is not `Drop`: end it by
/// `close`.
pub struct Desk<J: Naming>
where
    Store<J>: Absorb<Op<J>, State = ([Entry; 0], bool)>,
{
    pub(crate) board: Board<J>,
    pub(crate) state: State,
    pub(crate) spent: bool,
    /// How many entries there are, of which each seat has a share.
    pub(crate) calls: Book<J>,
    /// What is left of the ledger.
    pub(crate) rest: Share<J>,
}

impl<J: Naming> Model for Desk<J>
where
    Store<J>: Absorb<Op<J>, State = ([Entry; 0], bool)>,
{
    ghost use Rattle.std.specs.Coded.{codes};
    ghost use Rattle.std.specs.Prelude.{◌≡◌, false, length};
    ghost use Rattle.yp_journal.specs.History.{state_of};
    ghost use Rattle.yp_journal.specs.contracts.entry.Entry as entry;
    ghost use Rattle.yp_published.specs.Histories.{Shelf};

    ghost Value = { Shelf };

    ghost coded = { Prim.hlevel (codes, entry.the_row.coded) };

    ghost view = { λ d. record { known = d.board.known; spent = d.spent } };

    ghost invariant = { λ d. (d.spent ≡ false → (d.board.spent ≡ false) × (d.state ≡ state_of J.nodes J.opening d.board.known.entries)) × (d.calls.total ≡ length d.board.known.entries) × (d.state.receivers ≡ J.opening.receivers) × (d.rest.parts ≡ 0) × (d.rest.amount ≡ 0) };
}

/// What is kept of a command that was accepted: its entry, and the call of its lane.
#[derive(Drop)]
struct Noted {
    entry: Entry,
    call: Call,
}

/// Copies of a command and its reply for the journal and for the lane.
fn copied(
    alloc: Global,
    lane: u32,
    index: u32,
    position: u64,
    stamp: u64,
    command: &Command,
    reply: &Reply,
) -> Result<Noted, NoMemory>
    ensures entry { IfOk result (λ noted. noted.entry ≡ record { lane = lane; index = index; stamp = stamp; command = command.now; reply = reply.now }) }
    ensures call { IfOk result (λ noted. noted.call ≡ call_of position noted.entry) }
{
    Ok(Noted {
        entry: Entry {
            lane,
            index,
            stamp,
            command: command.copy(alloc)?,
            reply: reply.copy(alloc)?,
        },
        call: Call {
            index,
            position,
            command: command.copy(alloc)?,
            reply: reply.copy(alloc)?,
        },
    })
}

impl<J: Naming> Desk<J> {
    /// Takes a command of a seat's lane. The seat has one more call then, and what is published one more entry. After
    /// `NoMemory` both are as they were, and the desk may be spent: then it publishes nothing more.
    pub fn submit<W: Wait>(
        &mut self,
        rt: &W,
        alloc: Global,
        schema: &Schema,
        seat: &mut LaneSeat<J>,
        command: &Command,
    ) -> Result<Receipt, NoMemory>
        requires schema { schema.now ≡ J.nodes }
        requires command { MayCome J.nodes J.opening.receivers command.now }
        requires few { length seat.old.calls + 1 < 2 ^ 32 }
        ensures called { IfOk result (λ receipt. seat.new ≡ with_call seat.old receipt.position command.now receipt.reply) }
        ensures position { IfOk result (λ receipt. receipt.position ≡ J.opening.position + 1 + length self.old.known.entries) }
        ensures entry { IfOk result (λ receipt. IsEntered self.old.known self.new.known seat.old command.now receipt.reply) }
        ensures same { OnErr result ((self.new.known ≡ self.old.known) × (seat.new ≡ seat.old)) }
    {
        if self.spent || self.state.position() >= 1 << 62 {
            return Err(NoMemory);
        }
        seat.calls.reserve(1)?;
        let index = seat.calls.len() as u32 + 1;
        let Outcome {
            stamp,
            reply,
            changed: _,
        } = self.state.accept(alloc, schema, command)?;
        self.spent = true;
        let position = self.state.position();
        let Noted { entry, call } = copied(
            alloc, seat.lane, index, position, stamp, command, &reply,
        )?;
        let front = match self.board.add(rt, entry, &seat.front) {
            Some(front) => front,
            None => {
                drop(call);
                return Err(NoMemory);
            }
        };
        self.calls.add(&mut seat.share, 1);
        seat.calls.push_reserved(call);
        seat.front = front;
        self.spent = false;
        Ok(Receipt { position, reply })
    }

    /// Ends what is published. The seats are all that there are, from lane 1 on. After want of memory they come back,
    /// what is published stays as it was, and the desk may be spent.
    pub fn finish<W: Wait>(
        &mut self,
        rt: &W,
        seats: Vec<LaneSeat<J>>,
    ) -> Result<Finished<J>, Vec<LaneSeat<J>>>
        requires every { length seats.items ≡ J.parts }
        requires order { AreOfLanesFrom 1 seats.items }
        ensures finished { IfOk result (λ finished. (finished.seats ≡ seats.items) × (finished.entries ≡ self.old.known.entries) × (self.new.known ≡ after_op self.old.known None)) }
        ensures back { IfErr result (λ back. (back.items ≡ seats.items) × (self.new.known ≡ self.old.known)) }
    {
        if self.spent {
            return Err(seats);
        }
        self.spent = true;
        match self.board.end(rt) {
            Some(whole) => {
                self.spent = false;
                Ok(Finished { seats, whole })
            }
            None => Err(seats),
        }
    }
}

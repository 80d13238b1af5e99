//! The journal as threads share it: they write it one after another, under a lock.
ghost use Rattle.std.specs.Prelude.{◌≡◌, ◌+◌, ◌<◌, ◌^◌, length, IfOk, IfErr, OnErr};
ghost use Rattle.yp_journal.specs.History.{MayCome};
ghost use Rattle.yp_log_share.specs.Seats.{with_call, AreOfLanesFrom};

use crate::desk::Desk;
use crate::finished::Finished;
use crate::seat::{LaneSeat, Receipt};
use left_right::Absorb;
use std::alloc::Global;
use std::sync::{Mutex, Wait};
use yp_base::memory::NoMemory;
use yp_journal::command::Command;
use yp_journal::entry::Entry;
use yp_published::history::Naming;
use yp_published::store::{Op, Store};
use yp_schema::schema::Schema;

/// The journal that threads share, for as long as its desk is lent to it.
pub struct SharedLog<'a, J: Naming>
where
    Store<J>: Absorb<Op<J>, State = ([Entry; 0], bool)>,
{
    desk: Mutex<&'a mut Desk<J>>,
}

impl<'a, J: Naming> SharedLog<'a, J> {
    /// The journal of this desk.
    pub fn over(desk: &'a mut Desk<J>) -> SharedLog<'a, J> {
        SharedLog {
            desk: Mutex::new(desk),
        }
    }

    /// Takes a command of a seat's lane, and tells its position and reply. The seat has one more call then. After
    /// `NoMemory` it has not, what is published stays as it was, and the journal may be spent: it takes no more then.
    pub fn submit<W: Wait>(
        &self,
        rt: &W,
        alloc: Global,
        schema: &Schema,
        seat: &mut LaneSeat<J>,
        command: &Command,
    ) -> Result<Receipt, NoMemory>
        requires schema { schema.now ≡ J.nodes }
        requires command { MayCome J.nodes J.opening.receivers command.now }
        requires few { length seat.old.calls + 1 < 2 ^ 32 }
        ensures called { IfOk result (λ receipt. seat.new ≡ with_call seat.old receipt.position command.now receipt.reply) }
        ensures same { OnErr result (seat.new ≡ seat.old) }
    {
        self.desk.lock(rt).submit(rt, alloc, schema, seat, command)
    }

    /// Ends the journal. The seats are all that it has, from lane 1 on, so no entry follows. Where memory runs out
    /// they come back, and the journal may be spent.
    pub fn finish<W: Wait>(
        &self,
        rt: &W,
        seats: Vec<LaneSeat<J>>,
    ) -> Result<Finished<J>, Vec<LaneSeat<J>>>
        requires every { length seats.items ≡ J.parts }
        requires order { AreOfLanesFrom 1 seats.items }
        ensures finished { IfOk result (λ finished. finished.seats ≡ seats.items) }
        ensures back { IfErr result (λ back. back.items ≡ seats.items) }
    {
        self.desk.lock(rt).finish(rt, seats)
    }

    /// Gives the desk back to its owner.
    pub fn end(self) {
        let SharedLog { desk } = self;
        desk.into_inner();
    }
}

//! A worker offers.
ghost use Rattle.std.specs.Prelude.{◌≡◌, ℕ, List, true, IfOk, OnErr};
ghost use Rattle.yp_schema.specs.declared.schema.SchemaNode.{SchemaNode};
ghost use Rattle.yp_journal.specs.declared.entry.Entry.{Entry as EntryThere};
ghost use Rattle.yp_journal.specs.declared.receiver.ReceiverInfo.{ReceiverInfo as Declared};
ghost use Rattle.yp_journal.specs.declared.reply.Reply.{Reply};
ghost use Rattle.yp_attempt.specs.Tracks.{Attempt};
ghost use Rattle.yp_slot.specs.Steps.{answer_of};
ghost use Rattle.yp_world.specs.World.{World as WorldThere, comes_of};
ghost use Rattle.yp_core.specs.declared.event.Event.TheVariants.{Offer};
ghost use Rattle.yp_core.specs.Events.{happened_of};
ghost use Rattle.yp_core.specs.Worlds.{HasStepped, IsSomeWorld, IsWorldAt};

use crate::event::Happened;
use crate::world::World;
use std::alloc::Global;
use yp_base::memory::NoMemory;
use yp_schema::schema::Schema;
use yp_slot::settling::Settled;
use yp_worker::laws::a_worker_offers_what_its_run_offers;
use yp_worker::offering::Sent;
use yp_world::laws::{
    every_list_of_events_keeps_what_holds, nothing_happens_where_an_event_cannot_be_done,
};

/// What an offer came to.
fn told(settled: Settled, receiver: u32, sub: u32, position: u64) -> Happened
    ensures { (nodes : List SchemaNode) (start : ℕ) (reply : Reply) (a : Attempt) → a.receiver ≡ receiver → a.sub ≡ sub → a.at ≡ position → result ≡ happened_of nodes start reply (comes_of a (answer_of settled)) }
{
    match settled {
        Settled::Took => Happened::Took { receiver, position },
        Settled::Full => Happened::Full {
            receiver,
            sub,
            position,
        },
    }
}

impl World {
    /// The worker of a number offers what it found to the queue of its receiver, and is told the answer.
    pub(crate) fn offer(
        &mut self,
        alloc: Global,
        schema: &Schema,
        worker: u32,
    ) -> Result<Happened, NoMemory>
        requires { IsSomeWorld schema.now self.old }
        ensures stepped { IfOk result (λ happened. (start : ℕ) (receivers : List Declared) (workers : ℕ) (entries : List EntryThere) (world : WorldThere)
            → IsWorldAt schema.now start receivers workers entries world self.old → HasStepped schema.now start receivers workers entries world (Offer worker) happened self.new) }
        ensures spent { OnErr result (self.new.spent ≡ true) }
    {
        a_worker_offers_what_its_run_offers();
        every_list_of_events_keeps_what_holds();
        nothing_happens_where_an_event_cannot_be_done();
        let number = worker as usize;
        if number >= self.seats.len() {
            return Ok(Happened::Nothing);
        }
        self.spent = true;
        let seat = &mut self.seats[number];
        match seat.sent.take() {
            Some(sent) => {
                let Sent {
                    receiver,
                    packet,
                    ..
                } = sent;
                let sub = packet.sub;
                let position = seat.position as u64;
                let settled = self.deliveries[receiver as usize].offer(packet)?;
                seat.settle(alloc, schema, settled)?;
                self.spent = false;
                Ok(told(settled, receiver, sub, position))
            }
            None => {
                self.spent = false;
                Ok(Happened::Nothing)
            }
        }
    }
}

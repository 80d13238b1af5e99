//! What is delivered to a receiver.
ghost use Rattle.std.specs.Prelude.{◌≡◌, ◌≤◌, ℕ, List, slice_get, IfOk, OnOk};
ghost use Rattle.yp_attempt.specs.Attempts.{Notification};
ghost use Rattle.yp_slot.specs.Steps.{answer_of};
ghost use Rattle.yp_schema.specs.declared.schema.SchemaNode.{SchemaNode};
ghost use Rattle.yp_world.specs.World.{Delivery as DeliveryThere, delivery_after, queue_answer};
ghost use Rattle.yp_core.specs.Deliveries.{delivered, nothing_delivered, packed, took_oldest};

use std::alloc::Global;
use std::marker::Model;
use yp_base::memory::{Duplicate, NoMemory};
use yp_queue::local::LocalQueue;
use yp_queue::packet::{Offered, Packet};
use yp_slot::settling::Settled;

/// The queue of a receiver, the packets that the receiver took, the oldest first, and what the queue answered
/// to each offer. Contracts see a record of these.
#[derive(Drop)]
pub struct Delivery {
    queue: LocalQueue,
    taken: Vec<Packet>,
    answers: Vec<Settled>,
}

impl Model for Delivery {
    ghost use Rattle.std.specs.Prelude.{map};
    ghost use Rattle.yp_slot.specs.Steps.{answer_of};
    ghost use Rattle.yp_core.specs.Deliveries.{DeliveryState};

    ghost Value = { DeliveryState };

    ghost view = { λ d. record { queue = d.queue; taken = d.taken.items; answers = map answer_of d.answers.items } };
}

impl Delivery {
    /// Nothing was offered yet, and so many packets may stand in the queue.
    pub fn open(alloc: Global, places: u32) -> Result<Delivery, NoMemory>
        requires { 1 ≤ places }
        ensures { IfOk result (λ delivery. delivery ≡ nothing_delivered places) }
    {
        Ok(Delivery {
            queue: LocalQueue::with_places(alloc, places)?,
            taken: Vec::new(alloc),
            answers: Vec::new(alloc),
        })
    }

    /// The packets that the receiver took, the oldest first.
    pub fn taken(&self) -> &[Packet]
        ensures { result.now ≡ self.now.taken }
    {
        self.taken.as_slice()
    }

    /// Offers a packet to the queue, and tells its answer.
    pub fn offer(&mut self, packet: Packet) -> Result<Settled, NoMemory>
        ensures answer { IfOk result (λ settled. (nodes : List SchemaNode) (start : ℕ) (delivery : DeliveryThere) → self.old ≡ delivered nodes start delivery → answer_of settled ≡ queue_answer delivery) }
        ensures state { OnOk result ((nodes : List SchemaNode) (start : ℕ) (delivery : DeliveryThere) (notification : Notification) → self.old ≡ delivered nodes start delivery → packet ≡ packed nodes start notification
            → self.new ≡ delivered nodes start (delivery_after (queue_answer delivery) notification delivery)) }
    {
        // Room comes first, so that nothing is lost past the answer of the queue.
        self.answers.reserve(1)?;
        let settled = match self.queue.offer(packet) {
            Offered::Took => Settled::Took,
            Offered::Full(_) => Settled::Full,
        };
        self.answers.push(settled)?;
        Ok(settled)
    }

    /// The receiver takes the oldest packet of its queue. `None` comes exactly where there is none.
    pub fn take(&mut self, alloc: Global) -> Result<Option<Packet>, NoMemory>
        ensures oldest { IfOk result (λ packet. packet ≡ slice_get self.old.queue.packets 0) }
        ensures state { OnOk result (self.new ≡ took_oldest self.old) }
    {
        self.taken.reserve(1)?;
        match self.queue.take() {
            Some(packet) => {
                self.taken.push(packet.copy(alloc)?)?;
                Ok(Some(packet))
            }
            None => Ok(None),
        }
    }
}

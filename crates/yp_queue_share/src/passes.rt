//! The two sides of a queue between two threads.
ghost use Rattle.std.specs.Prelude.{◌≡◌, ◌≤◌, IfOk};
ghost use Rattle.yp_queue_share.specs.Sides.{AreFresh, Offers, Takes};

use crate::line::{Line, Roles, Sent, SidePass, Taken};
use std::alloc::Global;
use std::marker::Model;
use std::sync::{Arc, Wait};
use yp_base::memory::NoMemory;
use yp_queue::packet::{Offered, Packet};

/// The sender's side. Contracts see the packets that were accepted, how many offers were refused, and how many places the
/// queue has.
#[derive(Drop)]
pub struct SendPass {
    pub(crate) line: Arc<Line, Global>,
    pub(crate) pass: SidePass,
    pub(crate) refused: u64,
}

impl Model for SendPass {
    ghost use Rattle.std.specs.Coded.{codes};
    ghost use Rattle.std.specs.Prelude.{◌≡◌, true, false, []};
    ghost use Rattle.atomic_table.specs.Seated.{table_id_coded};
    ghost use Rattle.crossbeam_queue.specs.Passes.{view as knows, IsPassOf, ruled_capacity};
    ghost use Rattle.yp_queue.specs.contracts.packet.Packet as packet;
    ghost use Rattle.yp_queue_share.specs.Sides.{Sending, side};

    ghost Value = { Sending };

    ghost coded = { Prim.hlevel (codes, packet.the_row.coded, table_id_coded) };

    ghost view = { λ p. record { queue = p.pass.table_id; places = ruled_capacity p.line.value; sent = (knows p.pass).sent; refused = p.refused } };

    ghost invariant = { λ p. IsPassOf p.line.value p.pass × (knows p.pass ≡ side true false (knows p.pass).sent []) };
}

/// The taker's side. Contracts see the packets that it gave.
#[derive(Drop)]
pub struct TakePass {
    pub(crate) line: Arc<Line, Global>,
    pub(crate) pass: SidePass,
}

impl Model for TakePass {
    ghost use Rattle.std.specs.Coded.{codes};
    ghost use Rattle.std.specs.Prelude.{◌≡◌, true, false, []};
    ghost use Rattle.atomic_table.specs.Seated.{table_id_coded};
    ghost use Rattle.crossbeam_queue.specs.Passes.{view as knows, IsPassOf};
    ghost use Rattle.yp_queue.specs.contracts.packet.Packet as packet;
    ghost use Rattle.yp_queue_share.specs.Sides.{Taking, side};

    ghost Value = { Taking };

    ghost coded = { Prim.hlevel (codes, packet.the_row.coded, table_id_coded) };

    ghost view = { λ p. record { queue = p.pass.table_id; taken = (knows p.pass).taken } };

    ghost invariant = { λ p. IsPassOf p.line.value p.pass × (knows p.pass ≡ side false true [] (knows p.pass).taken) };
}

/// A queue for so many packets: its two sides.
pub fn shared(alloc: Global, places: u32) -> Result<(SendPass, TakePass), NoMemory>
    requires { 1 ≤ places }
    ensures { IfOk result (λ sides. AreFresh places sides.0 sides.1) }
{
    let (queue, mut sender) = Line::ruled(alloc, places as usize)?;
    let taker = queue.another::<Roles>(&mut sender);
    let line = Arc::new(alloc, queue)?;
    let other = line.clone()?;
    let send = SendPass {
        line,
        pass: sender,
        refused: 0,
    };
    let take = TakePass {
        line: other,
        pass: taker,
    };
    Ok((send, take))
}

impl SendPass {
    /// How many packets the queue holds at most.
    pub fn places(&self) -> usize
        ensures { result ≡ self.now.places }
    {
        self.line.capacity()
    }

    /// Accepts a packet as the newest, unless the queue is full: then it comes back, and one more offer was refused. It
    /// takes no memory.
    pub fn offer<R: Wait>(&mut self, rt: &R, packet: Packet) -> Offered
        ensures one { (self.new.queue ≡ self.old.queue) × (self.new.places ≡ self.old.places) }
        ensures offered { Offers self.old packet result self.new }
    {
        match self.line.push_as::<Sent, R>(rt, &mut self.pass, packet) {
            Ok(()) => Offered::Took,
            Err(packet) => {
                self.refused = self.refused.saturating_add(1);
                Offered::Full(packet)
            }
        }
    }
}

impl TakePass {
    /// Takes the oldest packet; `None` where the queue is empty at one moment of the call, which no clause says. It takes no
    /// memory.
    pub fn take<R: Wait>(&mut self, rt: &R) -> Option<Packet>
        ensures one { self.new.queue ≡ self.old.queue }
        ensures taken { Takes self.old result self.new }
    {
        self.line.pop_as::<Taken, R>(rt, &mut self.pass)
    }
}

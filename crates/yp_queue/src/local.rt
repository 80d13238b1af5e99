//! Queues of one thread.
ghost use Rattle.std.specs.Prelude.{◌≡◌, ◌≤◌, drop, length, slice_get, IfOk};
ghost use Rattle.yp_queue.specs.Queues.{no_packets, offer_answer, offered, with_packets};

use crate::packet::{Offered, Packet};
use circular_buffer::HeapCircularBuffer;
use std::alloc::Global;
use std::marker::Model;
use yp_base::memory::NoMemory;

/// Packets that were accepted and not taken, the oldest first, and how many there may be at a time.
#[derive(Drop)]
pub struct LocalQueue {
    ring: HeapCircularBuffer<Packet>,
}

impl Model for LocalQueue {
    ghost use Rattle.yp_queue.specs.Queues.{QueueState};

    ghost Value = { QueueState };

    ghost view = { λ q. record { packets = q.ring.items; places = q.ring.capacity } };
}

impl LocalQueue {
    /// An empty queue for so many packets.
    pub fn with_places(alloc: Global, places: u32) -> Result<LocalQueue, NoMemory>
        requires { 1 ≤ places }
        ensures { IfOk result (λ queue. queue ≡ no_packets places) }
    {
        Ok(LocalQueue {
            ring: HeapCircularBuffer::with_capacity(alloc, places as usize)?,
        })
    }

    /// Accepts a packet as the newest, unless as many stand there as may. Where it is full it stays as it is,
    /// and the packet comes back.
    pub fn offer(&mut self, packet: Packet) -> Offered
        ensures answer { result ≡ offer_answer self.old packet }
        ensures state { self.new ≡ offered self.old packet }
    {
        match self.ring.try_push_back(packet) {
            Ok(()) => Offered::Took,
            Err(packet) => Offered::Full(packet),
        }
    }

    /// Takes the oldest packet. `None` comes exactly where there is none.
    pub fn take(&mut self) -> Option<Packet>
        ensures oldest { result ≡ slice_get self.old.packets 0 }
        ensures rest { self.new ≡ with_packets self.old (drop 1 self.old.packets) }
    {
        self.ring.pop_front()
    }
}

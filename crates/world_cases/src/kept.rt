//! What a receiver has yet to take.
ghost use Rattle.std.specs.Prelude.{◌≡◌, ◌++◌, ◌∷◌, [], drop, slice_get, OnOk};

use std::alloc::Global;
use std::collections::VecDeque;
use std::marker::Model;
use yp_base::memory::NoMemory;
use yp_queue::packet::Packet;

/// The packets of companions that a receiver's queue accepted and that the receiver didn't take yet. Contracts see
/// their list, the oldest first.
#[derive(Drop)]
pub struct Kept {
    packets: VecDeque<Packet>,
}

impl Model for Kept {
    ghost use Rattle.std.specs.Prelude.{List};
    ghost use Rattle.yp_queue.specs.declared.packet.Packet.{Packet};

    ghost Value = { List Packet };

    ghost view = { λ kept. kept.packets.items };
}

impl Kept {
    /// No packet yet.
    pub fn none(alloc: Global) -> Kept
        ensures { result ≡ [] }
    {
        Kept {
            packets: VecDeque::new(alloc),
        }
    }

    /// Keeps a packet as the newest.
    pub fn keep(&mut self, packet: Packet) -> Result<(), NoMemory>
        ensures { OnOk result (self.new ≡ self.old ++ packet ∷ []) }
    {
        self.packets.push_back(packet)?;
        Ok(())
    }

    /// Gives the oldest packet, and keeps it no longer. `None` comes exactly where there is none.
    pub fn take(&mut self) -> Option<Packet>
        ensures oldest { result ≡ slice_get self.old 0 }
        ensures rest { self.new ≡ drop 1 self.old }
    {
        self.packets.pop_front()
    }
}

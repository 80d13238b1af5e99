//! What stands in queues.
ghost use Rattle.std.specs.Prelude.{◌≡◌, IfOk};

use std::alloc::Global;
use yp_base::memory::{Duplicate, NoMemory};
use yp_base::txt::Txt;

/// What kind of notification a packet has.
#[derive(Debug, Clone, Copy, PartialEq, Eq, Drop)]
pub enum PacketKind {
    /// All that is selected (`push-update`, RFC 8641 section 3.7).
    Full,
    /// What changed (`push-change-update`).
    Changes,
    /// What changed, marked as not all (`incomplete-update`, section 3.11.1).
    Incomplete,
    /// A change of the subscription's state (RFC 8639 section 2.7).
    Notice,
}

/// A notification for a receiver: the id of its subscription, the journal position at which it was made, its
/// kind, and its line.
#[derive(Drop)]
pub struct Packet {
    pub sub: u32,
    pub position: u64,
    pub kind: PacketKind,
    pub line: Txt,
}

impl Duplicate for Packet {
    fn copy(&self, alloc: Global) -> Result<Packet, NoMemory> {
        Ok(Packet {
            sub: self.sub,
            position: self.position,
            kind: self.kind,
            line: self.line.copy(alloc)?,
        })
    }
}

/// What became of an offer.
#[derive(Drop)]
pub enum Offered {
    /// The packet stands in the queue.
    Took,
    /// The queue is full, and this is the packet.
    Full(Packet),
}

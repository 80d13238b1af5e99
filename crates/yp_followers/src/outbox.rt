//! What a worker has for one of its receivers.
ghost use Rattle.std.specs.Prelude.{IfOk};
ghost use Rattle.yp_followers.specs.Followers.{IsOffered, IsSameOutbox};

use std::alloc::Global;
use std::sync::Wait;
use yp_base::memory::{Duplicate, NoMemory};
use yp_offer_log::logged::Logged;
use yp_queue::packet::{Offered, Packet};
use yp_queue_share::passes::SendPass;
use yp_slot::settling::Settled;

/// What a worker has for one of its receivers: the receiver's number, the side of its queue that sends, and what is kept of
/// all offers to it.
#[derive(Drop)]
pub struct Outbox {
    pub receiver: u32,
    pub send: SendPass,
    pub log: Vec<Logged>,
}

impl Outbox {
    /// Offers a packet to the queue at a position, and keeps what came of it.
    pub fn offer<R: Wait>(
        &mut self,
        rt: &R,
        alloc: Global,
        packet: Packet,
        at: u64,
    ) -> Result<Settled, NoMemory>
        ensures offered { IfOk result (λ settled. IsOffered self.old packet at settled self.new) }
        ensures same { IsSameOutbox self.old self.new }
    {
        let Packet {
            sub,
            position,
            kind,
            line,
        } = packet;
        // The queue and the log share one text. Room in the log comes first, so that nothing is lost past the answer of the
        // queue.
        let packet = Packet {
            sub,
            position,
            kind,
            line: line.copy(alloc)?,
        };
        self.log.reserve(1)?;
        match self.send.offer(rt, packet) {
            Offered::Took => {
                self.log.push_reserved(Logged::Line { kind, line });
                Ok(Settled::Took)
            }
            Offered::Full(_) => {
                self.log.push_reserved(Logged::FullAt { sub, position: at });
                Ok(Settled::Full)
            }
        }
    }
}

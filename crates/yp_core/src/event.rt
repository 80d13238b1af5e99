//! Events, and what they come to.
use yp_journal::command::Command;
use yp_journal::reply::Reply;
use yp_queue::packet::Packet;

/// An event of the world. Workers and receivers have numbers, from 0 on.
#[derive(Drop)]
pub enum Event {
    /// The entry of a command is appended to the journal.
    Append(Command),
    /// The worker of this number absorbs the next entry.
    Absorb(u32),
    /// The worker of this number offers a packet to the queue of its receiver.
    Offer(u32),
    /// The receiver of this number takes the oldest packet of its queue.
    Take(u32),
}

/// What an event came to.
#[derive(Drop)]
pub enum Happened {
    /// The entry was appended, with this reply to its command.
    Appended(Reply),
    /// The worker came to this position of the journal, from 1 on.
    Absorbed(u64),
    /// The queue of a receiver accepted what was offered at a position.
    Took {
        receiver: u32,
        position: u64,
    },
    /// The queue of a receiver was full when something of a subscription was offered at a position.
    Full {
        receiver: u32,
        sub: u32,
        position: u64,
    },
    /// The receiver took this packet.
    Taken(Packet),
    /// The event can't be done: a worker that is none, that absorbed the whole journal or still has something
    /// to offer, or that has nothing to offer; a receiver that is none, or whose queue is empty.
    Nothing,
}

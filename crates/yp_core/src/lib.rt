//! The world as it runs: a journal, the workers that follow it, and what is delivered to each receiver.
//!
//! `world::World` goes on by events, which are the atomic steps of a running publisher: an entry is appended to
//! the journal, a worker absorbs the next entry, a worker offers to the queue of a receiver, or a receiver
//! takes. Contracts say of which entries and events it is the world (`specs/Worlds.antt`), by the definition of
//! `yp_world`, and what each event comes to (`specs/Events.antt`). So each receiver is served after every list
//! of events (`serves` of `World::step`), by the law of `yp_promise`. It follows RFC 8639 sections 2.4 and 2.7,
//! and RFC 8641 sections 3.1, 3.3 and 3.11.
#![tactic(auto)]

mod absorbing;
mod appending;
mod delivery;
pub mod event;
mod offering;
mod opening;
mod seat;
mod taking;
pub mod world;

//! The queue of a receiver: notifications that were made for it and that it didn't take yet.
//!
//! Contracts see a queue as the list of its packets, the oldest first, with its capacity
//! (`specs/Queues.antt`). An offer is accepted while there is room and else given back, and taking gives the
//! oldest packet. `local::LocalQueue` is of one thread. Neither call takes memory.
#![tactic(auto)]

pub mod local;
pub mod packet;
#[cfg(test)]
mod tests;

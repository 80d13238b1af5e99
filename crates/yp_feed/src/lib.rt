//! The machine of one feed: a live subscription for one of its receivers. It says what the feed owes its
//! receiver, what it offers next, and what becomes of it when the offer is taken or meets a full queue.
//!
//! Contracts see a feed as a record of plain values, and each call as one step of `specs/Machine.antt`. No
//! call takes memory, reads a row or makes a line: the number of changed places and of edits is handed in. A
//! feed is told what happens (`control`), is asked whether its changes are to be frozen (`freeze_now`) and
//! what it offers (`want_offer`), and learns the answer (`took`, `full`). It follows RFC 8641 sections 3.1,
//! 3.3 and 3.11, and RFC 8639 sections 2.4 and 2.7. `laws` says what follows.
#![tactic(auto)]

pub mod feed;
pub mod item;
pub mod laws;
mod owed;
mod trigger;

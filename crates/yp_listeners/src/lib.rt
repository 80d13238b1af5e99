//! Receivers that take each packet at once, and a worker that serves them, entry by entry.
//!
//! What a script does outside of its lanes is done on one thread: a worker takes an entry (`serving::serve_entry`), and each
//! of its receivers takes all that it offers, so that no queue is ever full. A receiver is a `listener`: what is kept of the
//! offers to it, and what it holds by the lines of all that it took.
#![tactic(auto)]

pub mod laws;
pub mod listener;
pub mod serving;

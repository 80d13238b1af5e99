//! The journal that threads share: they write it one after another, under a lock, and read it without one.
//!
//! A desk has the state that commands find, and what is published (`desk`). It is lent to the lock (`log`). A lane writes by
//! its seat, which keeps the calls that were accepted (`seat`). At the end the calls of all seats are those of the journal:
//! each once, in order, and no others (`settle`, `close`).
#![tactic(auto)]

pub mod close;
pub mod desk;
pub mod finished;
pub mod log;
pub mod opening;
pub mod seat;
pub mod settle;

//! Workers that follow a journal outside of its lanes, on one thread, each with the receivers that it serves.
//!
//! Receivers are dealt out by number: of so many workers each has those whose number leaves its own as the remainder. A worker
//! with what it has for each of these is a `crew`. Each entry of the journal is served by one crew after another (`crews`):
//! receivers take at once all that is offered to them, so that nobody waits.
#![tactic(auto)]

pub mod crew;
pub mod crews;

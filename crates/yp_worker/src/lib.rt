//! One worker: it follows a journal entry by entry, and offers its receivers what their feeds have to tell.
//!
//! A worker keeps the state of the journal and the roster of the feeds of its receivers. It is told of each
//! entry, is asked for its next offer until it has none, and learns what the receiver's queue answered to each.
//! Contracts say for which entries and answers it stands (`specs/Workers.antt`), by the definition of attempts
//! of `yp_attempt`, and which packet an offer is (`specs/Packets.antt`). It follows RFC 8641 sections 3.1, 3.3,
//! 3.7 and 3.11, and RFC 8639 sections 2.4 and 2.7.
#![tactic(auto)]

pub mod contents;
mod keeping;
pub mod laws;
pub mod offering;
pub mod opening;
pub mod rules;
pub mod saying;
pub mod settling;
pub mod taking;
pub mod worker;
mod writing;

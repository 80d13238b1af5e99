//! The replay of a saved stream: the trees that a receiver makes of the bytes of its lines alone.
//!
//! `replay::replay_text` reads a schema and the notification lines of one receiver (RFC 8641 section 3.7),
//! and gives the text of the trees that the receiver holds after them, or the first line with a fault.
//! What that text is stands in `specs/Replay.antt`: it is made of the stream that `yp_script` finds in the
//! bytes, and of what a receiver of `yp_receiver` holds after its lines.
#![tactic(auto)]

pub mod fault;
mod hearing;
pub mod laws;
pub mod replay;
mod trees;

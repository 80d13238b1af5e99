//! Lines of notifications, read: what a receiver is told by a line.
//!
//! `line::read_line` reads a line, or answers why it is no notification that is served. Contracts see a
//! line as its bytes, and say what it tells by a grammar of its JSON that knows no writer
//! (`specs/Grammar.antt`): the envelope of RFC 8040 section 6.4 (`specs/Envelope.antt`), and in it the
//! updates of RFC 8641 section 3.7, with edits as in RFC 8072 section 2, and the changes of state of
//! RFC 8639 section 2.7 (`specs/Bodies.antt`), in the JSON of RFC 7951. Members may stand in any order.
//! `specs/Sound.antt` has what holds of each notice that is read.
#![tactic(auto)]

mod body;
mod data;
mod edits;
mod envelope;
pub mod fault;
pub mod line;
mod members;
mod places;

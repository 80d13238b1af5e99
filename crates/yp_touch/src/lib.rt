//! The records of steps, and of windows of steps: what changed of what a reader selects (RFC 8641 sections
//! 3.7 and 3.9).
//!
//! The record of two selections is the edits by which one becomes the other (`change_record` of `yp_changes`),
//! and that of a window (`window_record`) the edits of the topmost of all places that a step of it touched.
//! `Touched` keeps these places from one step to the next, and makes their record; contracts see it as a
//! list of `Root` (`specs/Absorbed.antt`). `record_of` makes the record of one step without a filter. Each
//! looks only at places that a changed row can move. `laws` says what follows: a record leads from the
//! first selection to the last, is empty only where nothing was touched, names nothing that may not be
//! read, and can be sent.
#![tactic(auto)]

pub mod changes;
pub mod laws;
mod looking;
mod placing;
mod recording;
pub mod root;
pub mod touched;
mod unfiltered;

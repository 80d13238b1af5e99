//! Instants and ticks: the start of a run, the anchors of periodic subscriptions, the event times of
//! notifications, and when a periodic subscription is due.
//!
//! A tick is a hundredth of a second after the start. Instants, days and times of day are jiff's.
//! Contracts see an instant as its nanoseconds from 1970-01-01T00:00:00Z, a start as its seconds from
//! there, and an anchor as a number of ticks, which is negative before the start.
//! Texts follow RFC 3339; anchors and periods RFC 8641 section 4.2; event times RFC 5277.
#![tactic(auto)]

mod clock;
pub mod due;
mod form;
pub mod instant;
pub mod laws;
pub mod start;
pub mod writing;

//! A receiver that makes its trees from the bytes of lines alone.
//!
//! `receiver::Receiver` takes lines, one after another, and holds the rows of each subscription that it
//! had an update of (RFC 8641 section 3.7). Contracts see what it holds as a list: ids, each with its
//! rows, in the order of ids (`specs/Held.antt`). What a line tells, or its fault, is `line_heard` of
//! `yp_decode`. `holdings::Holdings` hears notices instead of lines, and `holding::Holding` has the rows
//! of one subscription, as a list, in little room or as a tree (`specs/Holdings.antt`). A change update is
//! heard whole or not at all (`changing`).
#![tactic(auto)]

mod changing;
mod compact;
mod finder;
pub mod holding;
pub mod holdings;
pub mod laws;
pub mod receiver;

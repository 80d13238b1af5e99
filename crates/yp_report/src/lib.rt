//! The report of a run, as a value and as a text: the replies by position, and what is told of each receiver.
//!
//! `specs/Report.antt` says what is told of a receiver: what it took, where its queue was full, and what it holds by the
//! lines of what it took (RFC 8072 section 2.7, RFC 8639 section 2.4, RFC 8641 section 4.4). `replies` and `trees` write the
//! lines, and `texts` joins them. By `laws` the replies and logs that a run keeps have the lines of its report.
#![tactic(auto)]

pub mod laws;
pub mod replied;
pub mod replies;
pub mod texts;
pub mod trees;

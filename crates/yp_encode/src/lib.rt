//! Notifications as lines: what a subscriber is sent, one JSON text each.
//!
//! Contracts see a line as a text, which is the compact text of the notification's JSON
//! (`specs/Lines.antt`): members in byte order, no white space. It follows RFC 8641 section 3.7,
//! RFC 8639 section 2.7, RFC 8072 section 2 and RFC 8040 section 6.4, in the JSON of RFC 7951.
#![tactic(auto)]

pub mod contents;
pub mod line;

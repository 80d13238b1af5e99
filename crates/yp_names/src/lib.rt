//! The names of modules and nodes, and the paths of names of a schema's parts (RFC 7950 section 6.2, RFC 7951
//! section 4).
//!
//! Contracts see a text as its bytes, and names as the list of them. Which texts are names, and which names a
//! path has, stands in `specs/Names.antt`.
#![tactic(auto)]

pub mod names;

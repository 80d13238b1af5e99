//! What a receiver takes is what its lines tell.
//!
//! Nothing runs here. Contracts see the notifications that a receiver took as the lines of them
//! (`specs/Hearing.antt`), also where writers, workers and receivers interleave (`specs/Interleaving.antt`),
//! and which edits are heard again (`specs/Windows.antt`). `laws` says that each notification of a legal
//! journal's run is told by its line, so that the fold of the bytes of the lines leaves what the fold of the
//! notifications leaves (RFC 8641 section 3.7, RFC 8259 section 8.1).
#![tactic(auto)]

pub mod laws;

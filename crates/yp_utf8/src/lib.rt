//! JSON in UTF-8: the strings of JSON that is read of a UTF-8 text are UTF-8.
//!
//! Nothing runs here. Contracts see which JSON has UTF-8 strings (`specs/Utf8.antt`). It follows RFC 8259
//! sections 7 and 8.1. `laws` says that what is read of a text has them, also by escapes.
#![tactic(auto)]

pub mod laws;

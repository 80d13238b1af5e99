//! Texts of rows and of commands in UTF-8, from the bytes of a script to its datastore.
//!
//! Nothing runs here. Contracts see which commands have UTF-8 texts (`specs/Commands.antt`). It follows RFC
//! 8259 section 8.1, by which a JSON text is UTF-8, and RFC 8040 section 3.5.3 for the keys of targets.
//! `laws` says that what is read has UTF-8 texts, and that patches and journals keep them.
#![tactic(auto)]

pub mod laws;

//! The types, values, paths, rows and notices that every crate of the publisher speaks of.
//!
//! Contracts see each list type as the list of its items, a text as the list of its bytes, a counter of
//! steps as a number, and all else as plain fields and variants.
//! Paths are ordered segment by segment, a prefix first (`specs/Order.antt`).
//! Texts, keys and paths are shared from where they are made: a copy of one, and so of a row, takes no memory.
//! A list is kept by one value, until it goes through `share`: from then on its copies share it.
//! Types follow RFC 7950 section 9; paths RFC 8040 section 3.5.3, those of access rules RFC 8341 section 3.3.5;
//! notices RFC 8641 and RFC 8639.
#![tactic(auto)]

pub mod atom;
mod held;
pub mod keys;
pub mod laws;
pub mod leaf_type;
pub mod memory;
pub mod notice;
pub mod path;
pub mod row;
pub mod rule_path;
pub mod series;
pub mod steps;
pub mod txt;

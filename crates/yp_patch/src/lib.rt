//! What a YANG Patch is (RFC 8072), and how it is read from JSON (section 2.5).
//!
//! `reading::read_patch` reads a patch. Contracts see it as its id and the list of its edits, and the JSON
//! that an edit holds as its data (`specs/Shapes.antt`). What is wrong with other JSON is a `PatchError`,
//! which names the edit and the member.
#![tactic(auto)]

pub mod fault;
mod members;
pub mod patch;
pub mod reading;

//! Patches applied to a datastore (RFC 8072, YANG Patch), all of their edits or none.
//!
//! `applying::apply` applies the edits of a patch in order. Contracts see what a patch does as a function on
//! lists of rows (`specs/Patches.antt`), and how it is tried before it is made as a draft over a tree
//! (`specs/Drafts.antt`, `specs/Bases.antt`).
#![tactic(auto)]

pub mod applying;
mod base;
mod draft;
mod edit;
pub mod fault;
mod halt;
pub mod laws;
mod target;
mod trial;

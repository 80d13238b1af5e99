//! What changed between two lists of rows, and how a tree follows it.
//!
//! `difference::differing` gives the rows that differ (`specs/Changes.antt`). `commit::commit` makes such
//! changes in a tree, all or none; `former::former` has the tree before them, and `former::follow` has
//! another tree follow them. What a step changed of a selection is told by its record, and what a window of
//! steps changed by that of the window (`specs/Records.antt`, RFC 8641 sections 3.7 and 3.9).
#![tactic(auto)]

pub mod changed;
pub mod commit;
pub mod difference;
pub mod former;
pub mod laws;
mod renewal;

//! Paths as texts: the targets of edits (RFC 8040 section 3.5.3, RFC 8072) and the paths of access
//! control rules (RFC 8341 section 3.5.2).
//!
//! Contracts see a text as its bytes, a path as the list of its segments, and an error as its fault.
//! `specs/Targets.antt` says which path a target is and which text a path has, `specs/RulePaths.antt` which
//! path a rule's text is, `specs/Escapes.antt` how keys are escaped (RFC 3986 section 2.1).
#![tactic(auto)]

mod cut;
mod escape;
pub mod fault;
pub mod laws;
mod mark;
mod name;
mod predicate;
pub mod rule;
pub mod target;
mod texts;

//! The causes of a line's faults, in words.
//!
//! A `cause::Cause` says in which way a line is wrong (`cause::Wrong`) and which name or value of it that is
//! about. `lines` makes causes of lines as a whole, `patches::patch_cause` and `policies::policy_cause` of what
//! the readers of patches and policies tell, `paths::path_text` words of what the reader of paths tells, and
//! `values::value_text` of what a node takes.
//! Words are for people: no contract speaks of them.
#![tactic(auto)]

pub mod cause;
pub mod excerpt;
pub mod lines;
pub mod patches;
pub mod paths;
pub mod policies;
pub mod values;

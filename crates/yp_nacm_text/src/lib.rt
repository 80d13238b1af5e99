//! Policies of access control as JSON (RFC 8341 section 3.5).
//!
//! `read_policy` gives the policy of `yp_nacm` that JSON is, or its first fault with its place. Contracts
//! see JSON as its data and a policy as plain fields and lists. `specs/Policies.antt` says which policy
//! JSON is and which fault comes first, `specs/Rules.antt` the same of one rule, `specs/Members.antt`
//! which members stand where.
#![tactic(auto)]

pub mod fault;
mod group;
pub mod laws;
mod list;
mod members;
mod names;
mod operations;
pub mod policy;
mod rule;
mod switches;

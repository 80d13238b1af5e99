//! The compiled schema: the nodes of YANG modules, numbered in pre-order (RFC 7950).
//!
//! Contracts see a `Schema` as the list of its nodes, whose places are the nodes' numbers
//! (`specs/Nodes.antt`). A member form is `module:name` at the top and where the module changes, and
//! `name` elsewhere (RFC 7951 section 4). Which parts are a schema, and which nodes they give, stands in
//! `specs/Compiled.antt`, and `Schema::read` answers the first fault in the order of `specs/Rounds.antt`.
#![tactic(auto)]

pub mod fault;
mod index;
mod listing;
mod numbers;
pub mod schema;
mod stated;

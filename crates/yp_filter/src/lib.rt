//! Subtree filters (RFC 6241 section 6) as JSON, read against a schema.
//!
//! A filter is an object of members in member form. `Filter::read` gives what it says, with the numbers of
//! schema nodes in the place of names, or its first fault. Contracts see a filter by `filter_view`, as plain
//! data (`specs/Filters.antt`), and an error as its fault. `specs/Reading.antt` says which filter JSON is and
//! which fault comes first, `specs/Fits.antt` when a filter is of a schema.
#![tactic(auto)]

mod comparing;
pub mod fault;
pub mod filter;
pub mod laws;
mod naming;
mod reading;
pub mod same;
mod sizes;

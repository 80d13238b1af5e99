//! JSON texts without white space, written part by part.
//!
//! Each call appends to a text. Contracts say what it appends as the compact text of JSON data, which
//! is never made: `strings` has JSON strings and members, and `values` the values of a schema's types
//! (RFC 7951 section 6, RFC 8259 section 7).
#![tactic(auto)]

pub mod strings;
pub mod values;

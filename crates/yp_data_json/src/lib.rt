//! The data of a schema in JSON, both ways (RFC 7951).
//!
//! `at_path::read_rows` reads the rows of a datastore, or of what stands at a path. Contracts say
//! what is read by a second function on the JSON value's data (`specs/Reading.antt`,
//! `specs/AtPath.antt`), since the first fault goes by the order of the visit. `holding` has the law
//! that what is read needs no order: it is data of the schema, and its rows are those that the data
//! hold (`specs/Holding.antt`). `writing::push_rows` appends rows as such JSON to a text
//! (`specs/Writing.antt`), and what is written of all rows at a place is read there again.
#![tactic(auto)]

pub mod at_path;
mod entry_keys;
pub mod fault;
pub mod holding;
mod keys;
mod reading;
mod runs;
pub mod writing;

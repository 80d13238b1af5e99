//! The rows of a datastore, found by path in a number of steps that grows with the logarithm of their
//! number.
//!
//! Contracts see a `Tree` as the list of its rows, in the order of their paths and with no path twice.
//! It needn't hold the rows above a row. `get`, `next` and `first_within` read it and count one visit
//! each, `within` and `rows_within` count one for each row that they give and one more, and there is no
//! other way to read the rows that stay in it; `put`, `replace`, `cut`, `remove` and `renew` change it,
//! `of_rows` makes one of many rows, and `into_rows` gives its rows away. What makes a tree, changes it,
//! gives it away or copies it, and `len`, count none: visits bound what is read for an update, and not what
//! a patch costs. A `Rising` has rows while they are put, and appends those that come in the order of their
//! paths; what else is asked of it is found by path. A `Gathering` has rows while they are put entry by
//! entry, and looks up each entry once where they come in no order.
#![tactic(auto)]

pub mod gathering;
pub mod rising;
mod scattered;
mod sharing;
pub mod tree;

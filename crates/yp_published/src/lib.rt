//! The history of a journal that threads share: one writer publishes it, and readers read it without a lock.
//!
//! The history lives in proofs, and its length in memory (`history`). A front is a beginning of it that someone saw, and is
//! legal from the state that the journal goes on from. What is published are the entries of a front (`store`), in the two
//! copies of `left_right` (`published`): a board adds to it (`board`), and readers catch up with it (`reader`). What any
//! reader got begins the whole history, and is it where the reader saw its end.
#![tactic(auto)]

pub mod board;
pub mod history;
pub mod looks;
pub mod published;
pub mod reader;
pub mod store;

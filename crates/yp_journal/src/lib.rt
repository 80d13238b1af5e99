//! The state of the journal: what each command finds, what it leaves, and what is replied.
//!
//! `state::State` is the fold of the commands that it accepted. Contracts see it as a record of lists
//! and numbers, and each command as a function of that record (`specs/History.antt`, which also says
//! which journals are legal). Commands, replies and entries are plain variants and fields, whose copies
//! are equal. A refused command changes the position alone; where memory runs out nothing is changed.
//! Patches follow RFC 8072, policies of access control RFC 8341, subscriptions RFC 8639 and RFC 8641,
//! by the registry of `yp_registry`.
#![tactic(auto)]

mod calls;
pub mod command;
pub mod entry;
pub mod laws;
pub mod receiver;
pub mod reply;
pub mod state;

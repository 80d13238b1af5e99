//! Commands of a script: what one command in a line's JSON asks for.
//!
//! `command::request_named` and `command::request_in` find which command it is, and `command::read_command`
//! reads it by the schema, the start and the receivers so far, or answers the least of its faults
//! (`fault::Flaw`), with its cause in words (`Cause` of `yp_cause`). Contracts see receivers as the list of them in
//! declared order, and a flaw as its kind. Which command it is, and what it says, stands in
//! `specs/Requests.antt`, for a subscription in `specs/Asks.antt`, for a further call about one in
//! `specs/Calls.antt` and for a take in `specs/Takes.antt`; what each command keeps in `specs/Commands.antt`.
//! Patches follow RFC 8072, policies RFC 8341 and subscriptions RFC 8639 and RFC 8641.
#![tactic(auto)]

mod ask;
mod calls;
pub mod command;
pub mod fault;
pub mod halt;
pub mod laws;
pub mod receivers;
mod take;
pub mod words;

//! The registry of subscriptions (RFC 8639 sections 2.4 and 2.5, RFC 8641 section 4.4).
//!
//! `registry::Registry` holds the live subscriptions, each with the terms that it was given (`yp_terms`).
//! Contracts see it as a record of lists and numbers (`specs/Registry.antt`). Each call is a function of that
//! record, and a refused call leaves the registry as it was. The first reason that holds decides on the
//! refusal. Receivers establish, modify, delete and resync their own subscriptions, and an operator kills
//! them; others are configured, reconfigured and unconfigured. `laws` says what follows: ids rise, none is
//! given twice, and none is configured twice.
#![tactic(auto)]

mod amending;
mod calls;
mod configuring;
pub mod laws;
mod live;
pub mod registry;
#[cfg(test)]
mod tests;

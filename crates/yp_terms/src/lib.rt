//! The terms of subscriptions: what one is asked for with and amended with, what it is given, and why a call is
//! refused (RFC 8639 sections 2.4 and 2.5, RFC 8641 section 4.4).
//!
//! `ask` has what is asked for, `terms::Terms` what a live subscription is given; contracts see terms as a record,
//! with what their filter says (`specs/Terms.antt`). `refused::Refused` names each reason to refuse a call, and
//! `reasons` tests those that need only what is asked for and the terms: the first that holds decides
//! (`specs/Refusals.antt`). `triggers` has the anchor of a periodic trigger. `specs/Amends.antt` says what
//! becomes of amended terms, and `laws` that their trigger stays of its kind.
#![tactic(auto)]

pub mod ask;
pub mod laws;
pub mod reasons;
pub mod refused;
pub mod terms;
pub mod triggers;

//! What is kept of the offers to a receiver, and what a report tells of it.
//!
//! Of each offer a log keeps the line of the packet that was accepted, or that the queue was full (`logged::Logged`).
//! `logged::log_text` writes the lines of a log, of which so many packets were taken. The definitions are in
//! `specs/Logs.antt`.
#![tactic(auto)]

pub mod logged;

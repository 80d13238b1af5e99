//! A script that threads run.
#![tactic(auto)]

#[cfg(test)]
mod report;

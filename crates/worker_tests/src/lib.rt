//! Workers on one thread: with receivers that take at once, in crews, and in a world of events.
#![tactic(auto)]

#[cfg(test)]
mod common;
#[cfg(test)]
mod crews;
#[cfg(test)]
mod listeners;
#[cfg(test)]
mod world;

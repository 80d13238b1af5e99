//! Scripts that are drawn from a seed, with which the program can be tried out.
//!
//! `script::generate` gives the text of one: a start, a schema of interfaces, two receivers with a
//! subscription each, and so many drawn commands, which are ticks and patches (RFC 8072). The same seed and
//! size always give the same text, which contracts see as its bytes. Which they are says `script_text`
//! (`specs/Scripts.antt`), by the draws (`specs/Draws.antt`) and by the command of each
//! (`specs/Commands.antt`).
#![tactic(auto)]

pub mod command;
mod draw;
pub mod script;
#[cfg(test)]
mod tests;

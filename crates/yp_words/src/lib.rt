//! The arguments of the program, read with `clap`.
//!
//! `words::read_words` gives the mode and the numbers that the arguments say, each of them a text (`Txt`).
//! What they say is `words_in` (`specs/Words.antt`): the words are those that a simple command takes by
//! clap's own definition, and one of them names a mode. `help::help_text` gives the text that is shown where
//! they ask for help or for the version instead.
#![tactic(auto)]

mod command;
pub mod help;
pub mod laws;
#[cfg(test)]
mod tests;
pub mod words;

//! The turns of a script, in order, and which journals are a script's.
//!
//! `turns::serial_turns` puts the commands of a script in order: those before the lanes, those of one lane after the other,
//! and those after them. Each comes by its lane, with its number there (`specs/Turns.antt`). A journal is the script's where
//! it has these commands, with those of the lanes in whatever interleaving (`specs/Journal.antt`). `laws` says what follows:
//! the journal of the serial turns is one of them.
#![tactic(auto)]

pub mod laws;
pub mod turns;

//! Serial runs: one worker serves all receivers, entry by entry, and each receiver has a queue.
//!
//! Nothing runs here. Contracts see how many offers may still come at a position (`specs/Weights.antt`), that
//! due ticks pass, without which offers would not come to an end (`specs/DueTicks.antt`), what a queue answers
//! and what its receiver takes (`specs/Posts.antt`), and the serial run of a journal (`specs/Serial.antt`). It
//! follows RFC 8641 sections 3.1, 3.3, 3.11 and 4.2. `laws` says what holds of it.
#![tactic(auto)]

pub mod laws;

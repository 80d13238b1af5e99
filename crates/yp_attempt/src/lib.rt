//! Attempts: what the feeds of a worker offer their receivers over a journal, and in which order.
//!
//! Nothing runs here. Contracts see a journal as moments, what each entry is to feeds (`specs/Moments.antt`);
//! a feed with its window of selections as a track (`specs/Tracks.antt`); a worker's run over moments and
//! answers (`specs/Runs.antt`); and the attempts of any receivers by recursion (`specs/Attempts.antt`). Rows
//! are known by four functions alone (`specs/Content.antt`), so that no law opens a row, a filter or a rule.
//! It follows RFC 8641 sections 3.1, 3.3, 3.7 and 3.11, and RFC 8639 sections 2.4 and 2.7. `laws` says what
//! holds of all runs, and what a worker's look at its tracks needs.
#![tactic(auto)]

pub mod laws;

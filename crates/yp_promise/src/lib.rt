//! The promise: what the receivers of a journal are offered by its serial run, what they take and hold, and
//! what holds of all that.
//!
//! Nothing runs here. Contracts see the serial run of a journal (`specs/Serving.antt`), what a report shows of
//! it for a receiver (`specs/Shown.antt`), what a receiver holds (`specs/Received.antt`), what it is promised
//! (`specs/Promise.antt`), and when it is promised that however writers, workers and receivers interleave
//! (`specs/Interleaving.antt`). It follows RFC 8641 sections 3.1, 3.3, 3.7, 3.9 and 3.11, RFC 8639 section 2.7
//! and RFC 8341 section 3.4.5. `laws`, `posts`, `runs` and `interleavings` say what holds of legal journals.
#![tactic(auto)]

pub mod interleavings;
pub mod laws;
pub mod posts;
pub mod runs;

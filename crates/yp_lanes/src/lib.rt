//! The lanes of a script, which write the journal that threads share beside each other.
//!
//! A lane is a job: its seat and its commands (`lane`). `lane::run_lanes` runs any number of them, each by a thread of its
//! own where there is one. A gate (`yp_gate`) is called before each command.
#![tactic(auto)]

pub mod lane;

//! The workers of a run of threads: each follows the shared journal by a reader of its own, beside those that write it and
//! those that take.
//!
//! A worker is a job (`follower`): the reader, the worker of `yp_worker`, and for each of its receivers an `outbox`: the side
//! of its queue that sends, and what is kept of all offers. `follower::run_followers` runs any number of them, each by a
//! thread of its own where there is one, until the journal has ended or its writers have stopped. A worker takes no lock
//! and waits for nobody.
#![tactic(auto)]

pub mod follower;
pub mod outbox;

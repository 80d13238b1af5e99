//! The receivers of a run of threads: each takes the packets of its queue and hears their lines, beside those that send.
//!
//! A receiver is a job (`taker`): the side of its queue that takes, what it took, and what it holds. It goes on from that by
//! the line of each packet. `taker::run_takers` runs any number of them, each by a thread of its own where there is one,
//! until the sender of each has ended and its queue is empty. A gate (`yp_gate`) is called after each packet.
#![tactic(auto)]

pub mod taker;

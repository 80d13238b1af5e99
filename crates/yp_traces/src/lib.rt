//! What workers did beside each other over a whole journal is a list of events of the world (`yp_world`).
//!
//! Nothing runs here. Threads take no turns, so nobody knows in which order their events came. But what each worker did is
//! known: its run, and the answers of its receivers' queues. `laws` says that some list of events does the same, so that
//! what is promised of every list of events (`yp_promise`) is promised of threads.
#![tactic(auto)]

pub mod laws;

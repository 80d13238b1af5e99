//! Crews that go on over the lanes of a script, by threads.
//!
//! `beside::go_on_beside` has the lanes of a script write the shared journal beside each other (`yp_lanes`), each worker
//! follow it (`yp_followers`) and each receiver take what its worker sends (`yp_takers`), each by a thread of its own where
//! there is one. Crews go in and crews come out (`yp_handover`), so what comes before the lanes and after them needs no
//! threads.
#![tactic(auto)]

pub mod beside;
mod lanes;
mod life;
mod running;

//! Where a run of threads can be held back, so that a test can bring about an order of their steps.
#![tactic(auto)]

/// A place that a run of threads comes to.
#[derive(Debug, Clone, Copy, PartialEq, Eq, Drop)]
pub enum Moment {
    /// Before a lane submits its command of this number. Both count from 1.
    Submit { lane: u32, index: u32 },
    /// After a receiver took so many packets. Receivers count from 0, in the order of their declaration.
    Taken { receiver: u32, count: u64 },
}

/// What is called at each such place. It changes no value, so nothing is promised of it: a test holds threads back by it.
pub trait Gate: Sync {
    fn at(&self, place: Moment);
}

/// A gate that holds nothing back.
pub struct NoGate;

impl Gate for NoGate {
    fn at(&self, _place: Moment) {}
}

//! The receivers of a worker.
use yp_takers::taker::TakerJob;

/// The receivers of a worker: a job for each, which takes from its queue.
#[derive(Drop)]
pub struct Group {
    pub takers: Vec<TakerJob>,
}

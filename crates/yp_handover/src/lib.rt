//! What the threads of workers and receivers are handed, and what they hand back.
//!
//! Outside of the lanes a crew (`yp_crews`) does all on one thread. For the lanes its worker becomes a job that follows the
//! shared journal (`yp_followers`), and each of its receivers a job that takes (`yp_takers`), with a queue between them
//! (`handing::hand_over`). What these come to is a crew again (`closing::crews_of`), which has served its receivers
//! over the lanes' entries too (`laws::a_crew_goes_on_by_threads`).
#![tactic(auto)]

pub mod closing;
pub mod group;
pub mod handing;
pub mod laws;

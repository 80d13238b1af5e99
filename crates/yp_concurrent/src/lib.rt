//! The run of a script whose lanes are threads, and the report of it.
//!
//! `script::report_beside` takes the commands of a script, and gives the text of the report, which tells of a legal journal
//! of them, of what workers beside each other offered to each receiver, of where its queue was full, and of what it holds
//! (`specs/Promise.antt`). What stands outside of lanes is taken on one thread, one command after another (`outside`), by the
//! workers with the receivers that they serve (`yp_crews`). In the lanes each lane, each worker and each receiver is a thread
//! of its own, where there is one (`lanes`, by `yp_threads`). Of the journal itself only the replies are kept. `text` puts
//! the report together (`yp_report`).
#![tactic(auto)]

mod lanes;
mod laws;
mod outside;
mod run;
pub mod script;
mod setting;
mod text;

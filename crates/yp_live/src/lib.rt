//! The run of a script, and the report of it.
//!
//! `script::report_of_script` takes the commands of a script in their order, and gives the text of the
//! report, which tells of a legal journal of them, of all that each receiver took, of where its queue was
//! full, and of what it holds (`specs/Promise.antt`). `script::summary_of_script` gives what the same report
//! comes to, in numbers (`specs/Summary.antt`). In between all is values: `run` takes the turns of the script
//! (`yp_turns`) one after another. At each, the receiver that it names takes packets; then the one worker of
//! all receivers (`yp_worker`) takes the entry, and offers until it has nothing to offer. Each receiver has a
//! `desk`: its queue (`yp_queue`) answers the offers, a log (`yp_offer_log`) keeps their lines and where the
//! queue was full, and what is taken is heard by what the receiver holds (`Holdings` of `yp_receiver`). Of the
//! journal itself only the replies are kept; `text` puts the report together (`yp_report`).
#![tactic(auto)]

mod counted;
mod desk;
mod run;
pub mod script;
mod setting;
mod summary;
mod text;
mod trees;

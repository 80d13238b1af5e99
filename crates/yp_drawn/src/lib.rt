//! Drawn scripts: the text that is drawn from a seed is a script, so a trial of it meets no fault.
//!
//! Nothing runs here. Contracts see which script it is (`specs/Drawn.antt`), and what each begins with
//! (`specs/Setting.antt`). `laws` says that the text of `yp_gen` is read as this script, whatever the seed
//! and the size. Its subscriptions follow RFC 8641, and its patches RFC 8072.
#![tactic(auto)]

pub mod laws;

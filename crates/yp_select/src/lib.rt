//! What a subtree filter selects of a datastore for a reader (RFC 6241 section 6.2, RFC 8641 section 3.6).
//!
//! A selection is of what may be read: what may not be read decides nothing (RFC 8641 section 3.9, RFC 8341
//! section 3.4.5). Which paths a filter keeps is told by `yp_kept`, with the definition of a selection
//! (`selection` in `specs/Selection.antt` there).
//!
//! `select::select_all` gives the selection and looks only where the filter can keep rows, and
//! `select::select_below` what of it is at or below a path. Each counts the rows that it visits.
//! `laws` says what follows: a selection of a datastore is a datastore, and nothing in it may not be read.
#![tactic(auto)]

pub mod laws;
mod reached;
mod reaches;
pub mod select;

//! Which paths a subtree filter keeps of what a reader sees (RFC 6241 section 6.2, RFC 8641 section 3.6).
//!
//! A reader is whatever says of each path whether it may be read (`Readable` of `yp_nacm`), and a filter is
//! one of `yp_filter`; contracts see what it says (`specs/Matches.antt`, `specs/Selection.antt`). What may
//! not be read decides nothing (RFC 8641 section 3.9, RFC 8341 section 3.4.5).
//!
//! `keeping::kept` tells whether a filter keeps a path, and looks up no row where the filter's form alone
//! says no (`form::could_be_kept`). A `standing::Way` tells it of one path after another, and tests each set
//! of the filter once for each instance. Each counts the rows that it visits.
#![tactic(auto)]

pub mod form;
pub mod keeping;
pub mod matching;
pub mod standing;
pub mod visible;

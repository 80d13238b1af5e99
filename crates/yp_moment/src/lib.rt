//! Moments: what the entries of a journal are to feeds, and what is promised of the attempts that they make.
//!
//! Nothing runs here. Contracts see what feeds know of selections (`specs/Windows.antt`), what an entry is to
//! feeds (`specs/Entries.antt`), which ids were given (`specs/Ids.antt`), what feeds can follow
//! (`specs/Followed.antt`), what an attempt names (`specs/Concealed.antt`), which subscriptions are live for
//! a receiver (`specs/Living.antt`), and by which journals a user sees the same (`specs/Visible.antt`). It
//! follows RFC 8639 sections 2.4, 2.5 and 2.7, RFC 8641 sections 3.3, 3.7, 3.9 and 4.4, and RFC 8341 section
//! 3.4.5. `acts` says what the entries of legal journals do to subscriptions, `laws` what receivers are told
//! by them, and `isolation` that what a user may not read has no effect.
#![tactic(auto)]

pub mod acts;
pub mod isolation;
pub mod laws;

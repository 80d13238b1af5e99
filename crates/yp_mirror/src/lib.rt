//! Mirrors: what a receiver knows of its subscriptions by the attempts of their feeds, and that its copies
//! are right.
//!
//! Nothing runs here. Contracts see what a receiver was told by attempts (`specs/Heard.antt`), what a journal
//! tells of its subscriptions (`specs/Stories.antt`), what is promised of each attempt
//! (`specs/Following.antt`), what ties a track to the attempts of its feed (`specs/Links.antt`), what full
//! queues lead to (`specs/FullQueues.antt`), and which subscriptions live (`specs/Living.antt`). It follows
//! RFC 8641 sections 3.1, 3.3, 3.7 and 3.11, and RFC 8639 sections 2.4, 2.5 and 2.7. `laws` says what holds
//! of all runs of one receiver.
#![tactic(auto)]

pub mod laws;

//! The roster of the feeds of some receivers: their slots, in the order in which they are asked for offers.
//!
//! A roster follows a journal entry by entry. It keeps a slot of each feed (`yp_slot`), and goes over them
//! by each patch and each policy. Feeds of one filter, for users who may read the same, share a class: a
//! patch is looked at once for each class, and a record that several of them offer is made once. Contracts
//! say for which entries and answers a roster stands (`specs/Rosters.antt`), by the definition of attempts
//! of `yp_attempt`. It follows RFC 8641 sections 3.1, 3.3, 3.7 and 3.11, and RFC 8639 sections 2.4 and 2.7.
#![tactic(auto)]

pub mod laws;
mod passing;
mod patching;
pub mod roster;
mod starting;

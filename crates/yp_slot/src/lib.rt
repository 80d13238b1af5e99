//! Slots: what is kept of a feed in place of the window of its selections, and what a look, an answer and an
//! entry of a journal make of it.
//!
//! A slot keeps no selections: it has the places that changed since its feed's base, and looks at the
//! datastore for what it offers. Slots of one filter, for users who may read the same, share a class
//! (`specs/Classes.antt`), and a record that several of them offer is made once (`specs/Records.antt`).
//! Contracts say for which track of `yp_attempt` a slot stands (`specs/Slots.antt`), and what becomes of it
//! (`specs/Steps.antt`). It follows RFC 8641 sections 3.1, 3.3, 3.7 and 3.11.
#![tactic(auto)]

pub mod acts;
pub mod classes;
pub mod following;
pub mod laws;
pub mod present;
pub mod readers;
pub mod records;
pub mod settling;
pub mod slot;

//! The world: a journal, workers that follow it, and receivers with their queues, and what holds of them
//! after every list of events.
//!
//! Nothing runs here. Contracts see the world and its four events (`specs/World.antt`): an entry is appended
//! to the journal, a worker absorbs the next entry, a worker offers a notification to the queue of its
//! receiver, or a receiver takes the first of its queue. They see what holds at every moment
//! (`specs/Holding.antt`), what is promised each receiver (`specs/Headline.antt`), and which events a serial
//! run is (`specs/Serially.antt`). It follows RFC 8639 sections 2.4 and 2.7, and RFC 8641 sections 3.1, 3.3,
//! 3.7 and 3.11. `laws` says what holds of all lists of events.
#![tactic(auto)]

pub mod laws;

//! The queue of a receiver between two threads: one sends notifications, the other takes them.
//!
//! A queue has two passes, which are made together (`passes::shared`). The sender's knows all that it sent and how many
//! offers were refused, the taker's all that it took (`specs/Sides.antt`). Once both threads are done the passes come
//! together again (`drained::drain`): what was taken and what is left are what was sent, in order.
#![tactic(auto)]

pub mod drained;
mod line;
pub mod passes;
#[cfg(test)]
mod tests;

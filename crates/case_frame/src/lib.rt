//! What the programs that run cases have in common. A case is a line of JSON that names a call, its arguments and the
//! answer that it must give; `docs/TESTING.md` says how to add one.
//!
//! A program's `Calls` are what its lines set and the calls that they name. `report` runs the lines: it tells those
//! that differ, and how many there were. `given` reads arguments, and `shown` writes answers. A
//! `setting` is the schema and the policy that lines set.
#![tactic(auto)]

pub mod fault;
pub mod frame;
pub mod given;
pub mod setting;
pub mod shown;

//! Access control: who may read what, and who may call which operation (RFC 8341).
//!
//! Contracts see a policy, its groups, rule lists and rules, and a user's own rules as plain fields and
//! lists. `specs/Decision.antt` has the decisions: of one place (`decision`), of a path with all that
//! stands above it (`is_readable`), and of an operation (`may_call`). `compile` takes out of a policy
//! what decides on a user's reading, `permits` decides on one place, and `Readable` is what later layers
//! ask of a path. No decision takes memory. `laws` says what follows of rules that are the same.
#![tactic(auto)]

pub mod compile;
pub mod decide;
pub mod execute;
pub mod laws;
pub mod policy;
pub mod readable;

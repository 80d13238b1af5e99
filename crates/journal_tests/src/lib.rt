//! The journal that threads share, with those that write it and those that follow it, and the turns of a script.
#![tactic(auto)]

#[cfg(test)]
mod followers;
#[cfg(test)]
mod lanes;
#[cfg(test)]
mod shared;
#[cfg(test)]
mod turns;

//! What receivers hold and what is told of them: lines, replays, receivers beside their senders, and the lines of a report.
#![tactic(auto)]

#[cfg(test)]
mod lines;
#[cfg(test)]
mod ports;
#[cfg(test)]
mod receiver;
#[cfg(test)]
mod replay;
#[cfg(test)]
mod report;
#[cfg(test)]
mod takers;

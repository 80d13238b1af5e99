//! Entries of the journal.
use crate::command::Command;
use crate::reply::Reply;
use std::alloc::Global;
use yp_base::memory::{Duplicate, NoMemory};
use yp_base::series::Series;

/// An entry of the journal. Its position is its place there, from 1 on.
#[derive(Drop)]
pub struct Entry {
    /// The lane by which the command came, 0 where it came by none.
    pub lane: u32,
    /// The number of the command in its lane, from 1 on.
    pub index: u32,
    /// The tick after the command, in centiseconds from the start.
    pub stamp: u64,
    pub command: Command,
    pub reply: Reply,
}

/// Entries, in order.
pub type Entries = Series<Entry>;

impl Duplicate for Entry {
    fn copy(&self, alloc: Global) -> Result<Entry, NoMemory> {
        Ok(Entry {
            lane: self.lane,
            index: self.index,
            stamp: self.stamp,
            command: self.command.copy(alloc)?,
            reply: self.reply.copy(alloc)?,
        })
    }
}

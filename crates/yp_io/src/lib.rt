//! Where bytes come from and where they go, with faults that are counted.
//!
//! A `Source` and a `Sink` each have a count of faults that never falls. A call fails only where the
//! count rose, and no other answer raises it. A count that has reached its last value stands still, so
//! "rose" means everywhere "rose, or stands at its last value" (`specs/Causes.antt`). Some sources tell
//! contracts the bytes that are left, and some sinks the bytes that were written.
//!
//! `read_whole` reads a source to its end or one byte past a limit, and `write_whole` writes a list of
//! bytes. `MemSource` and `MemSink` stand in memory and fail at chosen calls; `SafeSource` and
//! `SafeSink` never fail; `StdSource` and `StdSink` wrap std's readers and writers and tell the bytes that
//! these tell: none of a file's, a socket's or a terminal's. `Persistent` is a reader or writer of std whose
//! calls are made again where a signal interrupted them.
#![tactic(auto)]

pub mod memory;
pub mod persistent;
pub mod sink;
pub mod source;
pub mod streams;
pub mod whole;

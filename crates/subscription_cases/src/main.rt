//! Runs cases of the libraries of filters, subscriptions and notifications: each line of standard input names a call,
//! its arguments and the answer that it must give. Standard output tells the cases that differ, and how many there
//! were. `docs/TESTING.md` says how to add one.
#![tactic(auto)]

mod asks;
mod calls;
mod filters;
mod notices;
mod registries;
mod subscriptions;

use calls::Libraries;
use case_frame::frame::report;
use std::{io, str};
use yp_io::persistent::Persistent;
use yp_io::streams::{StdSink, StdSource};
use yp_io::whole::{read_whole, write_whole};

// More bytes than the cases have.
const MOST_BYTES: usize = 16_777_216;

fn main(rt: HostRuntime) -> anyhow::Result<()> {
    let alloc = rt.alloc();
    let mut source = StdSource::new(Persistent::reader(rt.reader()));
    let whole = read_whole(alloc, &mut source, MOST_BYTES)?;
    let mut libraries = Libraries::new(alloc)?;
    let told = report(alloc, &mut libraries, str::from_utf8(whole.bytes.items())?)?;
    let mut sink = StdSink::new(Persistent::writer(io::writer(&rt)));
    write_whole(&mut sink, told.as_bytes())?;
    Ok(())
}

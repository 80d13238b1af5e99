//! Runs events on worlds (`yp_core`), and beside each world workers of their own (`yp_worker`), the companions of the
//! world's. Standard input has cases: each is a line with a number of workers and events, the lines of a script, and
//! an empty line. Standard output tells in a line what each event comes to, in another one what it comes to with the
//! companions, if that differs, and after each case `end`. `docs/TESTING.md` says how they are written.
#![tactic(auto)]

mod cases;
mod companions;
mod comparing;
mod kept;
mod plan;
mod run;
mod shown;

use std::{io, str};
use yp_io::persistent::Persistent;
use yp_io::streams::{StdSink, StdSource};
use yp_io::whole::{read_whole, write_whole};

// More bytes than the cases have.
const MOST_BYTES: usize = 67_108_864;

fn main(rt: HostRuntime) -> anyhow::Result<()> {
    let alloc = rt.alloc();
    let mut source = StdSource::new(Persistent::reader(rt.reader()));
    let whole = read_whole(alloc, &mut source, MOST_BYTES)?;
    let report = cases::report(alloc, str::from_utf8(whole.bytes.items())?)?;
    let mut sink = StdSink::new(Persistent::writer(io::writer(&rt)));
    write_whole(&mut sink, report.as_bytes())?;
    Ok(())
}

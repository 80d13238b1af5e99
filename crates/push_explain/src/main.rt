//! Tells the faults of a script on standard input, line by line, or why its commands are refused.
//! `docs/EXPLAIN.md` says how to use it.
#![tactic(auto)]

mod edits;
mod explain;
mod faults;
mod lines;
mod refusals;

use crate::explain::{explain, status_of};
use std::io;
use std::process::ExitCode;
use yp_base::memory::NoMemory;
use yp_io::persistent::Persistent;
use yp_io::streams::{StdSink, StdSource};
use yp_io::whole::{ReadError, read_whole, write_whole};
use yp_script::reading::BYTE_LIMIT;

/// Writes what was explained, and gives the exit status.
fn write(rt: &HostRuntime, text: &str) -> anyhow::Result<u8> {
    let mut sink = StdSink::new(Persistent::writer(io::writer(rt)));
    if write_whole(&mut sink, text.as_bytes()).is_err() {
        eprintln!(rt; "explain: writing failed")?;
        return Ok(7);
    }
    Ok(status_of(text))
}

/// Explains bytes, and gives the exit status.
fn answer(rt: &HostRuntime, bytes: &[u8]) -> anyhow::Result<u8> {
    match explain(rt.alloc(), bytes) {
        Ok(text) => write(rt, text.as_str()),
        Err(NoMemory) => {
            eprintln!(rt; "explain: no memory")?;
            Ok(8)
        }
    }
}

fn main(rt: HostRuntime) -> anyhow::Result<ExitCode> {
    let mut source = StdSource::new(Persistent::reader(rt.reader()));
    let code = match read_whole(rt.alloc(), &mut source, BYTE_LIMIT) {
        Ok(whole) => answer(&rt, whole.bytes.items())?,
        Err(ReadError::Fault) => {
            eprintln!(rt; "explain: reading failed")?;
            6
        }
        Err(ReadError::Memory) => {
            eprintln!(rt; "explain: no memory")?;
            8
        }
    };
    Ok(ExitCode::from(code))
}

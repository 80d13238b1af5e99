//! The least that a program like this one does: it parses the JSON of a script's lines, and parses and writes again
//! that of a report's lines.
//!
//! Standard input has a script and then its report. A line that begins with `{` is the script's, and is only parsed.
//! Each other line is the report's: what stands before its JSON is written, and then the JSON. So standard output is
//! the report again, and the bench compares the program with this one, which has the same JSON reader and writer and
//! does nothing else.
#![tactic(auto)]

use memchr::memchr;
use serde_json::Value as Json;
use std::alloc::Global;
use std::io;
use std::io::{BufRead, BufReader, BufWriter, Write};

/// Parses a line's JSON; of a report's line it writes what stands before the JSON, and the JSON.
fn pass<W: Write>(alloc: Global, line: &[u8], out: &mut W) -> anyhow::Result<()> {
    match memchr(b'{', line) {
        Some(at) => {
            let (before, text) = line.split_at(at);
            let json = Json::from_slice(alloc, text)?;
            if !before.is_empty() {
                out.write_all(before)?;
                out.write_all(json.to_string(alloc)?.as_bytes())?;
                out.write_all(b"\n")?;
            }
        }
        None => {
            out.write_all(line)?;
            out.write_all(b"\n")?;
        }
    }
    Ok(())
}

fn main(rt: HostRuntime) -> anyhow::Result<()> {
    let alloc = rt.alloc();
    let mut out = BufWriter::new(alloc, io::writer(&rt))?;
    for line in BufReader::new(alloc, rt.reader())?.lines(alloc) {
        let line = line?;
        if !line.trim().is_empty() {
            pass(alloc, line.as_bytes(), &mut out)?;
        }
    }
    out.flush()?;
    Ok(())
}

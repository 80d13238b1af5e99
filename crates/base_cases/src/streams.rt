//! Calls of `yp_io`. Bytes stand as texts.
use case_frame::fault::{CaseFault, OrFault, or_bad};
use case_frame::given::{self, part};
use case_frame::shown::{self, Answer, Told};
use serde_json::Value as Json;
use std::alloc::Global;
use std::io::{Error, ErrorKind, Read, Write};
use std::str;
use yp_io::memory::{MemSink, MemSource, SafeSink, SafeSource};
use yp_io::persistent::Persistent;
use yp_io::sink::{Put, Sink};
use yp_io::source::{Got, Source};
use yp_io::streams::{StdSink, StdSource};
use yp_io::whole::{ReadError, Whole, read_whole, write_whole};

pub fn answer(alloc: Global, call: &str, arguments: &Json) -> Answer {
    Ok(Some(match call {
        "reads" => reads(alloc, arguments)?,
        "safe_reads" => safe_reads(alloc, arguments)?,
        "std_reads" => std_reads(alloc, arguments)?,
        "read_whole" => read(alloc, arguments)?,
        "read_many" => read_many(alloc, arguments)?,
        "read_broken" | "read_interrupted" | "read_std" => read_other(alloc, call, arguments)?,
        _ => return written(alloc, call, arguments),
    }))
}

/// The answer of a call on a sink.
fn written(alloc: Global, call: &str, arguments: &Json) -> Answer {
    Ok(Some(match call {
        "writes" => writes(alloc, arguments)?,
        "safe_writes" => safe_writes(alloc, arguments)?,
        "std_writes" => std_writes(alloc, arguments)?,
        "write_whole" => write(alloc, arguments)?,
        "write_broken" | "write_interrupted" | "write_safe" => {
            write_other(alloc, call, given::text(arguments)?)?
        }
        _ => return Ok(None),
    }))
}

fn bytes(alloc: Global, arguments: &Json) -> OrFault<Vec<u8>> {
    let text = given::text(part(arguments, "bytes")?)?;
    Ok(String::from_str(alloc, text)?.into_bytes())
}

/// The numbers of the calls that fail.
fn failing(alloc: Global, arguments: &Json) -> OrFault<Vec<u64>> {
    let mut numbers = Vec::new(alloc);
    for number in given::items(part(arguments, "failing")?)? {
        numbers.push(given::number(number)?)?;
    }
    Ok(numbers)
}

fn source(alloc: Global, arguments: &Json) -> OrFault<MemSource> {
    let most = given::size(part(arguments, "most")?)?;
    Ok(MemSource::new(
        bytes(alloc, arguments)?,
        most.max(1),
        failing(alloc, arguments)?,
    ))
}

fn sink(alloc: Global, arguments: &Json) -> OrFault<MemSink> {
    let room = given::size(part(arguments, "room")?)?;
    let most = given::size(part(arguments, "most")?)?;
    Ok(MemSink::with_room(alloc, room, most.max(1), failing(alloc, arguments)?)?)
}

// ---- reading

/// What reads into rooms of these sizes give: how many bytes, and then the room.
fn read_each<S: Source>(alloc: Global, source: &mut S, rooms: &Json) -> OrFault<String> {
    let mut told = Told::new(alloc);
    told.push("[");
    let mut into = [b'.'; 8];
    for room in given::items(rooms)? {
        let size = given::size(room)?;
        if size == 0 || size > 8 {
            return Err(CaseFault::BadArgument);
        }
        let got = source.read(&mut into[..size]);
        told.comma();
        told.quoted(got_text(alloc, got, &into)?.as_str());
    }
    told.push("]");
    told.done()
}

fn got_text(alloc: Global, got: Got, into: &[u8]) -> OrFault<String> {
    let room = str::from_utf8(into)?;
    match got {
        Got::Bytes(count) => Ok(format!(in alloc; "{count} {room}")?),
        Got::End => shown::plain(alloc, "end"),
        Got::Failed => shown::plain(alloc, "failed"),
    }
}

fn reads(alloc: Global, arguments: &Json) -> OrFault<String> {
    read_each(
        alloc,
        &mut source(alloc, arguments)?,
        part(arguments, "rooms")?,
    )
}

fn safe_reads(alloc: Global, arguments: &Json) -> OrFault<String> {
    let mut source = SafeSource::new(bytes(alloc, arguments)?);
    read_each(alloc, &mut source, part(arguments, "rooms")?)
}

fn std_reads(alloc: Global, arguments: &Json) -> OrFault<String> {
    let text = given::text(part(arguments, "bytes")?)?;
    read_each(
        alloc,
        &mut StdSource::new(text.as_bytes()),
        part(arguments, "rooms")?,
    )
}

fn limit(arguments: &Json) -> OrFault<usize> {
    given::size(part(arguments, "limit")?)
}

/// What was read, and whether there was more.
fn whole(alloc: Global, read: Result<Whole, ReadError>) -> OrFault<String> {
    match read {
        Ok(whole) => shown_whole(alloc, &whole),
        Err(ReadError::Fault) => shown::quoted(alloc, "fault"),
        Err(ReadError::Memory) => Err(CaseFault::Memory),
    }
}

fn shown_whole(alloc: Global, whole: &Whole) -> OrFault<String> {
    let text = shown::quoted(alloc, str::from_utf8(whole.bytes.items())?)?;
    let over = whole.over;
    Ok(format!(in alloc; "[{text},{over}]")?)
}

fn read(alloc: Global, arguments: &Json) -> OrFault<String> {
    let mut source = source(alloc, arguments)?;
    whole(alloc, read_whole(alloc, &mut source, limit(arguments)?))
}

/// How many of so many bytes are read, and whether there was more.
fn read_many(alloc: Global, arguments: &Json) -> OrFault<String> {
    let left = given::size(part(arguments, "left")?)?;
    let mut source = SafeSource::new(vec![in alloc; b'x'; left]?);
    let whole = or_bad(read_whole(alloc, &mut source, limit(arguments)?))?;
    let count = whole.bytes.len();
    let over = whole.over;
    Ok(format!(in alloc; "[{count},{over}]")?)
}

/// What is read of a reader that fails, of one that a signal interrupts, or of one of std.
fn read_other(alloc: Global, call: &str, arguments: &Json) -> OrFault<String> {
    let limit = limit(arguments)?;
    match call {
        "read_broken" => whole(alloc, read_whole(alloc, &mut StdSource::new(Broken), limit)),
        "read_interrupted" => {
            let reader = Persistent::reader(with_signals(bytes(alloc, arguments)?));
            whole(alloc, read_whole(alloc, &mut StdSource::new(reader), limit))
        }
        _ => {
            let text = given::text(part(arguments, "bytes")?)?;
            whole(
                alloc,
                read_whole(alloc, &mut StdSource::new(text.as_bytes()), limit),
            )
        }
    }
}

// ---- writing

/// What writes of these pieces take.
fn write_each<K: Sink>(alloc: Global, sink: &mut K, told: &mut Told, pieces: &Json) -> OrFault<()> {
    for piece in given::items(pieces)? {
        told.comma();
        match sink.write(given::text(piece)?.as_bytes()) {
            Put::Took(count) => told.put(format!(in alloc; "{count}")),
            Put::Failed => told.push("\"failed\""),
        }
    }
    Ok(())
}

/// What writes take, and then what was written.
fn writes(alloc: Global, arguments: &Json) -> OrFault<String> {
    let mut sink = sink(alloc, arguments)?;
    let mut told = Told::new(alloc);
    told.push("[");
    write_each(alloc, &mut sink, &mut told, part(arguments, "pieces")?)?;
    told.comma();
    told.quoted(str::from_utf8(sink.bytes())?);
    told.push("]");
    told.done()
}

fn safe_writes(alloc: Global, pieces: &Json) -> OrFault<String> {
    let mut told = Told::new(alloc);
    told.push("[");
    write_each(alloc, &mut SafeSink::new(), &mut told, pieces)?;
    told.push("]");
    told.done()
}

/// What writes to four places take.
fn std_writes(alloc: Global, pieces: &Json) -> OrFault<String> {
    let mut places = [0u8; 4];
    let mut told = Told::new(alloc);
    told.push("[");
    write_each(
        alloc,
        &mut StdSink::new(places.as_mut_slice()),
        &mut told,
        pieces,
    )?;
    told.push("]");
    told.done()
}

/// Whether all bytes are written.
fn write_all<K: Sink>(sink: &mut K, bytes: &[u8]) -> &'static str {
    match write_whole(sink, bytes) {
        Ok(()) => "done",
        Err(_) => "fault",
    }
}

/// Whether all bytes are written, and which are.
fn write(alloc: Global, arguments: &Json) -> OrFault<String> {
    let mut sink = sink(alloc, arguments)?;
    let done = write_all(
        &mut sink,
        given::text(part(arguments, "bytes")?)?.as_bytes(),
    );
    let written = shown::quoted(alloc, str::from_utf8(sink.bytes())?)?;
    Ok(format!(in alloc; "[\"{done}\",{written}]")?)
}

/// Whether a text is written to a writer that fails, to one that a signal interrupts, or to the safe one.
fn write_other(alloc: Global, call: &str, text: &str) -> OrFault<String> {
    let bytes = text.as_bytes();
    let done = match call {
        "write_broken" => write_all(&mut StdSink::new(Broken), bytes),
        "write_interrupted" => {
            let writer = Persistent::writer(with_signals(Vec::new(alloc)));
            write_all(&mut StdSink::new(writer), bytes)
        }
        _ => write_all(&mut SafeSink::new(), bytes),
    };
    shown::quoted(alloc, done)
}

// ---- readers and writers that fail

/// A reader or writer whose every call fails.
#[derive(Drop)]
struct Broken;

impl Read for Broken {
    fn read(&mut self, _into: &mut [u8]) -> std::io::Result<usize> {
        Err(Error::from(ErrorKind::Other))
    }
}

impl Write for Broken {
    fn write(&mut self, _piece: &[u8]) -> std::io::Result<usize> {
        Err(Error::from(ErrorKind::Other))
    }

    fn flush(&mut self) -> std::io::Result<()> {
        Ok(())
    }
}

/// Bytes that are given or taken one at a time, and a signal at the second and the third call.
#[derive(Drop)]
struct Interrupted {
    bytes: Vec<u8>,
    given: usize,
    calls: u64,
}

fn with_signals(bytes: Vec<u8>) -> Interrupted {
    Interrupted {
        bytes,
        given: 0,
        calls: 0,
    }
}

impl Interrupted {
    fn signal(&mut self) -> std::io::Result<()> {
        self.calls = self.calls.saturating_add(1);
        if self.calls == 2 || self.calls == 3 {
            return Err(Error::from(ErrorKind::Interrupted));
        }
        Ok(())
    }
}

impl Read for Interrupted {
    fn read(&mut self, into: &mut [u8]) -> std::io::Result<usize> {
        self.signal()?;
        match self.bytes.get(self.given) {
            Some(byte) if !into.is_empty() => {
                into[0] = *byte;
                self.given = self.given.saturating_add(1);
                Ok(1)
            }
            _ => Ok(0),
        }
    }
}

impl Write for Interrupted {
    fn write(&mut self, piece: &[u8]) -> std::io::Result<usize> {
        self.signal()?;
        Ok(piece.len().min(1))
    }

    fn flush(&mut self) -> std::io::Result<()> {
        Ok(())
    }
}

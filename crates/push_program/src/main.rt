//! The program: its words, standard input and standard output.
#![tactic(auto)]

mod fault;
pub mod job;
mod manual;
#[cfg(test)]
mod tests;
mod texts;
pub mod top;

use crate::top::{Status, push_main};
use std::env::{Env, FillError};
use std::io;
use std::process::ExitCode;
use std::sync::Wait;
use std::thread::Threads;
use yp_base::txt::Txt;
use yp_gate::NoGate;
use yp_io::persistent::Persistent;
use yp_io::streams::{StdSink, StdSource};
use yp_words::help::help_text;

/// Tells standard error how a run ended, and gives the exit code.
fn tell(rt: &HostRuntime, status: Status) -> anyhow::Result<u8> {
    Ok(match status {
        Status::Done => 0,
        Status::BadWords => {
            eprintln!(rt; "push: bad words")?;
            2
        }
        Status::BadScript { line, kind } => {
            let kind = kind.number();
            eprintln!(rt; "push: line {line}: fault {kind}")?;
            3
        }
        Status::BadStream { line, kind } => {
            let kind = kind.number();
            eprintln!(rt; "push: stream line {line}: fault {kind}")?;
            4
        }
        Status::Manual { receiver } => {
            let name = receiver.as_str();
            eprintln!(rt; "push: receiver {name} takes by command")?;
            5
        }
        Status::ReadFault => {
            eprintln!(rt; "push: reading failed")?;
            6
        }
        Status::WriteFault => {
            eprintln!(rt; "push: writing failed")?;
            7
        }
        Status::NoMemory => {
            eprintln!(rt; "push: no memory")?;
            8
        }
    })
}

// The room for a word at first; it grows where a word is longer.
const ROOM: usize = 64;

/// What is read of a word into some room.
enum Fetched {
    Word(String),
    /// It is longer than the room.
    Longer,
    /// There is none of this number.
    Nothing,
}

/// The word of a number, if there is room enough. One that isn't UTF-8 is a bad word.
fn word_within(rt: &HostRuntime, number: usize, room: usize) -> Result<Fetched, Status> {
    let mut bytes = Vec::new(rt.alloc());
    if bytes.resize(room, 0u8).is_err() {
        return Err(Status::NoMemory);
    }
    match rt.arg(number, bytes.as_mut_slice()) {
        Ok(length) => {
            bytes.truncate(length);
            match String::from_utf8(bytes) {
                Ok(word) => Ok(Fetched::Word(word)),
                Err(_) => Err(Status::BadWords),
            }
        }
        Err(FillError::NotPresent) => Ok(Fetched::Nothing),
        Err(FillError::TooLong) => Ok(Fetched::Longer),
    }
}

/// The word of a number, and `None` after the last one.
fn word_at(rt: &HostRuntime, number: usize) -> Result<Option<Txt>, Status> {
    let mut room = ROOM;
    for _ in 0..usize::BITS {
        match word_within(rt, number, room)? {
            Fetched::Word(word) => {
                return match Txt::from_string(rt.alloc(), word) {
                    Ok(word) => Ok(Some(word)),
                    Err(_) => Err(Status::NoMemory),
                };
            }
            Fetched::Longer => room = room.saturating_mul(2),
            Fetched::Nothing => return Ok(None),
        }
    }
    Err(Status::NoMemory)
}

/// The words after the program's name, whose own bytes are never read.
fn words_of(rt: &HostRuntime) -> Result<Vec<Txt>, Status> {
    let mut words = Vec::new(rt.alloc());
    for number in 1..usize::MAX {
        let Some(word) = word_at(rt, number)? else {
            break;
        };
        if words.push(word).is_err() {
            return Err(Status::NoMemory);
        }
    }
    Ok(words)
}

/// Does what the words ask for, with standard input and standard output, and with threads by a handle on them.
fn run_program<T: Threads + Wait + Sync>(rt: &HostRuntime, threads: &T, words: &[Txt]) -> Status {
    let mut source = StdSource::new(Persistent::reader(rt.reader()));
    let mut sink = StdSink::new(Persistent::writer(io::writer(rt)));
    push_main(threads, rt.alloc(), words, &mut source, &mut sink, &NoGate)
}

/// Shows the help or the version, where the words ask for it, or does what they ask for; and gives the exit
/// code.
fn answer<T: Threads + Wait + Sync>(
    rt: &HostRuntime,
    threads: &T,
    words: &[Txt],
) -> anyhow::Result<u8> {
    match help_text(rt.alloc(), words) {
        Ok(Some(text)) => {
            let text = text.as_str();
            print!(rt; "{text}")?;
            Ok(0)
        }
        Ok(None) => tell(rt, run_program(rt, threads, words)),
        Err(_) => tell(rt, Status::NoMemory),
    }
}

fn main(rt: HostRuntime) -> anyhow::Result<ExitCode> {
    let code = match words_of(&rt) {
        Ok(words) => answer(&rt, &rt, words.as_slice())?,
        Err(status) => tell(&rt, status)?,
    };
    Ok(ExitCode::from(code))
}

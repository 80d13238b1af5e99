//! What the arguments say.
ghost use Rattle.std.specs.Prelude.{◌≡◌, ◌&&◌, ◌≤◌, IfOk, Some, None, if◌then◌else◌, nat_le};
ghost use Rattle.clap.specs.Words.{found_of, rows_of};
ghost use Rattle.yp_words.specs.Answers.{FaultBy, ReadsWords};
ghost use Rattle.yp_words.specs.Words.{mode_named, mode_of_rows, number_of_rows, words_in, words_of_rows};

use crate::command::{matches_in, texts_of};
use clap::ArgMatches;
use clap::error::ErrorKind;
use std::alloc::Global;
use yp_base::txt::Txt;

/// What the program does.
#[derive(Debug, Drop, Clone, Copy, PartialEq, Eq)]
pub enum Mode {
    /// Reads a script, and writes the report of its run.
    Run,
    /// Runs the lanes, workers and receivers of a script by threads, and writes the report of that run.
    Live,
    /// Reads a schema and the notifications of a receiver, and writes the trees that they make.
    Replay,
    /// Writes a script that is drawn from a seed.
    Gen,
    /// Runs that script, and writes a summary.
    Trial,
}

/// What the arguments say. A number that the mode doesn't use has no effect.
#[derive(Debug, Drop, Clone, Copy, PartialEq, Eq)]
pub struct Words {
    pub mode: Mode,
    /// How many workers, 1 to 8; without `--workers` 2.
    pub workers: u32,
    /// The number from which a script is drawn; without `--seed` 1.
    pub seed: u32,
    /// How many commands of a script are drawn, 1 to 10,000; without `--size` 100.
    pub size: u32,
}

/// Why arguments were not read.
#[derive(Debug, Drop, Clone, Copy, PartialEq, Eq, thiserror::Error)]
pub enum WordsFault {
    /// The command doesn't take them, or they name no mode. A request for help is bad too.
    #[error("bad words")]
    BadWords,
    #[error("out of memory")]
    Memory,
}

fn mode_of(name: &str) -> Option<Mode>
    ensures { result ≡ mode_named name.now }
{
    match name {
        "run" => Some(Mode::Run),
        "live" => Some(Mode::Live),
        "replay" => Some(Mode::Replay),
        "gen" => Some(Mode::Gen),
        "trial" => Some(Mode::Trial),
        _ => None,
    }
}

fn mode_in(matches: &ArgMatches) -> Option<Mode>
    ensures { result ≡ mode_of_rows (rows_of (found_of matches.now)) }
{
    match matches.get_str("mode") {
        Some(name) => mode_of(name),
        None => None,
    }
}

fn within(number: u32, least: u32, most: u32) -> Option<u32>
    ensures { result ≡ (if nat_le least number && nat_le number most then Some number else None) }
{
    if least <= number && number <= most {
        Some(number)
    } else {
        None
    }
}

/// The number of an option, or its default. The command has seen to the bounds by then.
fn number_of(matches: &ArgMatches, name: &str, least: u32, most: u32, default: u32) -> Option<u32>
    ensures { result ≡ number_of_rows (record { name = name.now; least = least; most = most; default = default }) (rows_of (found_of matches.now)) }
{
    match matches.try_get_one::<u32>(name) {
        Ok(Some(number)) => within(number, least, most),
        Ok(None) => Some(default),
        Err(_) => None,
    }
}

fn words_of(matches: &ArgMatches) -> Option<Words>
    ensures { result ≡ words_of_rows (rows_of (found_of matches.now)) }
{
    Some(Words {
        mode: mode_in(matches)?,
        workers: number_of(matches, "workers", 1, 8, 2)?,
        seed: number_of(matches, "seed", 0, u32::MAX, 1)?,
        size: number_of(matches, "size", 1, 10000, 100)?,
    })
}

fn answer(said: Option<Words>) -> Result<Words, WordsFault>
    ensures { ReadsWords result said }
{
    match said {
        Some(words) => Ok(words),
        None => Err(WordsFault::BadWords),
    }
}

fn fault(reason: ErrorKind) -> WordsFault
    ensures { FaultBy reason result }
{
    match reason {
        ErrorKind::OutOfMemory => WordsFault::Memory,
        _ => WordsFault::BadWords,
    }
}

/// What the arguments say, without the program's name: one of them is the mode, and each option stands
/// among them at most once, as two words or with `=`, in any order. `BadWords` comes exactly where they say
/// nothing, so also for a request for help.
pub fn read_words(alloc: Global, words: &[Txt]) -> Result<Words, WordsFault>
    ensures read { ReadsWords result (words_in words.now) }
    ensures workers { IfOk result (λ words. (1 ≤ words.workers) × (words.workers ≤ 8)) }
    ensures size { IfOk result (λ words. (1 ≤ words.size) × (words.size ≤ 10000)) }
{
    let Ok(texts) = texts_of(alloc, words) else {
        return Err(WordsFault::Memory);
    };
    match matches_in(alloc, texts.as_slice()) {
        Ok(matches) => answer(words_of(&matches)),
        Err(error) => Err(fault(error.kind())),
    }
}

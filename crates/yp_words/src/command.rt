//! The command, as `clap` has it.
ghost use Rattle.std.specs.Prelude.{◌≡◌, [], false, map, IfOk, IfErr};
ghost use Rattle.clap.specs.Words.{HasKind, app_of, fault_of, found_of, matches_of, rows_of, rule_of};
ghost use Rattle.yp_words.specs.Words.{mode_rule, number_rule, push_app, seed_option, size_option, workers_option};

use clap::{Arg, ArgMatches, Command, Error, value_parser};
use std::alloc::{AllocError, Global};
use yp_base::txt::Txt;

const VERSION: &str = "0.1.0";

const ABOUT: &str = "A YANG-Push publisher (RFC 8641) with its receivers, run by a script";

const MODE: &str = "run: reads a script, writes the report of its run{n}\
    live: reads a script, runs its lanes, workers and receivers by threads, writes the report of that run{n}\
    replay: reads a schema and a receiver's notifications, writes the trees that they make{n}\
    gen: writes a script that is drawn from the seed{n}\
    trial: runs such a script, writes a summary";

const WORKERS: &str = "How many workers live runs, 1 to 8 [default: 2]";

const SEED: &str = "From which number gen and trial draw, 0 to 4294967295 [default: 1]";

const SIZE: &str = "How many commands gen and trial draw, 1 to 10000 [default: 100]";

const STREAMS: &str = "Input comes from standard input, and output goes to standard output.";

fn mode_arg<'a>(alloc: Global) -> Arg<'a>
    ensures rule { rule_of result ≡ mode_rule }
    ensures local { result.global ≡ false }
{
    Arg::new(alloc, "mode")
        .value_name("MODE")
        .required(true)
        .help(MODE)
}

fn workers_arg<'a>(alloc: Global) -> Arg<'a>
    ensures rule { rule_of result ≡ number_rule workers_option }
    ensures local { result.global ≡ false }
{
    Arg::new(alloc, "workers")
        .long("workers")
        .value_name("N")
        .value_parser(value_parser!(u32).range(1..=8))
        .help(WORKERS)
}

fn seed_arg<'a>(alloc: Global) -> Arg<'a>
    ensures rule { rule_of result ≡ number_rule seed_option }
    ensures local { result.global ≡ false }
{
    Arg::new(alloc, "seed")
        .long("seed")
        .value_name("N")
        .value_parser(value_parser!(u32))
        .help(SEED)
}

fn size_arg<'a>(alloc: Global) -> Arg<'a>
    ensures rule { rule_of result ≡ number_rule size_option }
    ensures local { result.global ≡ false }
{
    Arg::new(alloc, "size")
        .long("size")
        .value_name("N")
        .value_parser(value_parser!(u32).range(1..=10000))
        .help(SIZE)
}

/// The command `push`, with its help and its version.
fn command<'a>(alloc: Global) -> Result<Command<'a>, AllocError>
    ensures { IfOk result (λ command. app_of command ≡ push_app) }
{
    let command = Command::new(alloc, "push")
        .no_binary_name(true)
        .version(VERSION)
        .about(ABOUT)
        .after_help(STREAMS);
    let command = command.arg(mode_arg(alloc))?;
    let command = command.arg(workers_arg(alloc))?;
    let command = command.arg(seed_arg(alloc))?;
    command.arg(size_arg(alloc))
}

/// What the command makes of words: their matches, or the reason for which it refuses them.
pub(crate) fn matches_in<'a>(alloc: Global, words: &'a [&'a str]) -> Result<ArgMatches<'a>, Error>
    ensures taken { IfOk result (λ matches. (fault_of push_app (map (λ word. word.now) words.entry.now) ≡ [])
        × (rows_of (found_of matches) ≡ matches_of push_app (map (λ word. word.now) words.entry.now))) }
    ensures refused { IfErr result (HasKind (fault_of push_app (map (λ word. word.now) words.entry.now))) }
{
    let command = command(alloc)?;
    command.try_get_matches_from(words)
}

/// The words, borrowed.
pub(crate) fn texts_of<'a>(alloc: Global, words: &'a [Txt]) -> Result<Vec<&'a str>, AllocError>
    ensures { IfOk result (λ texts. map (λ text. text.now) texts.items ≡ words.entry.now) }
{
    let mut texts = Vec::with_capacity(alloc, words.len())?;
    for word in words {
        texts.push(word.as_str())?;
    }
    Ok(texts)
}

//! Words that are good, with what they say, words that are bad, and the texts that are shown.
use crate::help::help_text;
use crate::laws::{bad_words_by_example, good_words_by_example};
use crate::words::{Mode, Words, WordsFault, read_words};
use std::alloc::Global;
use std::test::Fail;
use yp_base::memory::NoMemory;
use yp_base::txt::{Txt, text_of};

// The words of a line, one after each space.
fn words_of(alloc: Global, line: &str) -> Result<Vec<Txt>, NoMemory> {
    let mut words = Vec::new(alloc);
    for word in line.split(' ') {
        words.push(text_of(alloc, word)?)?;
    }
    Ok(words)
}

// A line, and the mode, the workers, the seed and the size that it says.
const GOOD: [(&str, Mode, u32, u32, u32); 17] = [
    ("run", Mode::Run, 2, 1, 100),
    ("live", Mode::Live, 2, 1, 100),
    ("replay", Mode::Replay, 2, 1, 100),
    ("gen", Mode::Gen, 2, 1, 100),
    ("trial", Mode::Trial, 2, 1, 100),
    ("-- trial", Mode::Trial, 2, 1, 100),
    ("run --workers 2 --seed 5 --size 7", Mode::Run, 2, 5, 7),
    ("--size=1 trial --seed=1", Mode::Trial, 2, 1, 1),
    ("live --workers 8", Mode::Live, 8, 1, 100),
    ("--workers=+01 --seed 5 live", Mode::Live, 1, 5, 100),
    ("--workers=1 --size 10000 replay", Mode::Replay, 1, 1, 10000),
    (
        "--seed 4294967295 gen --workers 8",
        Mode::Gen,
        8,
        4_294_967_295,
        100,
    ),
    ("--seed=0 -- gen", Mode::Gen, 2, 0, 100),
    ("trial --size +001", Mode::Trial, 2, 1, 1),
    ("trial --size=+001 --seed 001", Mode::Trial, 2, 1, 1),
    ("gen --seed=-0", Mode::Gen, 2, 0, 100),
    (
        "gen --seed 0000000000000000000000000000000000000000000000000000000000000000007",
        Mode::Gen,
        2,
        7,
        100,
    ),
];

const BAD: [&str; 35] = [
    "",
    "lives",
    "Live",
    "Run",
    "run ",
    "help",
    "--",
    "-- --help",
    "run run",
    "run gen",
    "run live",
    "--run",
    "-x run",
    "run --other",
    "run --workers 9",
    "live --workers 0",
    "run --workers 0",
    "run --workers=",
    "run --workers 1 --workers 2",
    "trial --size 0",
    "trial --size 10001",
    "trial --size=-1",
    "trial --size 1 --size 1",
    "trial --size 1.0",
    "trial --size 0x1",
    "trial --seed 4294967296",
    "trial --seed -0",
    "trial --seed x",
    "trial --seed",
    "trial --see 1",
    "--help",
    "-h",
    "run --help",
    "--version",
    "run -V",
];

#[test]
fn words_say_a_mode_and_numbers(rt: HostRuntime) -> Result<(), Fail> {
    let alloc = rt.alloc();
    for (line, mode, workers, seed, size) in GOOD {
        let words = words_of(alloc, line)?;
        let want = Words {
            mode,
            workers,
            seed,
            size,
        };
        assert!(rt; read_words(alloc, words.as_slice()) == Ok(want), "{line}");
    }
    Ok(())
}

#[test]
fn other_words_are_bad(rt: HostRuntime) -> Result<(), Fail> {
    let alloc = rt.alloc();
    for line in BAD {
        let words = words_of(alloc, line)?;
        assert!(rt;
            read_words(alloc, words.as_slice()) == Err(WordsFault::BadWords),
            "{line}"
        );
    }
    let none = Vec::new(alloc);
    assert!(rt; read_words(alloc, none.as_slice()) == Err(WordsFault::BadWords));
    good_words_by_example();
    bad_words_by_example();
    Ok(())
}

// Whether the words of a line are answered with a text that has each of these parts.
fn shows(alloc: Global, line: &str, parts: &[&str]) -> Result<bool, Fail> {
    let words = words_of(alloc, line)?;
    let Some(text) = help_text(alloc, words.as_slice())? else {
        return Ok(false);
    };
    let text = text.as_str();
    Ok(parts.iter().all(|part| text.contains(*part)))
}

#[test]
fn help_names_each_mode_and_option(rt: HostRuntime) -> Result<(), Fail> {
    let alloc = rt.alloc();
    let parts = [
        "Usage: push [OPTIONS] <MODE>",
        "run:",
        "live:",
        "replay:",
        "gen:",
        "trial:",
        "--workers <N>",
        "How many workers live runs, 1 to 8 [default: 2]",
        "--seed <N>",
        "--size <N>",
    ];
    for line in ["--help", "-h", "run --help", "--seed 3 -h"] {
        assert!(rt; shows(alloc, line, parts.as_slice())?, "{line}");
    }
    Ok(())
}

#[test]
fn the_version_is_shown_and_other_words_have_no_text(rt: HostRuntime) -> Result<(), Fail> {
    let alloc = rt.alloc();
    for line in ["--version", "-V", "gen --version"] {
        assert!(rt; shows(alloc, line, ["push 0.1.0\n"].as_slice())?, "{line}");
    }
    for line in [
        "",
        "run",
        "live",
        "help",
        "-- --help",
        "run --size 0 --help",
    ] {
        assert!(rt; !shows(alloc, line, [].as_slice())?, "{line}");
    }
    let none = Vec::new(alloc);
    assert!(rt; help_text(alloc, none.as_slice())?.is_none());
    Ok(())
}

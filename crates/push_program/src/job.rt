//! What is asked of the program.
ghost use Rattle.std.specs.Prelude.{◌≡◌};
ghost use Rattle.push_program.specs.Jobs.{job_of, reads};

use yp_words::words::{Mode, Words};

/// What is asked of the program.
#[derive(Debug, Clone, Copy, PartialEq, Eq, Drop)]
pub enum Job {
    /// Run a script, and write the report of its run.
    Run,
    /// Run the lanes, the receivers and so many workers of a script by threads, and write the report of that run.
    Live { workers: u32 },
    /// Make trees of the lines of a saved stream, and write these.
    Replay,
    /// Write the script that is drawn from a seed, with so many drawn commands, from 1 to 10,000.
    Gen { seed: u32, size: u32 },
    /// Run such a script, and write what its report comes to.
    Trial { seed: u32, size: u32 },
}

/// What words ask for.
pub fn job_of(words: Words) -> Job
    ensures { result ≡ job_of words.mode words }
{
    let Words {
        mode,
        workers,
        seed,
        size,
    } = words;
    match mode {
        Mode::Run => Job::Run,
        Mode::Live => Job::Live { workers },
        Mode::Replay => Job::Replay,
        Mode::Gen => Job::Gen { seed, size },
        Mode::Trial => Job::Trial { seed, size },
    }
}

impl Job {
    /// Whether the source is read for it.
    pub fn reads(&self) -> bool
        ensures { result ≡ reads self.now }
    {
        match self {
            Job::Run => true,
            Job::Live { .. } => true,
            Job::Replay => true,
            Job::Gen { .. } => false,
            Job::Trial { .. } => false,
        }
    }
}

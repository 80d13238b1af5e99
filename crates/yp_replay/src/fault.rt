//! Why a stream isn't replayed.
ghost use Rattle.std.specs.Prelude.{◌≡◌};
ghost use Rattle.yp_replay.specs.Faults.{stream_kind_number, line_fault};

use yp_base::memory::NoMemory;
use yp_command::fault::ScriptKind;
use yp_decode::fault::StreamFault;
use yp_script::fault::ScriptFault;

/// The kind of a notification line's fault, with the number that the program tells.
#[derive(Debug, Clone, Copy, PartialEq, Eq, Drop)]
pub enum StreamKind {
    /// 1: the line isn't JSON
    NotJson,
    /// 2: the envelope is none
    Envelope,
    /// 3: the name of the notification is unknown
    UnknownNotice,
    /// 4: a member is missing, unknown or wrong
    Member,
    /// 5: a target is none of an edit
    Target,
    /// 6: data have a fault
    Data,
}

impl StreamKind {
    /// The number that the program tells.
    pub fn number(self) -> u32
        ensures { result ≡ stream_kind_number self }
    {
        match self {
            StreamKind::NotJson => 1,
            StreamKind::Envelope => 2,
            StreamKind::UnknownNotice => 3,
            StreamKind::Member => 4,
            StreamKind::Target => 5,
            StreamKind::Data => 6,
        }
    }
}

/// Why a stream isn't replayed: its first line with a fault, or that memory ran out.
#[derive(Debug, Drop, Clone, Copy, PartialEq, Eq, thiserror::Error)]
pub enum ReplayFault {
    /// A line has a fault that it would have in a script.
    #[error("line {line}: {kind:?}")]
    Script { line: u32, kind: ScriptKind },
    /// A notification line is none.
    #[error("stream line {line}: {kind:?}")]
    Stream { line: u32, kind: StreamKind },
    /// Memory ran out. It says nothing of the lines.
    #[error("out of memory")]
    Memory,
}

impl From<NoMemory> for ReplayFault {
    ghost use Rattle.std.specs.Prelude.{◌≡◌};
    ghost use Rattle.yp_replay.specs.declared.fault.ReplayFault.TheVariants.{Memory};

    ghost from_gives = { λ _ e. e ≡ Memory };

    fn from(_error: NoMemory) -> ReplayFault {
        ReplayFault::Memory
    }
}

impl From<ScriptFault> for ReplayFault {
    ghost use Rattle.std.specs.Prelude.{◌≡◌};
    ghost use Rattle.yp_replay.specs.Faults.{first_lines_fault};

    ghost from_gives = { λ fault e. e ≡ first_lines_fault fault };

    fn from(fault: ScriptFault) -> ReplayFault {
        match fault {
            ScriptFault::At { line, kind: flaw } => ReplayFault::Script {
                line,
                kind: flaw.kind,
            },
            ScriptFault::Memory => ReplayFault::Memory,
        }
    }
}

/// What is told of a notification line of this number that has this fault.
pub fn line_fault(line: u32, fault: StreamFault) -> ReplayFault
    ensures { result ≡ line_fault line fault }
{
    let kind = match fault {
        StreamFault::NotJson => StreamKind::NotJson,
        StreamFault::Envelope => StreamKind::Envelope,
        StreamFault::UnknownNotice => StreamKind::UnknownNotice,
        StreamFault::Member => StreamKind::Member,
        StreamFault::Target(_) => StreamKind::Target,
        StreamFault::Data(_) => StreamKind::Data,
        StreamFault::Memory => return ReplayFault::Memory,
    };
    ReplayFault::Stream { line, kind }
}

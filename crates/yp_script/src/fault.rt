//! What is wrong with a script.

use yp_base::memory::NoMemory;
use yp_command::fault::Flaw;
use yp_command::halt::Halt;

/// Why a script wasn't read: its first line with a fault, or want of memory.
#[derive(Debug, Drop, thiserror::Error)]
pub enum ScriptFault {
    #[error("line {line}: {kind}")]
    At { line: u32, kind: Flaw },
    #[error("no memory")]
    Memory,
}

impl From<NoMemory> for ScriptFault {
    ghost use Rattle.std.specs.Prelude.{◌≡◌};
    ghost use Rattle.yp_script.specs.declared.fault.ScriptFault.TheVariants.{Memory};

    ghost from_gives = { λ _ e. e ≡ Memory };

    fn from(_error: NoMemory) -> ScriptFault {
        ScriptFault::Memory
    }
}

impl From<ScriptFault> for Halt {
    ghost use Rattle.std.specs.Prelude.{◌≡◌};
    ghost use Rattle.yp_script.specs.Readings.{halt_of};

    ghost from_gives = { λ fault e. e ≡ halt_of fault };

    fn from(fault: ScriptFault) -> Halt {
        match fault {
            ScriptFault::At { kind, .. } => Halt::Fault(kind),
            ScriptFault::Memory => Halt::Memory,
        }
    }
}

//! What stops the reading of a line.
ghost use Rattle.std.specs.Prelude.{◌≡◌, Ok, IfOk, is_ok};
ghost use Rattle.yp_command.specs.Faults.{Said, least, both, holding};
ghost use Rattle.yp_command.specs.Readings.{Tells, beside};

use crate::fault::{Flaw, ScriptKind};
use std::alloc::AllocError;
use yp_base::memory::NoMemory;
use yp_cause::cause::Cause;

/// Why a line or a part of it says nothing: its least fault, or want of memory.
#[derive(Debug, Drop)]
pub enum Halt {
    Fault(Flaw),
    Memory,
}

impl From<Flaw> for Halt {
    ghost use Rattle.std.specs.Prelude.{◌≡◌};
    ghost use Rattle.yp_command.specs.declared.halt.Halt.TheVariants.{Fault};

    ghost from_gives = { λ flaw e. e ≡ Fault flaw };

    fn from(flaw: Flaw) -> Halt {
        Halt::Fault(flaw)
    }
}

impl From<NoMemory> for Halt {
    ghost use Rattle.std.specs.Prelude.{◌≡◌};
    ghost use Rattle.yp_command.specs.declared.halt.Halt.TheVariants.{Memory};

    ghost from_gives = { λ _ e. e ≡ Memory };

    fn from(_error: NoMemory) -> Halt {
        Halt::Memory
    }
}

impl From<AllocError> for Halt {
    ghost use Rattle.std.specs.Prelude.{◌≡◌};
    ghost use Rattle.yp_command.specs.declared.halt.Halt.TheVariants.{Memory};

    ghost from_gives = { λ _ e. e ≡ Memory };

    fn from(_error: AllocError) -> Halt {
        Halt::Memory
    }
}

/// Which of two faults of a line is told: the one with the lesser number, and of two of one kind the first.
pub fn least(flaw: Flaw, other: Flaw) -> Flaw
    ensures { result ≡ least flaw other }
{
    if flaw.kind.number() <= other.kind.number() {
        flaw
    } else {
        other
    }
}

/// What stops a part of a line that has this fault too.
pub fn beside(flaw: Flaw, halt: Halt) -> Halt
    ensures { result ≡ beside flaw halt }
{
    match halt {
        Halt::Fault(other) => Halt::Fault(least(flaw, other)),
        Halt::Memory => Halt::Memory,
    }
}

/// A part of a line that has a fault of this kind too, of the cause that a test gives, unless the test holds.
pub fn holding<X: Drop>(
    kind: ScriptKind,
    test: Result<(), Cause>,
    part: Result<X, Halt>,
) -> Result<X, Halt>
    ensures read { (said : Said X) → Tells part said → Tells result (holding kind (is_ok test) said) }
    ensures same { IfOk result (λ x. part ≡ Ok x) }
{
    match test {
        Ok(()) => part,
        Err(cause) => {
            let flaw = Flaw { kind, cause };
            match part {
                Ok(_) => Err(Halt::Fault(flaw)),
                Err(halt) => Err(beside(flaw, halt)),
            }
        }
    }
}

/// Both of two parts of a line, or what stops them: where both have faults the one that is told.
pub fn both<X: Drop, Y: Drop>(part: Result<X, Halt>, other: Result<Y, Halt>) -> Result<(X, Y), Halt>
    ensures read { (said : Said X) (second : Said Y) → Tells part said → Tells other second → Tells result (both said second) }
    ensures part { IfOk result (λ parts. part ≡ Ok parts.0) }
    ensures other { IfOk result (λ parts. other ≡ Ok parts.1) }
{
    match part {
        Ok(x) => Ok((x, other?)),
        Err(Halt::Fault(flaw)) => match other {
            Ok(_) => Err(Halt::Fault(flaw)),
            Err(halt) => Err(beside(flaw, halt)),
        },
        Err(Halt::Memory) => Err(Halt::Memory),
    }
}

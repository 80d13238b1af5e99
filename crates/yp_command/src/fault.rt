//! The faults of a line: their kinds, and what they are about.
ghost use Rattle.std.specs.Prelude.{◌≡◌};
ghost use Rattle.yp_command.specs.declared.fault.ScriptKind.TheVariants.{Member, Limit, Instant};
ghost use Rattle.yp_command.specs.Faults.{fault_number};

use std::alloc::Global;
use std::error::Error;
use std::fmt;
use std::marker::Model;
use yp_cause::cause::{Cause, Wrong};
use yp_cause::excerpt::Excerpt;

/// The kind of a line's fault, with the number that the program tells.
#[derive(Debug, Clone, Copy, PartialEq, Eq, Drop)]
pub enum ScriptKind {
    /// 1: the line is too long
    TooLong,
    /// 2: the line isn't JSON
    NotJson,
    /// 3: the line is of no known form
    UnknownCommand,
    /// 4: a member is missing, unknown or wrong
    Member,
    /// 5: a schema has a fault
    Schema,
    /// 6: a policy has a fault
    Policy,
    /// 7: a patch has a fault
    Patch,
    /// 8: the line may not stand here
    Order,
    /// 9: a number is out of its range
    Limit,
    /// 10: an instant has a fault
    Instant,
}

impl ScriptKind {
    /// The number that the program tells.
    pub fn number(self) -> u32
        ensures { result ≡ fault_number self }
    {
        match self {
            ScriptKind::TooLong => 1,
            ScriptKind::NotJson => 2,
            ScriptKind::UnknownCommand => 3,
            ScriptKind::Member => 4,
            ScriptKind::Schema => 5,
            ScriptKind::Policy => 6,
            ScriptKind::Patch => 7,
            ScriptKind::Order => 8,
            ScriptKind::Limit => 9,
            ScriptKind::Instant => 10,
        }
    }
}

/// A fault of a line, and its cause. Contracts see its kind; the cause is for people.
#[derive(Drop)]
pub struct Flaw {
    pub kind: ScriptKind,
    pub cause: Cause,
}

impl Model for Flaw {
    ghost use Rattle.yp_command.specs.declared.fault.ScriptKind.{ScriptKind};

    ghost Value = { ScriptKind };

    ghost view = { λ f. f.kind };
}

impl fmt::Display for Flaw {
    fn fmt<W: fmt::Write>(&self, f: &mut fmt::Formatter<W>) -> fmt::Result {
        write!(f, "{}", self.cause)
    }
}

impl fmt::Debug for Flaw {
    fn fmt<W: fmt::Write>(&self, f: &mut fmt::Formatter<W>) -> fmt::Result {
        write!(f, "{self}")
    }
}

impl Error for Flaw {}

impl Flaw {
    /// A fault of this kind, of this cause.
    pub fn of(kind: ScriptKind, cause: Cause) -> Flaw
        ensures { result ≡ kind }
    {
        Flaw { kind, cause }
    }

    /// A fault of members, of this cause.
    pub fn member(cause: Cause) -> Flaw
        ensures { result ≡ Member }
    {
        Flaw::of(ScriptKind::Member, cause)
    }

    /// A member of this name is not what it must be, as these words say.
    pub fn wrong(name: &'static str, words: &'static str) -> Flaw
        ensures { result ≡ Member }
    {
        Flaw::member(Cause::member(name, words))
    }

    /// A number is out of its range, whose ends are in it.
    pub fn out_of_range(name: &'static str, low: u64, high: u64) -> Flaw
        ensures { result ≡ Limit }
    {
        Flaw::of(
            ScriptKind::Limit,
            Cause::of(Wrong::OutOfRange { name, low, high }),
        )
    }

    /// A script has more of these than it may have.
    pub fn too_many(most: u64, what: &'static str) -> Flaw
        ensures { result ≡ Limit }
    {
        Flaw::of(ScriptKind::Limit, Cause::of(Wrong::TooMany { most, what }))
    }

    /// The text of a member is no instant.
    pub fn no_instant(alloc: Global, name: &'static str, text: &str) -> Flaw
        ensures { result ≡ Instant }
    {
        Flaw::of(
            ScriptKind::Instant,
            Cause::about(Wrong::NoInstant { name }, Excerpt::of(alloc, text)),
        )
    }
}

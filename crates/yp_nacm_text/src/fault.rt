//! What is wrong with a policy, and where.
use std::alloc::{AllocError, AllocFailed};
use std::fmt;
use yp_base::memory::NoMemory;
use yp_path::fault::PathFault;

/// What of a policy has a fault. Groups, rule lists and the rules of a list count from 0 here, and from 1
/// in messages.
#[derive(Debug, Drop, Clone, Copy, PartialEq, Eq)]
pub enum Place {
    /// The policy itself, with its switches and what holds its groups and rule lists.
    Policy,
    /// A group.
    Group(usize),
    /// A rule list, but not its rules.
    List(usize),
    /// A rule of a rule list.
    Rule { list: usize, rule: usize },
}

impl fmt::Display for Place {
    fn fmt<W: fmt::Write>(&self, f: &mut fmt::Formatter<W>) -> fmt::Result {
        match self {
            Place::Policy => write!(f, "policy"),
            Place::Group(group) => write!(f, "group {}", group.saturating_add(1)),
            Place::List(list) => write!(f, "rule list {}", list.saturating_add(1)),
            Place::Rule { list, rule } => write!(
                f,
                "rule list {}, rule {}",
                list.saturating_add(1),
                rule.saturating_add(1)
            ),
        }
    }
}

/// What is wrong at a place; of its faults the first in this order.
#[derive(Debug, Drop, Clone, Copy, PartialEq, Eq, thiserror::Error)]
pub enum PolicyKind {
    /// A member is missing, unknown or of a wrong kind, a default is neither `permit` nor `deny`, or a
    /// rule has two rule types.
    #[error("a member is missing, unknown or bad, or there are two rule types")]
    Member,
    /// The path has this fault, which is never that memory ran out.
    #[error("{0}")]
    Path(PathFault),
    /// The access operations are neither `*` nor different words of `create`, `read`, `update`, `delete`
    /// and `exec` with a space between each two.
    #[error("the access operations are neither * nor different words")]
    Operation,
    /// The action is missing, or neither `permit` nor `deny`.
    #[error("the action is neither permit nor deny")]
    Action,
    /// A group, a rule list, or a rule of the same list before has the name.
    #[error("the name was there before")]
    DuplicateName,
}

/// The first fault of a policy, or that memory ran out.
#[derive(Debug, Drop, Clone, Copy, PartialEq, Eq, thiserror::Error)]
pub enum PolicyFault {
    #[error("{place}: {kind}")]
    At { place: Place, kind: PolicyKind },
    #[error("out of memory")]
    Memory,
}

impl From<NoMemory> for PolicyFault {
    ghost use Rattle.std.specs.Prelude.{◌≡◌};
    ghost use Rattle.yp_nacm_text.specs.declared.fault.PolicyFault.TheVariants.{Memory};

    ghost from_gives = { λ _ e. e ≡ Memory };

    fn from(_error: NoMemory) -> PolicyFault {
        PolicyFault::Memory
    }
}

impl From<AllocError> for PolicyFault {
    ghost use Rattle.std.specs.Prelude.{◌≡◌};
    ghost use Rattle.yp_nacm_text.specs.declared.fault.PolicyFault.TheVariants.{Memory};

    ghost from_gives = { λ _ e. e ≡ Memory };

    fn from(_error: AllocError) -> PolicyFault {
        PolicyFault::Memory
    }
}

impl<T: Drop> From<AllocFailed<T>> for PolicyFault {
    ghost use Rattle.std.specs.Prelude.{◌≡◌};
    ghost use Rattle.yp_nacm_text.specs.declared.fault.PolicyFault.TheVariants.{Memory};

    ghost from_gives = { λ _ e. e ≡ Memory };

    fn from(_error: AllocFailed<T>) -> PolicyFault {
        PolicyFault::Memory
    }
}

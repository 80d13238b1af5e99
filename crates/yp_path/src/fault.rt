//! What is wrong with a path's text.
ghost use Rattle.std.specs.Prelude.{◌≡◌};
ghost use Rattle.yp_path.specs.declared.fault.PathFault.TheVariants.{Syntax, Memory};

use std::alloc::{AllocFailed, Global};
use std::error::Error;
use std::fmt;
use std::marker::Model;
use yp_base::memory::NoMemory;
use yp_base::txt::{Txt, text_of};

/// What is wrong with the leftmost segment that has a fault; of its faults the first in this order.
#[derive(Debug, Drop, Clone, Copy, PartialEq, Eq, thiserror::Error)]
pub enum PathFault {
    /// No leading `/`, or an empty name. In a target also a `%` without two hexadecimal digits in a key,
    /// or a key that isn't UTF-8 after decoding; in a rule's path a predicate that is not of the form
    /// `[name='value']` or `[name="value"]`.
    #[error("the path has a syntax error")]
    Syntax,
    /// The name is neither the member form nor the qualified name of a child.
    #[error("the path names a node that the schema does not have")]
    UnknownNode,
    /// In a target there are more or fewer keys than the node has; in a rule's path a predicate names no
    /// key of the node, or a key twice.
    #[error("the path has a wrong number of keys for a node")]
    KeyCount,
    /// A key isn't a value of its type.
    #[error("a key of the path is not a value of its type")]
    KeyValue,
    /// Memory ran out.
    #[error("out of memory")]
    Memory,
}

impl From<NoMemory> for PathFault {
    ghost use Rattle.std.specs.Prelude.{◌≡◌};
    ghost use Rattle.yp_path.specs.declared.fault.PathFault.TheVariants.{Memory};

    ghost from_gives = { λ _ e. e ≡ Memory };

    fn from(_error: NoMemory) -> PathFault {
        PathFault::Memory
    }
}

/// What is wrong with a path's text, and where. Contracts see what is wrong; where is for people.
#[derive(Drop)]
pub struct PathError {
    pub fault: PathFault,
    /// the segment that has the fault, counted from 1; `None` where the path has no leading `/`, and where
    /// memory ran out
    pub segment: Option<usize>,
    /// the name of the segment as it stands in the path; `None` also where there was no memory for it
    pub name: Option<Txt>,
    /// the node of the schema that the segment names, if it names one
    pub node: Option<u32>,
}

impl Model for PathError {
    ghost use Rattle.yp_path.specs.declared.fault.PathFault.{PathFault};

    ghost Value = { PathFault };

    ghost view = { λ e. e.fault };
}

impl fmt::Display for PathError {
    fn fmt<W: fmt::Write>(&self, f: &mut fmt::Formatter<W>) -> fmt::Result {
        if let Some(segment) = self.segment {
            write!(f, "segment {segment} of the path")?;
            if let Some(name) = &self.name {
                write!(f, ", {:?}", name.as_str())?;
            }
            write!(f, ": ")?;
        }
        write!(f, "{}", self.fault)
    }
}

impl fmt::Debug for PathError {
    fn fmt<W: fmt::Write>(&self, f: &mut fmt::Formatter<W>) -> fmt::Result {
        write!(f, "{self}")
    }
}

impl Error for PathError {}

impl PathError {
    /// No leading `/`.
    pub(crate) fn rootless() -> PathError
        ensures { result ≡ Syntax }
    {
        PathError::whole(PathFault::Syntax)
    }

    /// A fault of no segment.
    fn whole(fault: PathFault) -> PathError
        ensures { result ≡ fault }
    {
        PathError {
            fault,
            segment: None,
            name: None,
            node: None,
        }
    }

    /// A fault of the segment of this name that comes after so many others.
    pub(crate) fn at(
        alloc: Global,
        fault: PathFault,
        before: usize,
        name: &str,
        node: Option<u32>,
    ) -> PathError
        ensures { result ≡ fault }
    {
        match fault {
            PathFault::Memory => PathError::whole(fault),
            _ => PathError {
                fault,
                segment: Some(before.saturating_add(1)),
                name: text_of(alloc, name).ok(),
                node,
            },
        }
    }
}

impl From<NoMemory> for PathError {
    ghost use Rattle.std.specs.Prelude.{◌≡◌};
    ghost use Rattle.yp_path.specs.declared.fault.PathFault.TheVariants.{Memory};

    ghost from_gives = { λ _ e. e ≡ Memory };

    fn from(_error: NoMemory) -> PathError {
        PathError::whole(PathFault::Memory)
    }
}

impl<T: Drop> From<AllocFailed<T>> for PathError {
    ghost use Rattle.std.specs.Prelude.{◌≡◌};
    ghost use Rattle.yp_path.specs.declared.fault.PathFault.TheVariants.{Memory};

    ghost from_gives = { λ _ e. e ≡ Memory };

    fn from(_error: AllocFailed<T>) -> PathError {
        PathError::whole(PathFault::Memory)
    }
}

//! What is wrong with a filter.
ghost use Rattle.std.specs.Prelude.{◌≡◌};

use crate::naming::Place;
use std::alloc::{AllocFailed, Global};
use std::error::Error;
use std::fmt;
use std::marker::Model;
use yp_base::txt::{Txt, text_of};

/// The first fault of a filter, or that memory ran out.
#[derive(Debug, Drop, Clone, Copy, PartialEq, Eq, thiserror::Error)]
pub enum FilterFault {
    /// The filter isn't an object, or a member is neither a value to match nor an object, `[null]`, or an
    /// array of one or more objects.
    #[error("the filter or a member of it has a wrong form")]
    Shape,
    /// A value to match is not one of its leaf's type, or stands at a container or a list.
    #[error("a value of the filter is not one of its leaf's type")]
    Value,
    /// More than 16 sets nest.
    #[error("the sets of the filter nest too deep")]
    TooDeep,
    /// Memory ran out.
    #[error("out of memory")]
    Memory,
}

/// A member of a filter.
#[derive(Drop)]
pub struct FilterMember {
    /// its name; `None` where there was no memory for it
    pub name: Option<Txt>,
    /// the node of the schema below which it stands; `None` at the top, and below a name that the schema does
    /// not have
    pub parent: Option<u32>,
}

/// What is wrong with a filter, and where. Contracts see what is wrong; where is for people.
#[derive(Drop)]
pub struct FilterError {
    pub fault: FilterFault,
    /// the member that has the fault; `None` where the filter isn't an object, and where memory ran out
    pub member: Option<FilterMember>,
}

impl Model for FilterError {
    ghost use Rattle.yp_filter.specs.declared.fault.FilterFault.{FilterFault};

    ghost Value = { FilterFault };

    ghost view = { λ e. e.fault };
}

impl fmt::Display for FilterError {
    fn fmt<W: fmt::Write>(&self, f: &mut fmt::Formatter<W>) -> fmt::Result {
        if let Some(member) = &self.member {
            if let Some(name) = &member.name {
                write!(f, "member {:?} of the filter: ", name.as_str())?;
            }
        }
        write!(f, "{}", self.fault)
    }
}

impl fmt::Debug for FilterError {
    fn fmt<W: fmt::Write>(&self, f: &mut fmt::Formatter<W>) -> fmt::Result {
        write!(f, "{self}")
    }
}

impl Error for FilterError {}

impl FilterError {
    /// A fault whose member is not told yet.
    pub(crate) fn bare(fault: FilterFault) -> FilterError
        ensures { result ≡ fault }
    {
        FilterError {
            fault,
            member: None,
        }
    }

    /// The same fault, at the member of this name at a place unless a member below has it.
    pub(crate) fn at(self, alloc: Global, place: Place, name: &str) -> FilterError
        ensures { result ≡ self }
    {
        if self.member.is_some() || self.fault == FilterFault::Memory {
            return self;
        }
        FilterError {
            fault: self.fault,
            member: Some(FilterMember {
                name: text_of(alloc, name).ok(),
                parent: place.parent(),
            }),
        }
    }
}

impl From<FilterFault> for FilterError {
    ghost use Rattle.std.specs.Prelude.{◌≡◌};

    ghost from_gives = { λ fault e. e ≡ fault };

    fn from(fault: FilterFault) -> FilterError {
        FilterError::bare(fault)
    }
}

impl<T: Drop> From<AllocFailed<T>> for FilterError {
    ghost use Rattle.std.specs.Prelude.{◌≡◌};
    ghost use Rattle.yp_filter.specs.declared.fault.FilterFault.TheVariants.{Memory};

    ghost from_gives = { λ _ e. e ≡ Memory };

    fn from(_error: AllocFailed<T>) -> FilterError {
        FilterError::bare(FilterFault::Memory)
    }
}

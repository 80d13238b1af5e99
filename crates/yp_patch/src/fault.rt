//! What is wrong with a patch's form.
ghost use Rattle.std.specs.Prelude.{◌≡◌};
ghost use Rattle.yp_patch.specs.declared.fault.PatchFault.TheVariants.{Shape, Memory};

use std::alloc::{AllocError, AllocFailed, Global};
use std::error::Error;
use std::fmt;
use std::marker::Model;
use yp_base::memory::NoMemory;
use yp_base::txt::{Txt, text_of};

/// What is wrong with the JSON of a patch, or that memory ran out.
#[derive(Debug, Drop, Clone, Copy, PartialEq, Eq, thiserror::Error)]
pub enum PatchFault {
    /// The JSON isn't a patch: a member is missing, unknown or of a wrong kind, stands where it may
    /// not, or an edit's id is there twice.
    #[error("no patch")]
    Shape,
    /// Memory ran out.
    #[error("no memory")]
    Memory,
}

/// What is wrong with the JSON of a patch, and where. Contracts see what is wrong; where is for people.
#[derive(Drop)]
pub struct PatchError {
    pub fault: PatchFault,
    /// the edit that has the fault, counted from 1; `None` where no edit has it, and where memory ran out
    pub edit: Option<usize>,
    /// the name of the member of the edit, or else of the patch, that is missing, unknown or wrong; `None`
    /// where there is no object, and where there was no memory for it
    pub member: Option<Txt>,
}

impl Model for PatchError {
    ghost use Rattle.yp_patch.specs.declared.fault.PatchFault.{PatchFault};

    ghost Value = { PatchFault };

    ghost view = { λ e. e.fault };
}

impl fmt::Display for PatchError {
    fn fmt<W: fmt::Write>(&self, f: &mut fmt::Formatter<W>) -> fmt::Result {
        if let Some(edit) = self.edit {
            write!(f, "edit {edit} of the patch: ")?;
        }
        if let Some(member) = &self.member {
            write!(f, "member {:?}: ", member.as_str())?;
        }
        write!(f, "{}", self.fault)
    }
}

impl fmt::Debug for PatchError {
    fn fmt<W: fmt::Write>(&self, f: &mut fmt::Formatter<W>) -> fmt::Result {
        write!(f, "{self}")
    }
}

impl Error for PatchError {}

impl PatchError {
    /// No patch, by this member.
    pub(crate) fn shape(alloc: Global, member: Option<&str>) -> PatchError
        ensures { result ≡ Shape }
    {
        PatchError {
            fault: PatchFault::Shape,
            edit: None,
            member: member.and_then(|name| text_of(alloc, name).ok()),
        }
    }

    /// Memory ran out.
    pub(crate) fn memory() -> PatchError
        ensures { result ≡ Memory }
    {
        PatchError {
            fault: PatchFault::Memory,
            edit: None,
            member: None,
        }
    }

    /// The same fault, in the edit that comes after so many others unless memory ran out.
    pub(crate) fn in_edit(self, before: usize) -> PatchError
        ensures { result ≡ self }
    {
        match self.fault {
            PatchFault::Shape => PatchError {
                edit: Some(before.saturating_add(1)),
                ..self
            },
            PatchFault::Memory => self,
        }
    }
}

impl From<NoMemory> for PatchError {
    ghost use Rattle.std.specs.Prelude.{◌≡◌};
    ghost use Rattle.yp_patch.specs.declared.fault.PatchFault.TheVariants.{Memory};

    ghost from_gives = { λ _ e. e ≡ Memory };

    fn from(_error: NoMemory) -> PatchError {
        PatchError::memory()
    }
}

impl From<AllocError> for PatchError {
    ghost use Rattle.std.specs.Prelude.{◌≡◌};
    ghost use Rattle.yp_patch.specs.declared.fault.PatchFault.TheVariants.{Memory};

    ghost from_gives = { λ _ e. e ≡ Memory };

    fn from(_error: AllocError) -> PatchError {
        PatchError::memory()
    }
}

impl<T: Drop> From<AllocFailed<T>> for PatchError {
    ghost use Rattle.std.specs.Prelude.{◌≡◌};
    ghost use Rattle.yp_patch.specs.declared.fault.PatchFault.TheVariants.{Memory};

    ghost from_gives = { λ _ e. e ≡ Memory };

    fn from(_error: AllocFailed<T>) -> PatchError {
        PatchError::memory()
    }
}

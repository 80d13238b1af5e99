//! Why a patch is refused.
use std::fmt;
use yp_base::memory::NoMemory;
use yp_base::txt::Txt;

/// The error of a refused edit (RFC 8072 section 2.7; the tags are those of RFC 6241 appendix A).
#[derive(Debug, Drop, Clone, Copy, PartialEq, Eq)]
pub enum Tag {
    /// The target or the value names a node that isn't in the schema.
    UnknownElement,
    /// The target or the value is wrong otherwise, the target is a key leaf, or the operation is an
    /// insert or a move.
    InvalidValue,
    /// An entry or presence container above the target isn't there, or nothing is there to delete.
    DataMissing,
    /// Something is there already where an edit creates.
    DataExists,
    /// After the edit the datastore would have more than 20,000 rows.
    TooBig,
}

/// Why a patch isn't applied.
#[derive(Drop, thiserror::Error)]
pub enum EditFault {
    /// This edit, counted from 0, is refused, with this error; the path is the text of its target where
    /// that is a key leaf.
    #[error("edit {edit} is refused: {tag:?}")]
    Refused {
        edit: u32,
        tag: Tag,
        path: Option<Txt>,
    },
    /// Memory ran out.
    #[error("no memory")]
    Memory,
}

impl fmt::Debug for EditFault {
    fn fmt<W: fmt::Write>(&self, f: &mut fmt::Formatter<W>) -> fmt::Result {
        write!(f, "{self}")
    }
}

impl From<NoMemory> for EditFault {
    ghost use Rattle.std.specs.Prelude.{◌≡◌};
    ghost use Rattle.yp_edit.specs.declared.fault.EditFault.TheVariants.{Memory};

    ghost from_gives = { λ _ e. e ≡ Memory };

    fn from(_error: NoMemory) -> EditFault {
        EditFault::Memory
    }
}

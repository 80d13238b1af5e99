//! What is wrong with data.
ghost use Rattle.std.specs.Prelude.{◌≡◌};
ghost use Rattle.yp_data_json.specs.declared.fault.DataFault.TheVariants.{UnknownElement, InvalidValue, Memory};

use std::alloc::{AllocError, AllocFailed, Global};
use std::fmt;
use std::marker::Model;
use yp_base::memory::NoMemory;
use yp_base::txt::{Txt, text_of};

/// What is wrong with data, or that memory ran out.
#[derive(Debug, Drop, Clone, Copy, PartialEq, Eq, thiserror::Error)]
pub enum DataFault {
    /// a member that is no child of its node
    #[error("unknown element")]
    UnknownElement,
    /// a wrong kind of JSON or a wrong value, or keys that aren't those of the path
    #[error("invalid value")]
    InvalidValue,
    /// an entry without one of its keys
    #[error("missing key")]
    MissingKey,
    /// a second entry of the same keys, or a second equal value of a leaf-list
    #[error("repeated key")]
    RepeatedKey,
    /// memory ran out
    #[error("no memory")]
    Memory,
}

/// What is wrong with data, and where. Contracts see what is wrong; where is for people.
#[derive(Drop, thiserror::Error)]
#[error("{fault}")]
pub struct DataError {
    pub fault: DataFault,
    /// the node at which it is, of the schema; `None` at the top of a datastore, and where memory ran out
    pub node: Option<u32>,
    /// the name of a member that is no child of the node
    pub member: Option<Txt>,
}

impl Model for DataError {
    ghost use Rattle.yp_data_json.specs.declared.fault.DataFault.{DataFault};

    ghost Value = { DataFault };

    ghost view = { λ e. e.fault };
}

impl fmt::Debug for DataError {
    fn fmt<W: fmt::Write>(&self, f: &mut fmt::Formatter<W>) -> fmt::Result {
        write!(f, "{self}")
    }
}

impl DataError {
    /// A wrong kind of JSON or a wrong value at a node.
    pub(crate) fn invalid(node: u32) -> DataError
        ensures { result ≡ InvalidValue }
    {
        DataError::at(DataFault::InvalidValue, node)
    }

    /// No object, at the top of a datastore.
    pub(crate) fn top() -> DataError
        ensures { result ≡ InvalidValue }
    {
        DataError {
            fault: DataFault::InvalidValue,
            node: None,
            member: None,
        }
    }

    /// A fault at a node.
    pub(crate) fn at(fault: DataFault, node: u32) -> DataError
        ensures { result ≡ fault }
    {
        DataError {
            fault,
            node: Some(node),
            member: None,
        }
    }

    /// A member that is no child of a node, or of the top of a datastore.
    pub(crate) fn unknown(alloc: Global, node: Option<u32>, name: &str) -> DataError
        ensures { result ≡ UnknownElement }
    {
        DataError {
            fault: DataFault::UnknownElement,
            node,
            member: txt(alloc, name),
        }
    }

    /// Memory ran out.
    pub(crate) fn memory() -> DataError
        ensures { result ≡ Memory }
    {
        DataError {
            fault: DataFault::Memory,
            node: None,
            member: None,
        }
    }
}

// A text, where there is memory for it.
fn txt(alloc: Global, text: &str) -> Option<Txt> {
    text_of(alloc, text).ok()
}

impl From<NoMemory> for DataError {
    ghost use Rattle.std.specs.Prelude.{◌≡◌};
    ghost use Rattle.yp_data_json.specs.declared.fault.DataFault.TheVariants.{Memory};

    ghost from_gives = { λ _ e. e ≡ Memory };

    fn from(_error: NoMemory) -> DataError {
        DataError::memory()
    }
}

impl From<AllocError> for DataError {
    ghost use Rattle.std.specs.Prelude.{◌≡◌};
    ghost use Rattle.yp_data_json.specs.declared.fault.DataFault.TheVariants.{Memory};

    ghost from_gives = { λ _ e. e ≡ Memory };

    fn from(_error: AllocError) -> DataError {
        DataError::memory()
    }
}

impl<T: Drop> From<AllocFailed<T>> for DataError {
    ghost use Rattle.std.specs.Prelude.{◌≡◌};
    ghost use Rattle.yp_data_json.specs.declared.fault.DataFault.TheVariants.{Memory};

    ghost from_gives = { λ _ e. e ≡ Memory };

    fn from(_error: AllocFailed<T>) -> DataError {
        DataError::memory()
    }
}

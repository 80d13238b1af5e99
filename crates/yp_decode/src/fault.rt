//! Why a line is no notification.
use std::alloc::{AllocError, AllocFailed};
use yp_base::memory::NoMemory;
use yp_data_json::fault::DataFault;
use yp_path::fault::PathFault;

/// What is wrong with the target of an edit.
#[derive(Debug, Drop, Clone, Copy, PartialEq, Eq, thiserror::Error)]
pub enum TargetFault {
    /// It is no path of the schema.
    #[error("{0}")]
    Path(PathFault),
    /// It ends at a key leaf of its list, which no edit can change.
    #[error("the path ends at a key leaf")]
    KeyLeaf,
}

/// Why a line is no notification. A line with faults of several kinds is told that of the kind that
/// stands first here.
#[derive(Debug, Drop, Clone, Copy, PartialEq, Eq, thiserror::Error)]
pub enum StreamFault {
    /// The line isn't UTF-8, or isn't one JSON text, or its arrays and objects nest deeper than 127.
    #[error("the line is no JSON text")]
    NotJson,
    /// The JSON isn't an object of the one member `ietf-restconf:notification`, that has no two members
    /// of which one is `eventTime`, or the event time is none of the years 1970 to 2999.
    #[error("the envelope is no notification with an event time")]
    Envelope,
    /// The notification's name is none that is served.
    #[error("the name of the notification is unknown")]
    UnknownNotice,
    /// A member of the notification or of an edit is missing, unknown or of a wrong kind, an operation
    /// is none of `create`, `delete` and `replace`, a reason is another one, or an edit's id is there
    /// twice.
    #[error("a member of the notification is missing, unknown or wrong")]
    Member,
    /// The first target with a fault has this one.
    #[error("the target of an edit: {0}")]
    Target(TargetFault),
    /// The first data with a fault, of the datastore or of an edit, has this one.
    #[error("the data of the notification: {0}")]
    Data(DataFault),
    /// Memory ran out. It says nothing of the line.
    #[error("out of memory")]
    Memory,
}

impl From<NoMemory> for StreamFault {
    ghost use Rattle.std.specs.Prelude.{◌≡◌};
    ghost use Rattle.yp_decode.specs.declared.fault.StreamFault.TheVariants.{Memory};

    ghost from_gives = { λ _ e. e ≡ Memory };

    fn from(_error: NoMemory) -> StreamFault {
        StreamFault::Memory
    }
}

impl From<AllocError> for StreamFault {
    ghost use Rattle.std.specs.Prelude.{◌≡◌};
    ghost use Rattle.yp_decode.specs.declared.fault.StreamFault.TheVariants.{Memory};

    ghost from_gives = { λ _ e. e ≡ Memory };

    fn from(_error: AllocError) -> StreamFault {
        StreamFault::Memory
    }
}

impl<T: Drop> From<AllocFailed<T>> for StreamFault {
    ghost use Rattle.std.specs.Prelude.{◌≡◌};
    ghost use Rattle.yp_decode.specs.declared.fault.StreamFault.TheVariants.{Memory};

    ghost from_gives = { λ _ e. e ≡ Memory };

    fn from(_error: AllocFailed<T>) -> StreamFault {
        StreamFault::Memory
    }
}

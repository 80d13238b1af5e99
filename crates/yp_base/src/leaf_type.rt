//! The types of leaves and leaf-lists.
ghost use Rattle.std.specs.Prelude.{◌≡◌, IfOk};

use crate::memory::{Duplicate, NoMemory};
use crate::series::Series;
use crate::txt::Txt;
use std::alloc::Global;

/// Names, in order.
pub type Names = Series<Txt>;

/// The type of a leaf or leaf-list (RFC 7950 section 9).
#[derive(Drop)]
pub enum LeafType {
    /// `boolean`
    Bool,
    /// `int8` to `int64`
    Int { bits: u8 },
    /// `uint8` to `uint64`
    Uint { bits: u8 },
    /// `decimal64` with its number of fraction digits, from 1 to 18
    Dec { places: u8 },
    /// `string`, of at most 256 bytes
    Text,
    /// `enumeration`, with its names in byte order
    Names(Names),
    /// `empty`
    Empty,
}

impl Duplicate for LeafType {
    fn copy(&self, alloc: Global) -> Result<LeafType, NoMemory> {
        Ok(match self {
            LeafType::Bool => LeafType::Bool,
            LeafType::Int { bits } => LeafType::Int { bits: *bits },
            LeafType::Uint { bits } => LeafType::Uint { bits: *bits },
            LeafType::Dec { places } => LeafType::Dec { places: *places },
            LeafType::Text => LeafType::Text,
            LeafType::Names(names) => LeafType::Names(names.copy(alloc)?),
            LeafType::Empty => LeafType::Empty,
        })
    }
}

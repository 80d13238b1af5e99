//! What is wrong with the parts of a schema.
use yp_base::memory::NoMemory;

/// What is wrong with a node.
#[derive(Debug, Drop, Clone, Copy, PartialEq, Eq, thiserror::Error)]
pub enum SchemaKind {
    /// A member is missing, unknown or bad, the path is bad, or there is no such parent. A part that is
    /// no array has this fault at place 0.
    #[error("a missing, unknown or bad member, or no such parent")]
    Member,
    /// The path was there.
    #[error("path twice")]
    Duplicate,
    /// A key names no child.
    #[error("a key that is no child")]
    NoKey,
    /// A key isn't a leaf, or it is of type empty (RFC 7950 section 7.8.2).
    #[error("a key that is no leaf, or is of type empty")]
    KeyNotLeaf,
    /// There is no such type, or it is type empty in a leaf-list (RFC 7950 section 9).
    #[error("unknown type")]
    UnknownType,
    /// The path has more than 16 names.
    #[error("a path of more than 16 names")]
    TooDeep,
    /// There are more than 4,096 nodes.
    #[error("more than 4096 nodes")]
    TooMany,
}

/// The first fault in the parts of a schema, or that memory ran out. Parts, and the nodes in a part, count
/// from 0 here and from 1 in the message.
#[derive(Debug, Drop, thiserror::Error)]
pub enum SchemaFault {
    #[error("schema part {}, node {}: {kind}", .part.saturating_add(1), .place.saturating_add(1))]
    At {
        part: usize,
        place: usize,
        kind: SchemaKind,
    },
    #[error("out of memory")]
    Memory,
}

impl From<NoMemory> for SchemaFault {
    ghost use Rattle.std.specs.Prelude.{◌≡◌};
    ghost use Rattle.yp_schema.specs.declared.fault.SchemaFault.TheVariants.{Memory};

    ghost from_gives = { λ _ e. e ≡ Memory };

    fn from(_error: NoMemory) -> SchemaFault {
        SchemaFault::Memory
    }
}

//! Patches: edits of a datastore, in order (RFC 8072 section 2).

use std::alloc::Global;
use yp_base::memory::{Duplicate, NoMemory};
use yp_base::series::Series;
use yp_base::txt::Txt;
use yp_value::payload::Payload;

/// What an edit does (RFC 8072 section 2.5).
#[derive(Debug, Drop, Clone, Copy, PartialEq, Eq)]
pub enum EditOp {
    Create,
    Delete,
    Insert,
    Merge,
    Move,
    Replace,
    Remove,
}

/// Where an entry of a list ordered by the user goes.
#[derive(Debug, Drop, Clone, Copy, PartialEq, Eq)]
pub enum Place {
    Before,
    After,
    First,
    Last,
}

/// An edit: its id, the text of its target's path, for an insert or a move the entry beside which the
/// target goes, the value of the target in JSON, what the edit does, and for an insert or a move the
/// place. The small fields stand last, since fields lie in this order.
#[derive(Drop)]
pub struct Edit {
    pub id: Txt,
    pub target: Txt,
    pub point: Option<Txt>,
    pub value: Option<Payload>,
    pub op: EditOp,
    pub place: Option<Place>,
}

/// Edits, in order.
pub type Edits = Series<Edit>;

/// A patch: its id and its edits.
#[derive(Drop)]
pub struct Patch {
    pub id: Txt,
    pub edits: Edits,
}

impl Duplicate for Edit {
    fn copy(&self, alloc: Global) -> Result<Edit, NoMemory> {
        Ok(Edit {
            id: self.id.copy(alloc)?,
            target: self.target.copy(alloc)?,
            point: self.point.copy(alloc)?,
            value: self.value.copy(alloc)?,
            op: self.op,
            place: self.place,
        })
    }
}

impl Duplicate for Patch {
    fn copy(&self, alloc: Global) -> Result<Patch, NoMemory> {
        Ok(Patch {
            id: self.id.copy(alloc)?,
            edits: self.edits.copy(alloc)?,
        })
    }
}

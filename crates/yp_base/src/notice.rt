//! What a receiver is told: updates and changes of a subscription's state.
ghost use Rattle.std.specs.Prelude.{◌≡◌, IfOk};

use crate::keys::Keys;
use crate::memory::{Duplicate, NoMemory};
use crate::path::Path;
use crate::row::Rows;
use crate::series::Series;
use std::alloc::Global;

/// The operation of one edit of a change update (RFC 8641 section 3.7, RFC 8072).
#[derive(Debug, Clone, Copy, PartialEq, Eq, Drop)]
pub enum ChangeKind {
    Create,
    Delete,
    Insert,
    Move,
    Replace,
}

/// A set of operations, as `excluded-change` gives them (RFC 8641 section 3.1).
#[derive(Debug, Clone, Copy, PartialEq, Eq, Drop)]
pub struct Kinds {
    pub create: bool,
    pub delete: bool,
    pub insert: bool,
    pub moved: bool,
    pub replace: bool,
}

/// When a subscription sends updates (RFC 8641 section 3.1). Periods, dampening periods and anchors
/// are ticks, of a hundredth of a second each.
#[derive(Debug, Clone, Copy, PartialEq, Eq, Drop)]
pub enum Trigger {
    Periodic {
        period: u32,
        anchor: Option<i64>,
    },
    OnChange {
        dampening: u32,
        sync: bool,
        excluded: Kinds,
    },
}

/// One edit of a change update: what happened at the target, with the rows at or below it where it
/// is there, and for an entry of a list ordered by the user the keys of the entry before it.
#[derive(Drop)]
pub struct Change {
    pub kind: ChangeKind,
    pub target: Path,
    pub rows: Rows,
    pub after: Option<Keys>,
}

/// The edits of a change update, in order.
pub type Changes = Series<Change>;

/// A notification of one subscription (RFC 8641 section 3.7, RFC 8639 section 2.7).
#[derive(Drop)]
pub enum Notice {
    /// `push-update`
    Full {
        id: u32,
        rows: Rows,
    },
    /// `push-change-update`
    Changes {
        id: u32,
        patch_id: u64,
        changes: Changes,
        incomplete: bool,
    },
    /// `subscription-started`
    Started {
        id: u32,
    },
    /// `subscription-modified`
    Modified {
        id: u32,
    },
    /// `subscription-suspended`
    Suspended {
        id: u32,
    },
    /// `subscription-resumed`
    Resumed {
        id: u32,
    },
    /// `subscription-terminated`
    Terminated {
        id: u32,
    },
}

impl Duplicate for Change {
    fn copy(&self, alloc: Global) -> Result<Change, NoMemory> {
        let after = match &self.after {
            Some(keys) => Some(keys.copy(alloc)?),
            None => None,
        };
        Ok(Change {
            kind: self.kind,
            target: self.target.copy(alloc)?,
            rows: self.rows.copy(alloc)?,
            after,
        })
    }
}

impl Duplicate for Notice {
    fn copy(&self, alloc: Global) -> Result<Notice, NoMemory> {
        Ok(match self {
            Notice::Full { id, rows } => Notice::Full {
                id: *id,
                rows: rows.copy(alloc)?,
            },
            Notice::Changes {
                id,
                patch_id,
                changes,
                incomplete,
            } => Notice::Changes {
                id: *id,
                patch_id: *patch_id,
                changes: changes.copy(alloc)?,
                incomplete: *incomplete,
            },
            Notice::Started { id } => Notice::Started { id: *id },
            Notice::Modified { id } => Notice::Modified { id: *id },
            Notice::Suspended { id } => Notice::Suspended { id: *id },
            Notice::Resumed { id } => Notice::Resumed { id: *id },
            Notice::Terminated { id } => Notice::Terminated { id: *id },
        })
    }
}

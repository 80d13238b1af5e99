//! What a patch changed.
ghost use Rattle.std.specs.Prelude.{◌≡◌, IfOk, option_copied};
ghost use Rattle.yp_changes.specs.Changes.{are_alike, change_of};

use std::alloc::Global;
use yp_base::memory::{Duplicate, NoMemory};
use yp_base::path::Path;
use yp_base::row::{Value, same_value};
use yp_base::series::Series;

/// A path with the value of its row before and after a patch, `None` where there is no row.
#[derive(Drop)]
pub struct ChangedRow {
    pub path: Path,
    pub old: Option<Value>,
    pub new: Option<Value>,
}

/// The rows that a patch changed, in the order of their paths.
pub type Changed = Series<ChangedRow>;

impl Duplicate for ChangedRow {
    fn copy(&self, alloc: Global) -> Result<ChangedRow, NoMemory> {
        Ok(ChangedRow {
            path: self.path.copy(alloc)?,
            old: self.old.copy(alloc)?,
            new: self.new.copy(alloc)?,
        })
    }
}

/// Whether two rows of a path are alike: both missing, or both there with one value.
pub fn are_alike(old: Option<&Value>, new: Option<&Value>) -> bool
    ensures { result ≡ are_alike (option_copied old.entry) (option_copied new.entry) }
{
    match old {
        Some(old) => match new {
            Some(new) => same_value(old, new),
            None => false,
        },
        None => new.is_none(),
    }
}

/// A copy of a value, where there is one.
fn copy_some(alloc: Global, value: Option<&Value>) -> Result<Option<Value>, NoMemory>
    ensures { IfOk result (λ copy. copy ≡ option_copied value.entry) }
{
    match value {
        Some(value) => Ok(Some(value.copy(alloc)?)),
        None => Ok(None),
    }
}

/// The change of a path's row, where there is one.
pub(crate) fn change_of(
    alloc: Global,
    path: Path,
    old: Option<&Value>,
    new: Option<&Value>,
) -> Result<Option<ChangedRow>, NoMemory>
    ensures { IfOk result (λ change. change ≡ change_of path (option_copied old.entry) (option_copied new.entry)) }
{
    if are_alike(old, new) {
        return Ok(None);
    }
    Ok(Some(ChangedRow {
        path,
        old: copy_some(alloc, old)?,
        new: copy_some(alloc, new)?,
    }))
}

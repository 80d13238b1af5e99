//! Rows whose paths share their segments with those of the rows below them.
ghost use Rattle.std.specs.Prelude.{◌≡◌, OnOk};

use std::alloc::Global;
use yp_base::memory::{Duplicate, NoMemory};
use yp_base::path::{Path, is_prefix};
use yp_base::row::Row;

/// Has the path of a row share the segments of another path, where that lies below it.
fn share(row: &mut Row, other: &Path) -> Result<(), NoMemory>
    ensures { OnOk result (row.new ≡ row.old) }
{
    if is_prefix(&row.path, other) {
        row.path = other.first(row.path.len())?;
    }
    Ok(())
}

/// Has the path of each row share the segments of the next one, where this lies below it.
pub(crate) fn share_paths(alloc: Global, rows: &mut Vec<Row>) -> Result<(), NoMemory>
    ensures { OnOk result (rows.new.items ≡ rows.old.items) }
{
    let mut place = rows.len();
    while place > 1 {
        place -= 1;
        let next = rows[place].path.copy(alloc)?;
        share(&mut rows[place - 1], &next)?;
    }
    Ok(())
}

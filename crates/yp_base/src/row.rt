//! What a datastore holds: rows, each a path with its value.
ghost use Rattle.std.specs.Prelude.{◌≡◌};
ghost use Rattle.yp_base.specs.Rows.{same_value};

use crate::atom::Atom;
use crate::memory::{Duplicate, NoMemory};
use crate::path::Path;
use crate::series::Series;
use std::alloc::Global;

/// What a row holds.
#[derive(Drop)]
pub enum Value {
    /// of a leaf
    Atom(Atom),
    /// of a leaf-list entry, whose value is its key
    Member,
    /// of a leaf of type empty
    Empty,
    /// of a list entry or presence container
    Present,
}

/// A path with its value.
#[derive(Drop)]
pub struct Row {
    pub path: Path,
    pub value: Value,
}

/// Rows, in order.
pub type Rows = Series<Row>;

/// Whether two values are one.
pub fn same_value(one: &Value, other: &Value) -> bool
    ensures { result ≡ same_value one.now other.now }
{
    match one {
        Value::Atom(atom) => match other {
            Value::Atom(other_atom) => atom == other_atom,
            _ => false,
        },
        Value::Member => matches!(other, Value::Member),
        Value::Empty => matches!(other, Value::Empty),
        Value::Present => matches!(other, Value::Present),
    }
}

impl Duplicate for Value {
    fn copy(&self, alloc: Global) -> Result<Value, NoMemory> {
        Ok(match self {
            Value::Atom(atom) => Value::Atom(atom.copy(alloc)?),
            Value::Member => Value::Member,
            Value::Empty => Value::Empty,
            Value::Present => Value::Present,
        })
    }
}

impl Duplicate for Row {
    fn copy(&self, alloc: Global) -> Result<Row, NoMemory> {
        Ok(Row {
            path: self.path.copy(alloc)?,
            value: self.value.copy(alloc)?,
        })
    }
}

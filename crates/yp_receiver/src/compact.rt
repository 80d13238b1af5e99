//! Few rows in little room.
ghost use Rattle.std.specs.Prelude.{◌≡◌, ◌≤◌, ◌∷◌, ◌++◌, IfOk, IfSome, OnOk, length, map, take};
ghost use Rattle.std.specs.String.{string_bytes};
ghost use Rattle.yp_receiver.specs.Compact.{value_of, below, leaf_row, entry_rows};

use std::alloc::Global;
use std::marker::Model;
use yp_base::atom::Atom;
use yp_base::keys::Keys;
use yp_base::memory::{Duplicate, NoMemory};
use yp_base::path::{Path, Seg, is_prefix};
use yp_base::row::{Row, Rows, Value};
use yp_base::series::Series;
use yp_base::txt::{Txt, text_of};

/// A value, of which a text is kept without spare room and without a count of those that share it.
#[derive(Drop)]
enum CompactValue {
    Bool(bool),
    Int(i64),
    Uint(u64),
    Dec { places: u8, units: i64 },
    Text(String),
    Member,
    Empty,
    Present,
}

/// A leaf right below a row: its node, and its value.
#[derive(Drop)]
struct CompactLeaf {
    node: u32,
    value: CompactValue,
}

/// A row, and the leaves right below it that come after it.
#[derive(Drop)]
struct CompactEntry {
    path: Path,
    value: CompactValue,
    leaves: Vec<CompactLeaf>,
}

/// Rows that share nothing and have no spare room, and of which leaves right below another row, as those
/// of a list entry, have no path of their own. Contracts see the rows.
#[derive(Drop)]
pub(crate) struct CompactRows {
    entries: Vec<CompactEntry>,
}

impl Model for CompactRows {
    ghost use Rattle.std.specs.Prelude.{List};
    ghost use Rattle.yp_base.specs.declared.row.Row.{Row};
    ghost use Rattle.yp_receiver.specs.Compact.{compact_rows};

    ghost Value = { List Row };

    ghost view = { λ c. compact_rows c.entries.items };
}

/// A text of its own.
fn own_text(alloc: Global, text: &Txt) -> Result<String, NoMemory>
    ensures { IfOk result (λ own. string_bytes own ≡ text.now) }
{
    Ok(String::from_str(alloc, text.as_str())?)
}

/// A value in little room.
fn compact(alloc: Global, value: &Value) -> Result<CompactValue, NoMemory>
    ensures { IfOk result (λ compact. value_of compact ≡ value.now) }
{
    Ok(match value {
        Value::Atom(atom) => match atom {
            Atom::Bool(value) => CompactValue::Bool(*value),
            Atom::Int(number) => CompactValue::Int(*number),
            Atom::Uint(number) => CompactValue::Uint(*number),
            Atom::Dec { units, places } => CompactValue::Dec {
                units: *units,
                places: *places,
            },
            Atom::Text(text) => CompactValue::Text(own_text(alloc, text)?),
        },
        Value::Member => CompactValue::Member,
        Value::Empty => CompactValue::Empty,
        Value::Present => CompactValue::Present,
    })
}

impl CompactValue {
    /// The value again.
    fn value(&self, alloc: Global) -> Result<Value, NoMemory>
        ensures { IfOk result (λ value. value ≡ value_of self.now) }
    {
        Ok(match self {
            CompactValue::Bool(value) => Value::Atom(Atom::Bool(*value)),
            CompactValue::Int(number) => Value::Atom(Atom::Int(*number)),
            CompactValue::Uint(number) => Value::Atom(Atom::Uint(*number)),
            CompactValue::Dec { units, places } => Value::Atom(Atom::Dec {
                units: *units,
                places: *places,
            }),
            CompactValue::Text(text) => { Value::Atom(Atom::Text(text_of(alloc, text.as_str())?)) }
            CompactValue::Member => Value::Member,
            CompactValue::Empty => Value::Empty,
            CompactValue::Present => Value::Present,
        })
    }
}

/// An atom that shares nothing.
fn own_atom(alloc: Global, atom: &Atom) -> Result<Atom, NoMemory>
    ensures { IfOk result (λ own. own ≡ atom.now) }
{
    match atom {
        Atom::Text(text) => Ok(Atom::Text(text_of(alloc, text.as_str())?)),
        other => Ok(other.copy(alloc)?),
    }
}

/// Keys that share nothing.
fn own_keys(alloc: Global, keys: &Keys) -> Result<Keys, NoMemory>
    ensures { IfOk result (λ own. own ≡ keys.now) }
{
    let mut own = Vec::with_capacity(alloc, keys.len())?;
    for key in keys.items() {
        own.push(own_atom(alloc, key)?)?;
    }
    Keys::from_vec(alloc, own)
}

/// A path that shares nothing.
fn own_path(alloc: Global, path: &Path) -> Result<Path, NoMemory>
    ensures { IfOk result (λ own. own ≡ path.now) }
{
    let mut own = Vec::with_capacity(alloc, path.len())?;
    for segment in path.items() {
        let keys = own_keys(alloc, &segment.keys)?;
        own.push(Seg {
            node: segment.node,
            keys,
        })?;
    }
    Path::from_vec(alloc, own)
}

/// The last node of a path, where it is right below another and has no keys.
fn node_below(above: &Path, path: &Path) -> Option<u32>
    ensures { IfSome result (λ node. path.now ≡ below above.now node) }
{
    if !is_prefix(above, path) {
        return None;
    }
    match path.items().split_at(above.len()).1 {
        [last] => {
            if last.keys.items().is_empty() {
                Some(last.node)
            } else {
                None
            }
        }
        _ => None,
    }
}

/// The first of the rows, as many as are leaves right below a path.
fn leaves_below(alloc: Global, path: &Path, rows: &[Row]) -> Result<Vec<CompactLeaf>, NoMemory>
    ensures rows { IfOk result (λ leaves. map (leaf_row path.now) leaves.items ≡ take (length leaves.items) rows.now) }
    ensures count { IfOk result (λ leaves. length leaves.items ≤ length rows.now) }
{
    let mut leaves = Vec::new(alloc);
    for row in rows {
        match node_below(path, &row.path) {
            Some(node) => {
                let value = compact(alloc, &row.value)?;
                leaves.push(CompactLeaf { node, value })?;
            }
            None => break,
        }
    }
    leaves.shrink_to_fit();
    Ok(leaves)
}

/// The row of a leaf right below a path.
fn leaf_row(alloc: Global, path: &Path, leaf: &CompactLeaf) -> Result<Row, NoMemory>
    ensures { IfOk result (λ row. row ≡ leaf_row path.now leaf.now) }
{
    let keys = Keys::none();
    let node = leaf.node;
    Ok(Row {
        path: path.below(alloc, Seg { node, keys })?,
        value: leaf.value.value(alloc)?,
    })
}

/// Adds the rows of an entry.
fn add_rows(alloc: Global, entry: &CompactEntry, rows: &mut Vec<Row>) -> Result<(), NoMemory>
    ensures { OnOk result (rows.new.items ≡ rows.old.items ++ entry_rows entry.now) }
{
    rows.push(Row {
        path: entry.path.copy(alloc)?,
        value: entry.value.value(alloc)?,
    })?;
    for leaf in &entry.leaves {
        rows.push(leaf_row(alloc, &entry.path, leaf)?)?;
    }
    Ok(())
}

impl CompactRows {
    /// Copies of rows.
    pub(crate) fn of_rows(alloc: Global, rows: &[Row]) -> Result<CompactRows, NoMemory>
        ensures { IfOk result (λ compact. compact ≡ rows.now) }
    {
        let mut entries = Vec::new(alloc);
        let mut rest = rows;
        while let Some((row, later)) = rest.split_first() {
            let leaves = leaves_below(alloc, &row.path, later)?;
            rest = later.split_at(leaves.len()).1;
            let path = own_path(alloc, &row.path)?;
            let value = compact(alloc, &row.value)?;
            entries.push(CompactEntry {
                path,
                value,
                leaves,
            })?;
        }
        entries.shrink_to_fit();
        Ok(CompactRows { entries })
    }

    /// The rows again.
    pub(crate) fn rows(&self, alloc: Global) -> Result<Rows, NoMemory>
        ensures { IfOk result (λ rows. rows ≡ self.now) }
    {
        let mut rows = Vec::new(alloc);
        for entry in &self.entries {
            add_rows(alloc, entry, &mut rows)?;
        }
        Ok(Series::from_vec(rows))
    }
}

//! The rows of a datastore's data.
ghost use Rattle.std.specs.Prelude.{◌≡◌, ◌<◌, ◌∷◌, [], length, IfSome, IfOk, OnOk};
ghost use Rattle.serde_json.specs.View.{view, members_view, items_view};
ghost use Rattle.yp_base.specs.Rows.{put_row};
ghost use Rattle.yp_base.specs.declared.row.Value.TheVariants.{Present};
ghost use Rattle.yp_data_json.specs.Reading.{Gives, Leaves, below, row_at, entered, leaf_read, value_read, leaf_list_read, members_read, node_read, entries_read, entry_read, datastore_read};

use crate::fault::{DataError, DataFault};
use crate::keys::{atom_of, read_keys, value_of};
use serde_json::{Map, Value as Json};
use std::alloc::Global;
use yp_base::keys::Keys;
use yp_base::memory::{Duplicate, NoMemory};
use yp_base::path::{Path, Seg};
use yp_base::row::{Row, Rows, Value};
use yp_schema::schema::{Kind, Schema};
use yp_tree::gathering::Gathering;

/// The path of a node below another.
pub fn path_below(alloc: Global, path: &Path, node: u32, keys: Keys) -> Result<Path, NoMemory>
    ensures { IfOk result (λ made. made ≡ below path.now node keys) }
{
    path.below(alloc, Seg { node, keys })
}

/// Puts the row of a leaf.
fn read_leaf(
    alloc: Global,
    schema: &Schema,
    node: u32,
    path: &Path,
    json: &Json,
    rows: &mut Gathering,
) -> Result<(), DataError>
    requires { node < length schema.now }
    ensures { Leaves result rows.new (leaf_read schema.now node path.now (view json.now) rows.old) }
{
    let value = value_of(alloc, schema, node, json)?;
    let path = path_below(alloc, path, node, Keys::none())?;
    rows.put(alloc, Row { path, value })?;
    Ok(())
}

/// Puts the row of an entry of a node, of which there is none yet.
pub fn enter(
    alloc: Global,
    node: u32,
    path: Path,
    value: Value,
    rows: &mut Gathering,
) -> Result<(), DataError>
    ensures { Leaves result rows.new (entered path value rows.old) }
{
    match rows.replace(alloc, Row { path, value })? {
        Some(_) => Err(DataError::at(DataFault::RepeatedKey, node)),
        None => Ok(()),
    }
}

/// Puts the row of a list's entry, of which there is none yet, and returns its path.
pub fn enter_entry(
    alloc: Global,
    path: &Path,
    node: u32,
    keys: Keys,
    rows: &mut Gathering,
) -> Result<Path, DataError>
    ensures path { IfOk result (λ made. made ≡ below path.now node keys) }
    ensures rows { Leaves result rows.new (entered (below path.now node keys) Present rows.old) }
{
    let path = path_below(alloc, path, node, keys)?;
    enter(alloc, node, path.copy(alloc)?, Value::Present, rows)?;
    Ok(path)
}

/// Puts the row of a container with presence.
fn put_presence(alloc: Global, path: &Path, rows: &mut Gathering) -> Result<(), NoMemory>
    ensures { OnOk result (rows.new ≡ put_row (row_at path.now Present) rows.old) }
{
    let path = path.copy(alloc)?;
    let value = Value::Present;
    rows.put(alloc, Row { path, value })
}

/// Puts the row of a leaf-list entry.
fn read_entry_value(
    alloc: Global,
    schema: &Schema,
    node: u32,
    path: &Path,
    json: &Json,
    rows: &mut Gathering,
) -> Result<(), DataError>
    requires { node < length schema.now }
    ensures { Leaves result rows.new (value_read schema.now node path.now (view json.now) rows.old) }
{
    let atom = atom_of(alloc, schema, node, json)?;
    let path = path_below(alloc, path, node, Keys::one(atom))?;
    enter(alloc, node, path, Value::Member, rows)
}

/// Puts the rows of a leaf-list.
fn read_values(
    alloc: Global,
    schema: &Schema,
    node: u32,
    path: &Path,
    items: &Vec<Json>,
    rows: &mut Gathering,
) -> Result<(), DataError>
    requires { node < length schema.now }
    ensures { Leaves result rows.new (leaf_list_read schema.now node path.now (items_view items.now.items) rows.old) }
{
    for item in items {
        read_entry_value(alloc, schema, node, path, item, rows)?;
    }
    Ok(())
}

/// Puts the rows of an object's members, but for the keys of the entry that it is.
#[cycle(read)]
pub fn read_members(
    alloc: Global,
    schema: &Schema,
    parent: Option<u32>,
    path: &Path,
    members: &Map<String, Json>,
    rows: &mut Gathering,
) -> Result<(), DataError>
    requires { IfSome parent (λ parent. parent < length schema.now) }
    ensures { Leaves result rows.new (members_read schema.now parent path.now (members_view members.now.entries) rows.old) }
{
    for (name, json) in members.iter() {
        let node = match schema.child(parent, name.as_str()) {
            Some(node) => node,
            None => return Err(DataError::unknown(alloc, parent, name.as_str())),
        };
        if !schema.is_key(node, parent) {
            read_node(alloc, schema, node, path, json, rows)?;
        }
    }
    Ok(())
}

/// Puts the rows of a node.
#[cycle(read)]
pub fn read_node(
    alloc: Global,
    schema: &Schema,
    node: u32,
    path: &Path,
    json: &Json,
    rows: &mut Gathering,
) -> Result<(), DataError>
    requires { node < length schema.now }
    ensures { Leaves result rows.new (node_read schema.now node path.now (view json.now) rows.old) }
{
    match json {
        Json::Object(members) => match schema.kind(node) {
            Kind::Container => {
                let path = path_below(alloc, path, node, Keys::none())?;
                read_members(alloc, schema, Some(node), &path, members, rows)
            }
            Kind::Presence => {
                let path = path_below(alloc, path, node, Keys::none())?;
                put_presence(alloc, &path, rows)?;
                read_members(alloc, schema, Some(node), &path, members, rows)
            }
            _ => Err(DataError::invalid(node)),
        },
        Json::Array(items) => match schema.kind(node) {
            Kind::List => read_entries(alloc, schema, node, path, items, rows),
            Kind::Leaf => read_leaf(alloc, schema, node, path, json, rows),
            Kind::LeafList => read_values(alloc, schema, node, path, items, rows),
            _ => Err(DataError::invalid(node)),
        },
        _ => match schema.kind(node) {
            Kind::Leaf => read_leaf(alloc, schema, node, path, json, rows),
            _ => Err(DataError::invalid(node)),
        },
    }
}

/// Puts the rows of a list's entries.
#[cycle(read)]
fn read_entries(
    alloc: Global,
    schema: &Schema,
    node: u32,
    path: &Path,
    items: &Vec<Json>,
    rows: &mut Gathering,
) -> Result<(), DataError>
    requires { node < length schema.now }
    ensures { Leaves result rows.new (entries_read schema.now node path.now (items_view items.now.items) rows.old) }
{
    for item in items {
        read_entry(alloc, schema, node, path, item, rows)?;
    }
    Ok(())
}

/// Puts the rows of an entry.
#[cycle(read)]
fn read_entry(
    alloc: Global,
    schema: &Schema,
    node: u32,
    path: &Path,
    json: &Json,
    rows: &mut Gathering,
) -> Result<(), DataError>
    requires { node < length schema.now }
    ensures { Leaves result rows.new (entry_read schema.now node path.now (view json.now) rows.old) }
{
    match json {
        Json::Object(members) => {
            let keys = read_keys(alloc, schema, schema.keys(node), members)?;
            let path = enter_entry(alloc, path, node, keys, rows)?;
            read_members(alloc, schema, Some(node), &path, members, rows)
        }
        _ => Err(DataError::invalid(node)),
    }
}

/// The rows that a datastore's data hold, in the order of their paths.
pub fn read_datastore(alloc: Global, schema: &Schema, json: &Json) -> Result<Rows, DataError>
    ensures { Gives result (datastore_read schema.now (view json.now)) }
{
    match json {
        Json::Object(members) => {
            let mut rows = Gathering::new(alloc);
            let top = Path::top(alloc)?;
            read_members(alloc, schema, None, &top, members, &mut rows)?;
            Ok(rows.into_rows(alloc)?)
        }
        _ => Err(DataError::top()),
    }
}

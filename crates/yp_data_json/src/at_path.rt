//! Data at a path: what stands at one node, in an object with the node's qualified name.
ghost use Rattle.std.specs.Cmp.Lexicographic.{pointwise};
ghost use Rattle.std.specs.Prelude.{◌≡◌, ◌<◌, ◌∷◌, ◌++◌, [], true, length, nat_eq, IfOk, Ok};
ghost use Rattle.std.specs.String.{string_bytes};
ghost use Rattle.serde_json.specs.Data.{object, member, no_members};
ghost use Rattle.serde_json.specs.View.{view, members_view, items_view};
ghost use Rattle.yp_schema.specs.Datastore.{is_place, AreWhole};
ghost use Rattle.yp_schema.specs.Nodes.{node_at, qualified_name};
ghost use Rattle.yp_data_json.specs.Reading.{Gives, Leaves};
ghost use Rattle.yp_data_json.specs.AtPath.{are_keys, leaf_row, named_entry, named_value, one_of, named_read, outer_read, has_no_members, object_read, rows_read};

use crate::fault::DataError;
use crate::keys::{atom_of, read_keys, value_of};
use crate::reading::{enter, enter_entry, path_below, read_datastore, read_members, read_node};
use serde_json::{Map, Value as Json};
use std::alloc::Global;
use yp_base::keys::Keys;
use yp_base::memory::{Duplicate, NoMemory};
use yp_base::path::{Path, Seg};
use yp_base::row::{Row, Rows, Value};
use yp_base::series::Series;
use yp_schema::schema::{Kind, Schema};
use yp_tree::gathering::Gathering;
use yp_value::members::only_member;
use yp_value::payload::Payload;

/// Whether keys are these.
fn are_keys(found: &Keys, keys: &Keys) -> bool
    ensures { result ≡ are_keys found.now keys.now }
{
    found == keys
}

/// Puts the rows of the list entry that a path names.
fn read_named_entry(
    alloc: Global,
    schema: &Schema,
    node: u32,
    above: &Path,
    keys: &Keys,
    json: &Json,
    rows: &mut Gathering,
) -> Result<(), DataError>
    requires { node < length schema.now }
    ensures { Leaves result rows.new (named_entry schema.now node above.now keys.now (view json.now) rows.old) }
{
    match json {
        Json::Object(members) => {
            let found = read_keys(alloc, schema, schema.keys(node), members)?;
            if !are_keys(&found, keys) {
                return Err(DataError::invalid(node));
            }
            let path = enter_entry(alloc, above, node, found, rows)?;
            read_members(alloc, schema, Some(node), &path, members, rows)
        }
        _ => Err(DataError::invalid(node)),
    }
}

/// Puts the row of the leaf-list entry that a path names.
fn read_named_value(
    alloc: Global,
    schema: &Schema,
    node: u32,
    above: &Path,
    keys: &Keys,
    json: &Json,
    rows: &mut Gathering,
) -> Result<(), DataError>
    requires { node < length schema.now }
    ensures { Leaves result rows.new (named_value schema.now node above.now keys.now (view json.now) rows.old) }
{
    let atom = atom_of(alloc, schema, node, json)?;
    let only = Keys::one(atom);
    if !are_keys(&only, keys) {
        return Err(DataError::invalid(node));
    }
    let path = path_below(alloc, above, node, only)?;
    enter(alloc, node, path, Value::Member, rows)
}

/// Puts the rows of an array of the one entry that a path names.
fn read_one(
    alloc: Global,
    schema: &Schema,
    node: u32,
    above: &Path,
    keys: &Keys,
    items: &Vec<Json>,
    rows: &mut Gathering,
) -> Result<(), DataError>
    requires { node < length schema.now }
    ensures { Leaves result rows.new (one_of (items_view items.now.items) (λ d. named_entry schema.now node above.now keys.now d rows.old)) }
{
    match items.as_slice().split_first() {
        Some((first, rest)) => match rest.split_first() {
            None => read_named_entry(alloc, schema, node, above, keys, first, rows),
            Some(_) => Err(DataError::invalid(node)),
        },
        None => Err(DataError::invalid(node)),
    }
}

/// Puts the row of an array of the one value that a path names.
fn read_one_value(
    alloc: Global,
    schema: &Schema,
    node: u32,
    above: &Path,
    keys: &Keys,
    items: &Vec<Json>,
    rows: &mut Gathering,
) -> Result<(), DataError>
    requires { node < length schema.now }
    ensures { Leaves result rows.new (one_of (items_view items.now.items) (λ d. named_value schema.now node above.now keys.now d rows.old)) }
{
    match items.as_slice().split_first() {
        Some((first, rest)) => match rest.split_first() {
            None => read_named_value(alloc, schema, node, above, keys, first, rows),
            Some(_) => Err(DataError::invalid(node)),
        },
        None => Err(DataError::invalid(node)),
    }
}

/// Puts the rows of the node that a path names.
fn read_named(
    alloc: Global,
    schema: &Schema,
    node: u32,
    above: &Path,
    keys: &Keys,
    json: &Json,
    rows: &mut Gathering,
) -> Result<(), DataError>
    requires { node < length schema.now }
    ensures { Leaves result rows.new (named_read schema.now node above.now keys.now (view json.now) rows.old) }
{
    match schema.kind(node) {
        Kind::List => match json {
            Json::Array(items) => read_one(alloc, schema, node, above, keys, items, rows),
            _ => Err(DataError::invalid(node)),
        },
        Kind::LeafList => match json {
            Json::Array(items) => read_one_value(alloc, schema, node, above, keys, items, rows),
            _ => Err(DataError::invalid(node)),
        },
        _ => read_node(alloc, schema, node, above, json, rows),
    }
}

/// Puts the rows of the members of the outer object, of which one has the node's qualified name.
fn read_outer(
    alloc: Global,
    schema: &Schema,
    name: &str,
    node: u32,
    above: &Path,
    keys: &Keys,
    members: &Map<String, Json>,
    rows: &mut Gathering,
) -> Result<(), DataError>
    requires within { node < length schema.now }
    requires name { name.now ≡ qualified_name (node_at node schema.now) }
    ensures { Leaves result rows.new (outer_read schema.now node above.now keys.now (members_view members.now.entries) rows.old) }
{
    for (other, json) in members.iter() {
        if other.as_str() != name {
            return Err(DataError::unknown(alloc, schema.parent(node), other.as_str()));
        }
        read_named(alloc, schema, node, above, keys, json, rows)?;
    }
    Ok(())
}

/// The name of a node with its module's, `module:name`.
pub(crate) fn qualified(alloc: Global, schema: &Schema, node: u32) -> Result<String, NoMemory>
    requires { node < length schema.now }
    ensures { IfOk result (λ name. string_bytes name ≡ qualified_name (node_at node schema.now)) }
{
    let mut name = String::from_str(alloc, schema.module(node))?;
    name.push_str(":")?;
    name.push_str(schema.name(node))?;
    Ok(name)
}

/// Whether an object has no members.
fn has_none(members: &Map<String, Json>) -> bool
    ensures { result ≡ has_no_members (members_view members.now.entries) }
{
    members.is_empty()
}

/// The rows of an object with the one node that a path names.
fn read_object(
    alloc: Global,
    schema: &Schema,
    node: u32,
    above: &Path,
    keys: &Keys,
    json: &Json,
) -> Result<Rows, DataError>
    requires { node < length schema.now }
    ensures { Gives result (object_read schema.now node above.now keys.now (view json.now)) }
{
    match json {
        Json::Object(members) => {
            if has_none(members) {
                return Err(DataError::invalid(node));
            }
            let name = qualified(alloc, schema, node)?;
            let mut rows = Gathering::new(alloc);
            read_outer(
                alloc,
                schema,
                name.as_str(),
                node,
                above,
                keys,
                members,
                &mut rows,
            )?;
            Ok(rows.into_rows(alloc)?)
        }
        _ => Err(DataError::invalid(node)),
    }
}

/// The path of these segments.
fn path_of(alloc: Global, segments: &[Seg]) -> Result<Path, NoMemory>
    ensures { IfOk result (λ path. path ≡ segments.now) }
{
    let mut copies = Vec::with_capacity(alloc, segments.len())?;
    for segment in segments {
        copies.push(segment.copy(alloc)?)?;
    }
    Path::from_vec(alloc, copies)
}

/// Whether a text is a colon and a name.
fn is_colon_and(text: &[u8], name: &str) -> bool
    ensures { result ≡ pointwise nat_eq text.now (58 ∷ name.now) }
{
    match text.split_first() {
        Some((mark, rest)) => *mark == b':' && rest == name.as_bytes(),
        None => false,
    }
}

/// Whether a name is that of a node with its module's, `module:name`.
fn is_qualified(schema: &Schema, node: u32, name: &str) -> bool
    requires { node < length schema.now }
    ensures { result ≡ pointwise nat_eq name.now (qualified_name (node_at node schema.now)) }
{
    match name.as_bytes().strip_prefix(schema.module(node).as_bytes()) {
        Some(rest) => is_colon_and(rest, schema.name(node)),
        None => false,
    }
}

/// The row of the leaf at a path.
fn read_leaf_row(
    alloc: Global,
    schema: &Schema,
    node: u32,
    at: &Path,
    json: &Json,
) -> Result<Rows, DataError>
    requires { node < length schema.now }
    ensures { Gives result (leaf_row schema.now node at.now (view json.now)) }
{
    let value = value_of(alloc, schema, node, json)?;
    let mut rows = Vec::with_capacity(alloc, 1)?;
    rows.push(Row {
        path: at.copy(alloc)?,
        value,
    })?;
    Ok(Series::from_vec(rows))
}

/// The rows of the node that a path names, by the path's last segment and those above it.
fn read_node_rows(
    alloc: Global,
    schema: &Schema,
    last: &Seg,
    above: &[Seg],
    json: &Json,
) -> Result<Rows, DataError>
    requires { last.now.node < length schema.now }
    ensures { Gives result (named_read schema.now last.now.node above.now last.now.keys (view json.now) []) }
{
    let above = path_of(alloc, above)?;
    let mut rows = Gathering::new(alloc);
    read_named(
        alloc, schema, last.node, &above, &last.keys, json, &mut rows,
    )?;
    Ok(rows.into_rows(alloc)?)
}

/// The node in which segments end.
fn node_of(segments: &[Seg]) -> Option<u32> {
    Some(segments.last()?.node)
}

/// The rows of an object of one member at a path, which ends in a segment below others.
fn read_member(
    alloc: Global,
    schema: &Schema,
    at: &Path,
    last: &Seg,
    above: &[Seg],
    name: &str,
    json: &Json,
) -> Result<Rows, DataError>
    requires place { is_place schema.now at.now ≡ true }
    requires parts { at.now ≡ above.now ++ last.now ∷ [] }
    ensures { Gives result (rows_read schema.now at.now (object (member name.now (view json.now) no_members))) }
{
    if !is_qualified(schema, last.node, name) {
        return Err(DataError::unknown(alloc, node_of(above), name));
    }
    match schema.kind(last.node) {
        Kind::Leaf => read_leaf_row(alloc, schema, last.node, at, json),
        _ => read_node_rows(alloc, schema, last, above, json),
    }
}

/// The rows at a path that ends in a segment below others.
fn read_below(
    alloc: Global,
    schema: &Schema,
    at: &Path,
    last: &Seg,
    above: &[Seg],
    json: &Json,
) -> Result<Rows, DataError>
    requires place { is_place schema.now at.now ≡ true }
    requires parts { at.now ≡ above.now ++ last.now ∷ [] }
    ensures { Gives result (rows_read schema.now at.now (view json.now)) }
{
    match only_member(json) {
        Some((name, value)) => read_member(alloc, schema, at, last, above, name, value),
        None => {
            let above = path_of(alloc, above)?;
            read_object(alloc, schema, last.node, &above, &last.keys, json)
        }
    }
}

/// The rows at a path, or of a whole datastore.
fn read_place(alloc: Global, schema: &Schema, at: &Path, json: &Json) -> Result<Rows, DataError>
    requires { is_place schema.now at.now ≡ true }
    ensures { Gives result (rows_read schema.now at.now (view json.now)) }
{
    match at.items().split_last() {
        Some((last, above)) => read_below(alloc, schema, at, last, above, json),
        None => read_datastore(alloc, schema, json),
    }
}

/// The rows that data at a path hold, in the order of their paths; at the empty path, those of a
/// whole datastore (RFC 7951 sections 4 to 6). Each fault is the first in a visit of the members in
/// byte order of their names, depth first, an entry's keys before its other members.
///
/// `UnknownElement` comes at a member that is no child in member form, at a path one that isn't the
/// node's qualified name; `InvalidValue` at a wrong kind of JSON, a wrong value, an object without
/// members at a path, or keys that aren't the path's; `MissingKey` at the place of a missing key;
/// `RepeatedKey` at the second of two entries with one path.
pub fn read_rows(alloc: Global, schema: &Schema, at: &Path, json: &Json) -> Result<Rows, DataError>
    requires { is_place schema.now at.now ≡ true }
    ensures read { Gives result (rows_read schema.now at.now (view json.now)) }
    ensures rows { IfOk result (λ rows. AreWhole schema.now at.now rows) }
{
    let rows = read_place(alloc, schema, at, json)?;
    Ok(rows)
}

/// The rows that the data of a payload at a path hold, as `read_rows` gives them of its JSON value.
pub fn read_payload(
    alloc: Global,
    schema: &Schema,
    at: &Path,
    payload: &Payload,
) -> Result<Rows, DataError>
    requires { is_place schema.now at.now ≡ true }
    ensures read { Gives result (rows_read schema.now at.now payload.now) }
    ensures rows { IfOk result (λ rows. AreWhole schema.now at.now rows) }
{
    let json = payload.json(alloc)?;
    read_rows(alloc, schema, at, &json)
}

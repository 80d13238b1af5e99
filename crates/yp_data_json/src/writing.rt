//! Writing rows as JSON (RFC 7951 sections 4 to 6), straight into a text.
ghost use Rattle.std.specs.Prelude.{◌≡◌, ◌<◌, ◌+◌, ◌^◌, ◌++◌, length, OnOk, Some, Ok, List, map, true, false, string_bytes};
ghost use Rattle.serde_json.specs.Data.{Data};
ghost use Rattle.serde_json.specs.View.{items_of};
ghost use Rattle.serde_json.specs.Written.{compact_text, items_text, members_text};
ghost use Rattle.yp_schema.specs.Nodes.{node_at};
ghost use Rattle.yp_schema.specs.WellFormed.{IsSchema};
ghost use Rattle.yp_schema.specs.Datastore.{AreWritable, AreWhole, is_segment};
ghost use Rattle.yp_schema.specs.declared.schema.SchemaNode.{SchemaNode};
ghost use Rattle.yp_base.specs.declared.path.Seg.{Seg};
ghost use Rattle.yp_base.specs.declared.row.Row.{Row};
ghost use Rattle.yp_data_json.specs.AtPath.{rows_read};
ghost use Rattle.yp_data_json.specs.Forest.{forest_at};
ghost use Rattle.yp_data_json.specs.Writing.{rows_json, place_json, members_in, item_data, leaf_data, Entry};
ghost use Rattle.yp_data_json.specs.Runs.{EndsIn, AllGoThrough, AreBelow, GoOnBelow, AreOneMember, AreEntries, has_items};
ghost use Rattle.yp_data_json.specs.EntryKeys.{AreAscending, GoOnWithKeys, among};

use crate::at_path::qualified;
use crate::entry_keys::{Key, in_order, place_of, push_key, push_keys, push_last_keys};
use crate::runs::{segment, split_entry, split_run};
use std::alloc::Global;
use yp_base::memory::NoMemory;
use yp_base::path::{Path, Seg};
use yp_base::row::{Row, Rows, Value};
use yp_json_text::strings::{push_comma, push_name};
use yp_json_text::values::push_value;
use yp_schema::schema::{Kind, Schema};

/// Appends rows as the JSON that stands at a path, without white space. At the empty path it is an object
/// of the top-level nodes; at any other path an object of one member, the qualified name of the path's
/// last node.
pub fn push_rows(
    alloc: Global,
    schema: &Schema,
    text: &mut String,
    at: &Path,
    rows: &Rows,
) -> Result<(), NoMemory>
    requires { AreWritable schema.now at.now rows.now }
    ensures { OnOk result (string_bytes text.new ≡ string_bytes text.old ++ compact_text (rows_json schema.now at.now rows.now)) }
{
    schema.stands();
    text.push_str("{")?;
    match at.items().split_last() {
        Some((seg, _)) => {
            let name = qualified(alloc, schema, seg.node)?;
            push_name(alloc, text, false, name.as_str())?;
            push_place(alloc, schema, text, at, seg, rows.items())?;
            text.push_str("}")?;
            Ok(())
        }
        None => push_members(alloc, schema, text, 0, rows.items(), &[]),
    }
}

/// What is written of all rows at a place is read there again as these rows.
#[tactic(auto, using(crate::proofs::RoundTrip::written_again))]
pub fn written_is_read()
    ensures { (nodes : List SchemaNode) (at : List Seg) (rows : List Row) → IsSchema nodes → AreWhole nodes at rows
        → rows_read nodes at (rows_json nodes at rows) ≡ Ok rows }
{}

/// Appends what stands at a path, whose last segment is handed in beside it.
fn push_place(
    alloc: Global,
    schema: &Schema,
    text: &mut String,
    at: &Path,
    seg: &Seg,
    rows: &[Row],
) -> Result<(), NoMemory>
    requires schema { IsSchema schema.now }
    requires writable { AreWritable schema.now at.now rows.now }
    requires last { EndsIn seg.now at.now }
    ensures { OnOk result (string_bytes text.new ≡ string_bytes text.old ++ compact_text (place_json schema.now seg.now at.now rows.now)) }
{
    match schema.kind(seg.node) {
        Kind::Container | Kind::Presence => {
            text.push_str("{")?;
            push_members(alloc, schema, text, at.len(), rows, &[])
        }
        Kind::List | Kind::LeafList => {
            text.push_str("[")?;
            push_item(alloc, schema, text, seg, at.len(), rows)?;
            text.push_str("]")?;
            Ok(())
        }
        Kind::Leaf => match rows.split_first() {
            Some((row, _)) => push_leaf(alloc, schema, text, seg.node, &row.value),
            None => Ok(()),
        },
    }
}

/// Appends the members of one object, and the brace after them: rows from a depth of their paths on, with
/// the keys of a list entry among them.
#[cycle(write)]
fn push_members(
    alloc: Global,
    schema: &Schema,
    text: &mut String,
    depth: usize,
    rows: &[Row],
    keys: &[Key],
) -> Result<(), NoMemory>
    requires schema { IsSchema schema.now }
    requires below { GoOnWithKeys schema.now depth rows.now keys.now }
    requires ascending { AreAscending keys.now }
    ensures { OnOk result (string_bytes text.new ≡ string_bytes text.old ++ members_text false (among schema.now keys.now (members_in schema.now (forest_at depth rows.now)))) }
{
    let mut later = false;
    let mut next = 0;
    let mut left = rows;
    while let Some((first, others)) = left.split_first() {
        if first.path.len() <= depth {
            // the object's own row
            left = others;
        } else {
            let node = segment(first, depth).node;
            let (run, others) = split_run(left, depth, node);
            let (_, waiting) = keys.split_at(next);
            let place = place_of(waiting, node);
            let (before, _) = waiting.split_at(place);
            later = push_keys(alloc, schema, text, later, before)?;
            push_name(alloc, text, later, schema.member_text(node))?;
            push_node(alloc, schema, text, node, depth, run)?;
            later = true;
            next += place;
            left = others;
        }
    }
    push_last_keys(alloc, schema, text, later, keys, next)
}

/// Appends the value of one member: rows of one node at a depth.
#[cycle(write)]
fn push_node(
    alloc: Global,
    schema: &Schema,
    text: &mut String,
    node: u32,
    depth: usize,
    rows: &[Row],
) -> Result<(), NoMemory>
    requires schema { IsSchema schema.now }
    requires below { GoOnBelow schema.now depth rows.now }
    requires of_node { AllGoThrough depth node rows.now }
    requires within { node < length schema.now }
    requires some { 0 < length rows.now }
    requires room { depth + 1 < 2 ^ 64 }
    ensures { OnOk result ((d : Data) × (AreOneMember schema.now depth node rows.now d × (string_bytes text.new ≡ string_bytes text.old ++ compact_text d))) }
{
    match schema.kind(node) {
        Kind::Container | Kind::Presence => {
            text.push_str("{")?;
            push_members(alloc, schema, text, depth + 1, rows, &[])
        }
        Kind::List | Kind::LeafList => {
            text.push_str("[")?;
            push_entries(alloc, schema, text, node, depth, rows)
        }
        Kind::Leaf => match rows.split_first() {
            Some((row, _)) => push_leaf(alloc, schema, text, node, &row.value),
            None => Ok(()),
        },
    }
}

/// Appends the entries of a list or leaf-list, in the order of their keys, and the bracket after them:
/// rows of one node at a depth.
#[cycle(write)]
fn push_entries(
    alloc: Global,
    schema: &Schema,
    text: &mut String,
    node: u32,
    depth: usize,
    rows: &[Row],
) -> Result<(), NoMemory>
    requires schema { IsSchema schema.now }
    requires below { GoOnBelow schema.now depth rows.now }
    requires of_node { AllGoThrough depth node rows.now }
    requires kind { has_items (node_at node schema.now).kind ≡ true }
    requires room { depth + 1 < 2 ^ 64 }
    ensures { OnOk result ((entries : List Entry) × (AreEntries schema.now depth node rows.now entries
        × (string_bytes text.new ≡ string_bytes text.old ++ items_text false (items_of (map (λ entry. entry.json) entries))))) }
{
    let mut later = false;
    let mut left = rows;
    while let Some((first, _)) = left.split_first() {
        let seg = segment(first, depth);
        let (entry, others) = split_entry(left, depth, seg);
        push_comma(text, later)?;
        push_item(alloc, schema, text, seg, depth + 1, entry)?;
        later = true;
        left = others;
    }
    text.push_str("]")?;
    Ok(())
}

/// Appends an entry of a list with its keys, and what its rows have from a depth on, or the value of an
/// entry of a leaf-list.
#[cycle(write)]
fn push_item(
    alloc: Global,
    schema: &Schema,
    text: &mut String,
    seg: &Seg,
    depth: usize,
    rows: &[Row],
) -> Result<(), NoMemory>
    requires schema { IsSchema schema.now }
    requires segment { is_segment schema.now seg.now ≡ true }
    requires below { AreBelow schema.now (Some seg.now.node) depth rows.now }
    ensures { OnOk result (string_bytes text.new ≡ string_bytes text.old
        ++ compact_text (item_data schema.now (node_at seg.now.node schema.now).kind (node_at seg.now.node schema.now) seg.now (members_in schema.now (forest_at depth rows.now)))) }
{
    match schema.kind(seg.node) {
        Kind::List => {
            let keys = in_order(alloc, schema, seg.node, seg.keys.items())?;
            text.push_str("{")?;
            push_members(alloc, schema, text, depth, rows, keys.as_slice())
        }
        Kind::LeafList => match seg.keys.items().split_first() {
            Some((value, _)) => push_key(alloc, schema, text, seg.node, value),
            None => Ok(text.push_str("null")?),
        },
        _ => Ok(text.push_str("null")?),
    }
}

/// Appends the value of a leaf by its type.
fn push_leaf(
    alloc: Global,
    schema: &Schema,
    text: &mut String,
    node: u32,
    value: &Value,
) -> Result<(), NoMemory>
    requires { node < length schema.now }
    ensures { OnOk result (string_bytes text.new ≡ string_bytes text.old ++ compact_text (leaf_data (node_at node schema.now).ty (Some value.now))) }
{
    match schema.ty(node) {
        Some(ty) => push_value(alloc, text, ty, value),
        None => Ok(text.push_str("null")?),
    }
}

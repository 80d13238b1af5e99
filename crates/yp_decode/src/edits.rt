//! The edits of a change update (RFC 8072 section 2), as they stand in JSON.
ghost use Rattle.std.specs.Prelude.{◌≡◌, IfOk, option_map, option_and_then};
ghost use Rattle.serde_json.specs.Find.{as_object};
ghost use Rattle.serde_json.specs.View.{view, items_view, members_view};
ghost use Rattle.yp_base.specs.Results.{or_fault};
ghost use Rattle.yp_base.specs.Types.{are_distinct};
ghost use Rattle.yp_decode.specs.Bodies.{operation_named, operation_in, members_of, edit_in, edits_in, ids_of, distinct_edits, all_edits_in};
ghost use Rattle.yp_decode.specs.Readings.{Shows, seen_operation, seen_edit, seen_edits};
ghost use Rattle.yp_decode.specs.declared.fault.StreamFault.TheVariants.{Member};

use crate::fault::StreamFault;
use serde_json::{Map, Value as Json};
use std::alloc::Global;
use std::collections::BTreeSet;
use yp_base::memory::NoMemory;
use yp_value::members::{count, member_in, text_in};

/// What an edit does at its target, with the value that it carries (RFC 8072 section 2.5). A publisher
/// merges, inserts and moves nothing.
#[derive(Clone, Copy)]
pub enum Operation<V> {
    Create(V),
    Delete,
    Replace(V),
}

/// An edit: its id, the text of its target, and what it does there.
#[derive(Drop, Clone, Copy)]
pub struct EditBody<'a> {
    pub id: &'a str,
    pub target: &'a str,
    pub operation: Operation<&'a Json>,
}

/// The operation of a name, with the value that it carries.
fn operation_named<'a>(name: &str, value: Option<&'a Json>) -> Option<Operation<&'a Json>>
    ensures { option_map seen_operation result ≡ operation_named name.now (option_map (λ json. view json.now) value.entry) }
{
    if name == "create" {
        match value {
            Some(value) => Some(Operation::Create(value)),
            None => None,
        }
    } else if name == "delete" {
        Some(Operation::Delete)
    } else if name == "replace" {
        match value {
            Some(value) => Some(Operation::Replace(value)),
            None => None,
        }
    } else {
        None
    }
}

/// The operation of an edit.
fn operation_in(members: &Map<String, Json>) -> Option<Operation<&Json>>
    ensures { option_map seen_operation result ≡ operation_in (members_view members.now.entries) }
{
    match text_in(members, "operation") {
        Some(name) => operation_named(name, member_in(members, "value")),
        None => None,
    }
}

/// How many members an edit of an operation has.
fn members_of(operation: Operation<&Json>) -> usize
    ensures { result ≡ members_of operation.entry }
{
    match operation {
        Operation::Create(_) => 4,
        Operation::Delete => 3,
        Operation::Replace(_) => 4,
    }
}

/// The edit that an object is.
fn edit_in(members: &Map<String, Json>) -> Option<EditBody<'_>>
    ensures { option_map seen_edit result ≡ edit_in (members_view members.now.entries) }
{
    let id = text_in(members, "edit-id")?;
    let target = text_in(members, "target")?;
    let operation = operation_in(members)?;
    if count(members) == members_of(operation) {
        Some(EditBody {
            id,
            target,
            operation,
        })
    } else {
        None
    }
}

/// The edit that an item of an array is.
fn item_in(json: &Json) -> Option<EditBody<'_>>
    ensures { option_map seen_edit result ≡ option_and_then edit_in (as_object (view json.now)) }
{
    match json.as_object() {
        Some(members) => edit_in(members),
        None => None,
    }
}

/// The edits that the items of an array are.
fn read_items(alloc: Global, items: &Vec<Json>) -> Result<Vec<EditBody<'_>>, StreamFault>
    ensures { Shows (λ edits. seen_edits edits.items) result (or_fault Member (edits_in (items_view items.now.items))) }
{
    let mut edits = Vec::with_capacity(alloc, items.len())?;
    for item in items {
        match item_in(item) {
            Some(edit) => edits.push(edit)?,
            None => return Err(StreamFault::Member),
        }
    }
    Ok(edits)
}

/// Whether the edits' ids are distinct.
fn are_distinct(alloc: Global, edits: &[EditBody]) -> Result<bool, NoMemory>
    ensures { IfOk result (λ distinct. distinct ≡ are_distinct (ids_of (seen_edits edits.now))) }
{
    let mut seen = BTreeSet::new(alloc);
    for edit in edits {
        if !seen.insert(edit.id)? {
            return Ok(false);
        }
    }
    Ok(true)
}

/// The edits of a patch: an array of edits whose ids are distinct.
pub fn read_edits(
    alloc: Global,
    members: &Map<String, Json>,
) -> Result<Vec<EditBody<'_>>, StreamFault>
    ensures { Shows (λ edits. seen_edits edits.items) result (or_fault Member (all_edits_in (members_view members.now.entries))) }
{
    match member_in(members, "edit") {
        Some(Json::Array(items)) => {
            let edits = read_items(alloc, items)?;
            if are_distinct(alloc, edits.as_slice())? {
                Ok(edits)
            } else {
                Err(StreamFault::Member)
            }
        }
        _ => Err(StreamFault::Member),
    }
}

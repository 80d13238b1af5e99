//! Reading patches (RFC 8072 section 2.2).
ghost use Rattle.std.specs.Prelude.{◌≡◌, ◌+◌, ◌==◌, ◌^◌, ◌<◌, length, IfOk, is_none, option_map, option_and_then, codes};
ghost use Rattle.yp_patch.specs.declared.fault.PatchFault.TheVariants.{Shape};
ghost use Rattle.serde_json.specs.View.{view, members_view, items_view};
ghost use Rattle.serde_json.specs.Find.{get_member, as_str, as_object};
ghost use Rattle.serde_json.specs.Events.{members_len};
ghost use Rattle.yp_base.specs.Types.{same_text, are_distinct, is_among};
ghost use Rattle.yp_patch.specs.Shapes.{ReadsAs, optional, some_text, one_if, op_named, op_in, place_named, some_place, has_value, may_have_place, is_beside, has_parts, parts_of, edit_of, edit_in, edits_in, ids_of, distinct, some_edits, members_of_patch, patch_of, sole, patch_in};

use crate::fault::PatchError;
use crate::members::{one_if, only, other_than, read_some_text, read_text};
use crate::patch::{Edit, EditOp, Edits, Patch, Place};
use serde_json::{Map, Value as Json};
use std::alloc::Global;
use std::collections::BTreeSet;
use yp_base::memory::NoMemory;
use yp_base::series::Series;
use yp_base::txt::Txt;
use yp_value::members::{count, member_in, text_in};
use yp_value::payload::Payload;

/// The most edits whose ids are compared without a set of them.
const FEW_EDITS: usize = 8;

/// The one member of the JSON of a patch.
const PATCH: &str = "ietf-yang-patch:yang-patch";

/// The members that a patch can have.
const PATCH_MEMBERS: [&str; 3] = ["patch-id", "comment", "edit"];

/// The members that an edit can have.
const EDIT_MEMBERS: [&str; 6] = ["edit-id", "operation", "target", "point", "where", "value"];

/// The operation of a name.
fn op_of(name: &str) -> Option<EditOp>
    ensures { result ≡ op_named name.now }
{
    if name == "create" {
        Some(EditOp::Create)
    } else if name == "delete" {
        Some(EditOp::Delete)
    } else if name == "insert" {
        Some(EditOp::Insert)
    } else if name == "merge" {
        Some(EditOp::Merge)
    } else if name == "move" {
        Some(EditOp::Move)
    } else if name == "replace" {
        Some(EditOp::Replace)
    } else if name == "remove" {
        Some(EditOp::Remove)
    } else {
        None
    }
}

/// The operation of an edit.
fn read_op(alloc: Global, members: &Map<String, Json>) -> Result<EditOp, PatchError>
    ensures { ReadsAs result (op_in (members_view members.now.entries)) }
{
    match text_in(members, "operation") {
        Some(name) => match op_of(name) {
            Some(op) => Ok(op),
            None => Err(PatchError::shape(alloc, Some("operation"))),
        },
        None => Err(PatchError::shape(alloc, Some("operation"))),
    }
}

/// The place of a name.
fn place_of(name: &str) -> Option<Place>
    ensures { result ≡ place_named name.now }
{
    if name == "before" {
        Some(Place::Before)
    } else if name == "after" {
        Some(Place::After)
    } else if name == "first" {
        Some(Place::First)
    } else if name == "last" {
        Some(Place::Last)
    } else {
        None
    }
}

/// The place where an entry goes, which may be left out.
fn read_place(alloc: Global, members: &Map<String, Json>) -> Result<Option<Place>, PatchError>
    ensures { ReadsAs result (some_place (members_view members.now.entries)) }
{
    match member_in(members, "where") {
        Some(json) => match json.as_str() {
            Some(name) => match place_of(name) {
                Some(place) => Ok(Some(place)),
                None => Err(PatchError::shape(alloc, Some("where"))),
            },
            None => Err(PatchError::shape(alloc, Some("where"))),
        },
        None => Ok(None),
    }
}

/// The value of an edit, where it has one.
fn read_value(alloc: Global, members: &Map<String, Json>) -> Result<Option<Payload>, NoMemory>
    ensures { IfOk result (λ value. value ≡ get_member (codes "value") (members_view members.now.entries)) }
{
    match member_in(members, "value") {
        Some(json) => Ok(Some(Payload::from_json(alloc, json)?)),
        None => Ok(None),
    }
}

/// Whether an edit of an operation has a value.
fn takes_value(op: EditOp) -> bool
    ensures { result ≡ has_value op }
{
    matches!(
        op,
        EditOp::Create | EditOp::Insert | EditOp::Merge | EditOp::Replace
    )
}

/// Whether an edit of an operation may have a place.
fn takes_place(op: EditOp) -> bool
    ensures { result ≡ may_have_place op }
{
    matches!(op, EditOp::Insert | EditOp::Move)
}

/// Whether a place is one beside an entry.
fn takes_point(place: Option<Place>) -> bool
    ensures { result ≡ is_beside place }
{
    matches!(place, Some(Place::Before | Place::After))
}

/// The part that an edit lacks though its operation or its place asks for it, or has though it may not.
fn wrong_part(edit: &Edit) -> Option<&'static str>
    ensures { is_none result ≡ has_parts edit.now }
{
    if edit.value.is_some() != takes_value(edit.op) {
        return Some("value");
    }
    if edit.point.is_some() != takes_point(edit.place) {
        return Some("point");
    }
    if takes_place(edit.op) || edit.place.is_none() {
        None
    } else {
        Some("where")
    }
}

/// An edit of these parts, where an object has no other members.
#[inline(always)]
fn whole_edit(alloc: Global, members: &Map<String, Json>, edit: Edit) -> Result<Edit, PatchError>
    ensures { ReadsAs result (edit_of (members_len (members_view members.now.entries)) edit) }
{
    if let Some(part) = wrong_part(&edit) {
        return Err(PatchError::shape(alloc, Some(part)));
    }
    if count(members) == 3 + one_if(&edit.point) + one_if(&edit.place) + one_if(&edit.value) {
        Ok(edit)
    } else {
        Err(PatchError::shape(alloc, other_than(members, &EDIT_MEMBERS)))
    }
}

/// An edit.
#[inline(always)]
fn read_edit(alloc: Global, members: &Map<String, Json>) -> Result<Edit, PatchError>
    ensures { ReadsAs result (edit_in (members_view members.now.entries)) }
{
    let id = read_text(alloc, members, "edit-id")?;
    let op = read_op(alloc, members)?;
    let target = read_text(alloc, members, "target")?;
    let point = read_some_text(alloc, members, "point")?;
    let place = read_place(alloc, members)?;
    let value = read_value(alloc, members)?;
    whole_edit(
        alloc,
        members,
        Edit {
            id,
            target,
            point,
            value,
            op,
            place,
        },
    )
}

/// An item of the array of edits.
#[inline(always)]
fn read_item(alloc: Global, json: &Json) -> Result<Edit, PatchError>
    ensures { ReadsAs result (option_and_then edit_in (as_object (view json.now))) }
{
    match json {
        Json::Object(members) => read_edit(alloc, members),
        _ => Err(PatchError::shape(alloc, None)),
    }
}

/// The edits of an array.
fn read_items(alloc: Global, items: &Vec<Json>) -> Result<Edits, PatchError>
    ensures read { ReadsAs result (edits_in (items_view items.now.items)) }
    ensures few { IfOk result (λ edits. length edits < 2 ^ 32) }
{
    // No memory holds so many edits.
    if items.len() > 4294967295 {
        return Err(PatchError::memory());
    }
    let mut edits = Vec::with_capacity(alloc, items.len())?;
    for item in items {
        match read_item(alloc, item) {
            Ok(edit) => edits.push(edit)?,
            Err(error) => return Err(error.in_edit(edits.len())),
        }
    }
    Ok(Series::from_vec(edits))
}

/// Whether one of some edits has this id.
fn is_among(id: &Txt, edits: &[Edit]) -> bool
    ensures { result ≡ is_among id.now (ids_of edits.now) }
{
    for edit in edits {
        if *id == edit.id {
            return true;
        }
    }
    false
}

/// Whether the ids of a few edits are distinct: each is compared with each other.
fn are_few_distinct(edits: &[Edit]) -> bool
    ensures { result ≡ are_distinct (ids_of edits.now) }
{
    let mut rest = edits;
    while let Some((edit, more)) = rest.split_first() {
        if is_among(&edit.id, more) {
            return false;
        }
        rest = more;
    }
    true
}

/// The first edit whose id an edit before it has, counted from 0.
fn first_repeated(alloc: Global, edits: &[Edit]) -> Result<Option<usize>, NoMemory>
    ensures { IfOk result (λ found. is_none found ≡ are_distinct (ids_of edits.now)) }
{
    let mut seen = BTreeSet::new(alloc);
    for edit in edits {
        if !seen.insert(&edit.id)? {
            return Ok(Some(seen.len()));
        }
    }
    Ok(None)
}

/// Whether the edits' ids are distinct.
fn are_distinct(alloc: Global, edits: &[Edit]) -> Result<bool, NoMemory>
    ensures { IfOk result (λ distinct. distinct ≡ are_distinct (ids_of edits.now)) }
{
    if edits.len() <= FEW_EDITS {
        return Ok(are_few_distinct(edits));
    }
    Ok(first_repeated(alloc, edits)?.is_none())
}

/// What is wrong with edits of which two have one id.
fn repeated(alloc: Global, edits: &[Edit]) -> PatchError
    ensures { result ≡ Shape }
{
    let error = PatchError::shape(alloc, Some("edit-id"));
    match first_repeated(alloc, edits) {
        Ok(Some(before)) => error.in_edit(before),
        _ => error,
    }
}

/// The edits of a patch, which may be left out.
fn read_edits(alloc: Global, members: &Map<String, Json>) -> Result<Edits, PatchError>
    ensures read { ReadsAs result (some_edits (get_member (codes "edit") (members_view members.now.entries))) }
    ensures few { IfOk result (λ edits. length edits < 2 ^ 32) }
{
    match member_in(members, "edit") {
        Some(Json::Array(items)) => {
            let edits = read_items(alloc, items)?;
            if are_distinct(alloc, edits.items())? {
                Ok(edits)
            } else {
                Err(repeated(alloc, edits.items()))
            }
        }
        Some(_) => Err(PatchError::shape(alloc, Some("edit"))),
        None => Ok(Series::from_vec(Vec::new(alloc))),
    }
}

/// How many members a patch has that has no others.
fn count_members(members: &Map<String, Json>) -> usize
    ensures { result ≡ members_of_patch (members_view members.now.entries) }
{
    1 + one_if(&member_in(members, "comment")) + one_if(&member_in(members, "edit"))
}

/// A patch's members.
fn read_members(alloc: Global, members: &Map<String, Json>) -> Result<Patch, PatchError>
    ensures read { ReadsAs result (patch_of (members_view members.now.entries)) }
    ensures few { IfOk result (λ patch. length patch.edits < 2 ^ 32) }
{
    let id = read_text(alloc, members, "patch-id")?;
    let _comment = read_some_text(alloc, members, "comment")?;
    let edits = read_edits(alloc, members)?;
    if count(members) == count_members(members) {
        Ok(Patch { id, edits })
    } else {
        Err(PatchError::shape(alloc, other_than(members, &PATCH_MEMBERS)))
    }
}

/// The member by which JSON isn't an object of the members of a patch alone, if it is an object.
fn wrong_member(json: &Json) -> Option<&str> {
    let members = json.as_object()?;
    Some(other_than(members, &[PATCH]).unwrap_or(PATCH))
}

/// Reads a patch (RFC 8072 section 2.2, in JSON by RFC 7951): an object of the one member `ietf-yang-patch:yang-patch`, with
/// `patch-id`, and as may be a `comment` and edits. `Shape` is returned exactly when the JSON isn't of this
/// form: with another member, a value of a wrong kind, two edits of one id, a value that an operation
/// doesn't have, a place elsewhere than in an insert or a move, or a point but beside an entry. The error
/// names the edit and its member. Targets and values are judged when the patch is applied.
pub fn read_patch(alloc: Global, json: &Json) -> Result<Patch, PatchError>
    ensures read { ReadsAs result (patch_in (view json.now)) }
    ensures few { IfOk result (λ patch. length patch.edits < 2 ^ 32) }
{
    match only(json, PATCH) {
        Some(members) => read_members(alloc, members),
        None => Err(PatchError::shape(alloc, wrong_member(json))),
    }
}

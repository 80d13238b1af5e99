//! The bodies of notices, as they stand in JSON (RFC 8641 section 3.7, RFC 8639 section 2.7).
ghost use Rattle.std.specs.Prelude.{◌≡◌, IfOk, option_map};
ghost use Rattle.serde_json.specs.View.{view, members_view};
ghost use Rattle.yp_base.specs.Results.{or_fault};
ghost use Rattle.yp_decode.specs.Bodies.{id_in, full_in, canonical_in, patch_id_in, patch_in, is_marked, members_of_changes, patch_of, changes_in, reason_of, is_text, gives_reason, state_in};
ghost use Rattle.yp_decode.specs.Readings.{Gives, Shows, seen_full, seen_patch, seen_changes};
ghost use Rattle.yp_decode.specs.declared.fault.StreamFault.TheVariants.{Member};

use crate::edits::{EditBody, read_edits};
use crate::envelope::StateChange;
use crate::fault::StreamFault;
use crate::members::only_in;
use serde_json::{Map, Value as Json};
use std::alloc::Global;
use yp_base::atom::Atom;
use yp_base::leaf_type::LeafType;
use yp_value::json::read_json;
use yp_value::members::{count, member_in, text_in};
use yp_value::text::{TextFault, read_text};

/// The body of a full update: the number of its subscription, and the data of the datastore.
#[derive(Clone, Copy)]
pub struct FullBody<'a> {
    pub id: u32,
    pub contents: &'a Json,
}

/// The patch of a change update: its id and its edits.
#[derive(Drop)]
pub struct PatchBody<'a> {
    pub id: u64,
    pub edits: Vec<EditBody<'a>>,
}

/// The body of a change update: the number of its subscription, its patch, and whether changes are
/// missing.
#[derive(Drop)]
pub struct ChangesBody<'a> {
    pub id: u32,
    pub patch: PatchBody<'a>,
    pub incomplete: bool,
}

/// The number of a subscription.
fn id_in(members: &Map<String, Json>) -> Option<u32>
    ensures { result ≡ id_in (members_view members.now.entries) }
{
    let id = match member_in(members, "id") {
        Some(json) => json.as_u64()?,
        None => return None,
    };
    if id < 4_294_967_296 {
        Some(id as u32)
    } else {
        None
    }
}

/// The body of a full update.
pub fn full_in(members: &Map<String, Json>) -> Option<FullBody<'_>>
    ensures { option_map seen_full result ≡ full_in (members_view members.now.entries) }
{
    if count(members) != 2 {
        return None;
    }
    let id = id_in(members)?;
    match member_in(members, "datastore-contents") {
        Some(contents) => Some(FullBody { id, contents }),
        None => None,
    }
}

/// The number of 64 bits that a text is, where it is its canonical text.
fn read_canonical(alloc: Global, text: &str) -> Result<u64, StreamFault>
    ensures { Gives result (or_fault Member (canonical_in text.now)) }
{
    match read_text(alloc, &LeafType::Uint { bits: 64 }, text) {
        Ok(Atom::Uint(number)) => {
            if number.to_string(alloc)?.as_str() == text {
                Ok(number)
            } else {
                Err(StreamFault::Member)
            }
        }
        Ok(_) => Err(StreamFault::Member),
        Err(TextFault::BadText) => Err(StreamFault::Member),
        Err(TextFault::Memory) => Err(StreamFault::Memory),
    }
}

/// The id of a patch.
fn read_patch_id(alloc: Global, members: &Map<String, Json>) -> Result<u64, StreamFault>
    ensures { Gives result (or_fault Member (patch_id_in (members_view members.now.entries))) }
{
    match text_in(members, "patch-id") {
        Some(text) => read_canonical(alloc, text),
        None => Err(StreamFault::Member),
    }
}

/// The patch of two members.
fn read_patch(alloc: Global, members: &Map<String, Json>) -> Result<PatchBody<'_>, StreamFault>
    ensures { Shows seen_patch result (or_fault Member (patch_in (members_view members.now.entries))) }
{
    if count(members) != 2 {
        return Err(StreamFault::Member);
    }
    let id = read_patch_id(alloc, members)?;
    let edits = read_edits(alloc, members)?;
    Ok(PatchBody { id, edits })
}

/// The patch that stands in `datastore-changes`.
fn read_only_patch(alloc: Global, members: &Map<String, Json>) -> Result<PatchBody<'_>, StreamFault>
    ensures { Shows seen_patch result (or_fault Member (patch_of (members_view members.now.entries))) }
{
    match member_in(members, "datastore-changes") {
        Some(json) => match only_in(json, "yang-patch") {
            Some(patch) => read_patch(alloc, patch),
            None => Err(StreamFault::Member),
        },
        None => Err(StreamFault::Member),
    }
}

/// Whether it is marked that changes are missing.
fn read_mark(alloc: Global, mark: Option<&Json>) -> Result<bool, StreamFault>
    ensures { Gives result (or_fault Member (is_marked (option_map (λ json. view json.now) mark.entry))) }
{
    match mark {
        Some(json) => match read_json(alloc, &LeafType::Empty, json) {
            Ok(_) => Ok(true),
            Err(TextFault::BadText) => Err(StreamFault::Member),
            Err(TextFault::Memory) => Err(StreamFault::Memory),
        },
        None => Ok(false),
    }
}

/// How many members the body of a change update has.
fn members_of_changes(incomplete: bool) -> usize
    ensures { result ≡ members_of_changes incomplete }
{
    if incomplete { 3 } else { 2 }
}

/// The body of a change update.
pub fn read_changes_body(
    alloc: Global,
    members: &Map<String, Json>,
) -> Result<ChangesBody<'_>, StreamFault>
    ensures { Shows seen_changes result (or_fault Member (changes_in (members_view members.now.entries))) }
{
    let id = match id_in(members) {
        Some(id) => id,
        None => return Err(StreamFault::Member),
    };
    let incomplete = read_mark(alloc, member_in(members, "incomplete-update"))?;
    let patch = read_only_patch(alloc, members)?;
    if count(members) == members_of_changes(incomplete) {
        Ok(ChangesBody {
            id,
            patch,
            incomplete,
        })
    } else {
        Err(StreamFault::Member)
    }
}

/// The reason that a change of state has.
fn reason_of(state: StateChange) -> Option<&'static str>
    ensures { option_map (λ reason. reason.now) result ≡ reason_of state }
{
    match state {
        StateChange::Suspended => Some("ietf-subscribed-notifications:unsupportable-volume"),
        StateChange::Terminated => Some("ietf-subscribed-notifications:no-such-subscription"),
        StateChange::Started | StateChange::Modified | StateChange::Resumed => None,
    }
}

/// Whether a text is there, and is this one.
fn is_text(word: &str, text: Option<&str>) -> bool
    ensures { result ≡ is_text word.now (option_map (λ text. text.now) text.entry) }
{
    match text {
        Some(text) => text == word,
        None => false,
    }
}

/// Whether one member besides the id gives the reason, or none where there is no reason.
fn gives_reason(reason: Option<&str>, members: &Map<String, Json>) -> bool
    ensures { result ≡ gives_reason (option_map (λ reason. reason.now) reason.entry) (members_view members.now.entries) }
{
    match reason {
        Some(reason) => count(members) == 2 && is_text(reason, text_in(members, "reason")),
        None => count(members) == 1,
    }
}

/// The number of the subscription whose state changed.
pub fn state_in(state: StateChange, members: &Map<String, Json>) -> Option<u32>
    ensures { result ≡ state_in state (members_view members.now.entries) }
{
    if gives_reason(reason_of(state), members) {
        id_in(members)
    } else {
        None
    }
}

//! The line of a notification.
ghost use Rattle.std.specs.Prelude.{◌≡◌, ◌≤◌, ◌++◌, ℕ, List, [], IfOk, OnOk, false, true, string_bytes};
ghost use Rattle.serde_json.specs.Data.{no_members};
ghost use Rattle.serde_json.specs.Written.{compact_text, members_text};
ghost use Rattle.yp_base.specs.declared.notice.Change.{Change};
ghost use Rattle.yp_base.specs.declared.notice.Notice.{Notice};
ghost use Rattle.yp_base.specs.declared.notice.Notice.TheVariants.{Full, Changes as ChangesNotice};
ghost use Rattle.yp_base.specs.declared.row.Row.{Row};
ghost use Rattle.yp_schema.specs.declared.schema.SchemaNode.{SchemaNode};
ghost use Rattle.yp_data_json.specs.Writing.{rows_json};
ghost use Rattle.yp_time.specs.Ticks.{tick_limit};
ghost use Rattle.yp_encode.specs.Lines.{mark, patch_data, name_of, body_of, id_member, reason_member, line_of};
ghost use Rattle.yp_encode.specs.Sendable.{IsSendable};
ghost use Rattle.yp_encode.specs.Texts.{opening_text, full_text, changes_text};

use crate::contents::{contents_text, patch_text};
use std::alloc::Global;
use yp_base::memory::NoMemory;
use yp_base::notice::Notice;
use yp_base::txt::Txt;
use yp_json_text::strings::{push_member, push_number};
use yp_schema::schema::Schema;
use yp_time::start::Start;
use yp_time::writing::event_time;

/// The name of a notification (RFC 8641 section 5, RFC 8639 section 4).
fn name(notice: &Notice) -> &'static str
    ensures { result.now ≡ name_of notice.now }
{
    match notice {
        Notice::Full { .. } => "ietf-yang-push:push-update",
        Notice::Changes { .. } => "ietf-yang-push:push-change-update",
        Notice::Started { .. } => "ietf-subscribed-notifications:subscription-started",
        Notice::Modified { .. } => "ietf-subscribed-notifications:subscription-modified",
        Notice::Suspended { .. } => "ietf-subscribed-notifications:subscription-suspended",
        Notice::Resumed { .. } => "ietf-subscribed-notifications:subscription-resumed",
        Notice::Terminated { .. } => "ietf-subscribed-notifications:subscription-terminated",
    }
}

/// What ends a body behind its id: a mark where changes are missing, and the brace.
#[tactic(auto, using(crate::proofs::Told::marked, crate::proofs::Told::unmarked))]
fn end_of_changes(incomplete: bool) -> &'static str
    ensures { result.now ≡ members_text true (mark incomplete) }
{
    if incomplete {
        ",\"incomplete-update\":[null]}"
    } else {
        "}"
    }
}

/// Adds what a line has before the members of its body.
fn push_opening(
    alloc: Global,
    text: &mut String,
    start: &Start,
    tick: u64,
    name: &str,
) -> Result<(), NoMemory>
    requires { tick ≤ tick_limit }
    ensures { OnOk result (string_bytes text.new ≡ string_bytes text.old ++ opening_text start.now tick name.now) }
{
    let time = event_time(alloc, start, tick)?;
    push_member(
        alloc,
        text,
        "{\"ietf-restconf:notification\":{\"eventTime\":",
        time.as_str(),
    )?;
    push_member(alloc, text, ",", name)?;
    text.push_str(":{")?;
    Ok(())
}

/// Adds the members of a full update that carries this, and the brace behind them.
fn push_full(text: &mut String, id: u32, contents: &str) -> Result<(), NoMemory>
    ensures { OnOk result (string_bytes text.new ≡ string_bytes text.old ++ full_text contents.now id) }
{
    text.push_str("\"datastore-contents\":")?;
    text.push_str(contents)?;
    push_number(text, ",\"id\":", id)?;
    text.push_str("}")?;
    Ok(())
}

/// Adds the members of a change update that carries this, and the brace behind them.
fn push_changes(text: &mut String, id: u32, patch: &str, incomplete: bool) -> Result<(), NoMemory>
    ensures { OnOk result (string_bytes text.new ≡ string_bytes text.old ++ changes_text patch.now id incomplete) }
{
    text.push_str("\"datastore-changes\":")?;
    text.push_str(patch)?;
    push_number(text, ",\"id\":", id)?;
    text.push_str(end_of_changes(incomplete))?;
    Ok(())
}

/// Adds the members of a body that are an id and a reason, and the brace behind them.
fn push_reason(alloc: Global, text: &mut String, id: u32, reason: &str) -> Result<(), NoMemory>
    ensures { OnOk result (string_bytes text.new ≡ string_bytes text.old ++ members_text false (id_member id (reason_member reason.now))) }
{
    push_number(text, "\"id\":", id)?;
    push_member(alloc, text, ",\"reason\":", reason)?;
    text.push_str("}")?;
    Ok(())
}

/// Adds the member of a body that is an id alone, and the brace behind it.
fn push_id(text: &mut String, id: u32) -> Result<(), NoMemory>
    ensures { OnOk result (string_bytes text.new ≡ string_bytes text.old ++ members_text false (id_member id no_members)) }
{
    push_number(text, "\"id\":", id)?;
    text.push_str("}")?;
    Ok(())
}

/// Adds the line of a full update of a subscription that was made at a tick and carries this text, as
/// `contents_text` gives it, without a line end.
pub fn push_full_line(
    alloc: Global,
    text: &mut String,
    start: &Start,
    tick: u64,
    id: u32,
    contents: &str,
) -> Result<(), NoMemory>
    requires { tick ≤ tick_limit }
    ensures { OnOk result ((nodes : List SchemaNode) (rows : List Row) → contents.now ≡ compact_text (rows_json nodes [] rows)
        → string_bytes text.new ≡ string_bytes text.old ++ line_of nodes start.now tick (Full id rows)) }
{
    push_opening(alloc, text, start, tick, "ietf-yang-push:push-update")?;
    push_full(text, id, contents)?;
    text.push_str("}}")?;
    Ok(())
}

/// Adds the line of a change update of a subscription that was made at a tick and carries this text, as
/// `patch_text` gives it, without a line end. An incomplete one lacks some changes.
pub fn push_changes_line(
    alloc: Global,
    text: &mut String,
    start: &Start,
    tick: u64,
    id: u32,
    patch: &str,
    incomplete: bool,
) -> Result<(), NoMemory>
    requires { tick ≤ tick_limit }
    ensures { OnOk result ((nodes : List SchemaNode) (patch_id : ℕ) (changes : List Change) → patch.now ≡ compact_text (patch_data nodes patch_id changes)
        → string_bytes text.new ≡ string_bytes text.old ++ line_of nodes start.now tick (ChangesNotice id patch_id changes incomplete)) }
{
    push_opening(
        alloc,
        text,
        start,
        tick,
        "ietf-yang-push:push-change-update",
    )?;
    push_changes(text, id, patch, incomplete)?;
    text.push_str("}}")?;
    Ok(())
}

/// Adds the line of a notice of this name that tells an id alone.
fn push_id_line(
    alloc: Global,
    text: &mut String,
    start: &Start,
    tick: u64,
    name: &str,
    id: u32,
) -> Result<(), NoMemory>
    requires { tick ≤ tick_limit }
    ensures { OnOk result ((nodes : List SchemaNode) (notice : Notice) → name.now ≡ name_of notice → id_member id no_members ≡ body_of nodes notice
        → string_bytes text.new ≡ string_bytes text.old ++ line_of nodes start.now tick notice) }
{
    push_opening(alloc, text, start, tick, name)?;
    push_id(text, id)?;
    text.push_str("}}")?;
    Ok(())
}

/// Adds the line of a notice of this name that tells an id and a reason.
fn push_reason_line(
    alloc: Global,
    text: &mut String,
    start: &Start,
    tick: u64,
    name: &str,
    id: u32,
    reason: &str,
) -> Result<(), NoMemory>
    requires { tick ≤ tick_limit }
    ensures { OnOk result ((nodes : List SchemaNode) (notice : Notice) → name.now ≡ name_of notice → id_member id (reason_member reason.now) ≡ body_of nodes notice
        → string_bytes text.new ≡ string_bytes text.old ++ line_of nodes start.now tick notice) }
{
    push_opening(alloc, text, start, tick, name)?;
    push_reason(alloc, text, id, reason)?;
    text.push_str("}}")?;
    Ok(())
}

/// Adds the line of a notice that was made at a tick.
fn push_line(
    alloc: Global,
    schema: &Schema,
    text: &mut String,
    start: &Start,
    tick: u64,
    notice: &Notice,
) -> Result<(), NoMemory>
    requires tick { tick ≤ tick_limit }
    requires sendable { IsSendable schema.now notice.now }
    ensures { OnOk result (string_bytes text.new ≡ string_bytes text.old ++ line_of schema.now start.now tick notice.now) }
{
    match notice {
        Notice::Full { id, rows } => {
            let contents = contents_text(alloc, schema, rows)?;
            push_full_line(alloc, text, start, tick, *id, contents.as_str())
        }
        Notice::Changes {
            id,
            patch_id,
            changes,
            incomplete,
        } => {
            let patch = patch_text(alloc, schema, *patch_id, changes)?;
            push_changes_line(alloc, text, start, tick, *id, patch.as_str(), *incomplete)
        }
        Notice::Suspended { id } => push_reason_line(
            alloc,
            text,
            start,
            tick,
            name(notice),
            *id,
            "ietf-subscribed-notifications:unsupportable-volume",
        ),
        Notice::Terminated { id } => push_reason_line(
            alloc,
            text,
            start,
            tick,
            name(notice),
            *id,
            "ietf-subscribed-notifications:no-such-subscription",
        ),
        Notice::Started { id } => push_id_line(alloc, text, start, tick, name(notice), *id),
        Notice::Modified { id } => push_id_line(alloc, text, start, tick, name(notice), *id),
        Notice::Resumed { id } => push_id_line(alloc, text, start, tick, name(notice), *id),
    }
}

/// The line of a notice that was made at a tick, without a line end. Ticks are hundredths of a second
/// from the start.
pub fn line(
    alloc: Global,
    schema: &Schema,
    start: &Start,
    tick: u64,
    notice: &Notice,
) -> Result<Txt, NoMemory>
    requires tick { tick ≤ tick_limit }
    requires sendable { IsSendable schema.now notice.now }
    ensures { IfOk result (λ text. text ≡ line_of schema.now start.now tick notice.now) }
{
    let mut text = String::with_capacity(alloc, 256)?;
    push_line(alloc, schema, &mut text, start, tick, notice)?;
    Txt::from_string(alloc, text)
}

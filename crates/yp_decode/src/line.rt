//! The notice that a line tells.
ghost use Rattle.std.specs.Prelude.{◌≡◌, List, IfOk};
ghost use Rattle.serde_json.specs.View.{view, members_view};
ghost use Rattle.yp_schema.specs.declared.schema.SchemaNode.{SchemaNode};
ghost use Rattle.yp_decode.specs.Grammar.{full_heard, changes_heard, state_heard, state_notice, body_heard, notice_heard, heard_in, line_heard};
ghost use Rattle.yp_decode.specs.Sound.{IsSound};
ghost use Rattle.yp_decode.specs.Readings.{Gives, seen_envelope};

use crate::body::{full_in, read_changes_body, state_in};
use crate::data::{read_changes, read_contents};
use crate::envelope::{Envelope, NoticeKind, StateChange, envelope_in, kind_named, read_json};
use crate::fault::StreamFault;
use crate::places::read_places;
use serde_json::{Map, Value as Json};
use std::alloc::Global;
use yp_base::notice::Notice;
use yp_base::txt::{Txt, text_of};
use yp_schema::schema::Schema;

/// What a line tells: its event time as it is written, and the notice.
#[derive(Drop)]
pub struct Heard {
    pub time: Txt,
    pub notice: Notice,
}

/// A full update.
fn read_full(
    alloc: Global,
    schema: &Schema,
    members: &Map<String, Json>,
) -> Result<Notice, StreamFault>
    ensures heard { Gives result (full_heard schema.now (members_view members.now.entries)) }
    ensures sound { IfOk result (λ notice. IsSound schema.now notice) }
{
    match full_in(members) {
        Some(full) => {
            let rows = read_contents(alloc, schema, full.contents)?;
            Ok(Notice::Full { id: full.id, rows })
        }
        None => Err(StreamFault::Member),
    }
}

/// A change update.
fn read_update(
    alloc: Global,
    schema: &Schema,
    members: &Map<String, Json>,
) -> Result<Notice, StreamFault>
    ensures heard { Gives result (changes_heard schema.now (members_view members.now.entries)) }
    ensures sound { IfOk result (λ notice. IsSound schema.now notice) }
{
    let body = read_changes_body(alloc, members)?;
    let edits = read_places(alloc, schema, body.patch.edits.as_slice())?;
    let changes = read_changes(alloc, schema, edits.as_slice())?;
    Ok(Notice::Changes {
        id: body.id,
        patch_id: body.patch.id,
        changes,
        incomplete: body.incomplete,
    })
}

/// The notice of a change of a subscription's state.
fn state_notice(state: StateChange, id: u32) -> Notice
    ensures { result ≡ state_notice state id }
{
    match state {
        StateChange::Started => Notice::Started { id },
        StateChange::Modified => Notice::Modified { id },
        StateChange::Suspended => Notice::Suspended { id },
        StateChange::Resumed => Notice::Resumed { id },
        StateChange::Terminated => Notice::Terminated { id },
    }
}

/// A change of a subscription's state.
fn read_state(state: StateChange, members: &Map<String, Json>) -> Result<Notice, StreamFault>
    ensures heard { Gives result (state_heard state (members_view members.now.entries)) }
    ensures sound { (nodes : List SchemaNode) → IfOk result (λ notice. IsSound nodes notice) }
{
    match state_in(state, members) {
        Some(id) => Ok(state_notice(state, id)),
        None => Err(StreamFault::Member),
    }
}

/// The notice of a body of a kind.
fn read_body(
    alloc: Global,
    schema: &Schema,
    kind: NoticeKind,
    members: &Map<String, Json>,
) -> Result<Notice, StreamFault>
    ensures heard { Gives result (body_heard schema.now kind (members_view members.now.entries)) }
    ensures sound { IfOk result (λ notice. IsSound schema.now notice) }
{
    match kind {
        NoticeKind::Full => read_full(alloc, schema, members),
        NoticeKind::Changes => read_update(alloc, schema, members),
        NoticeKind::State(state) => read_state(state, members),
    }
}

/// What an envelope tells.
fn read_notice(alloc: Global, schema: &Schema, envelope: &Envelope) -> Result<Notice, StreamFault>
    ensures heard { Gives result (notice_heard schema.now (seen_envelope envelope.now)) }
    ensures sound { IfOk result (λ notice. IsSound schema.now notice) }
{
    match kind_named(envelope.name) {
        Some(kind) => match envelope.body.as_object() {
            Some(members) => read_body(alloc, schema, kind, members),
            None => Err(StreamFault::Member),
        },
        None => Err(StreamFault::UnknownNotice),
    }
}

/// What the JSON of a line tells.
fn read_told(alloc: Global, schema: &Schema, json: &Json) -> Result<Heard, StreamFault>
    ensures heard { Gives result (heard_in schema.now (view json.now)) }
    ensures sound { IfOk result (λ heard. IsSound schema.now heard.notice) }
{
    match envelope_in(json) {
        Some(envelope) => {
            let notice = read_notice(alloc, schema, &envelope)?;
            let time = text_of(alloc, envelope.time)?;
            Ok(Heard { time, notice })
        }
        None => Err(StreamFault::Envelope),
    }
}

/// Reads a line, without its line end: `{"ietf-restconf:notification":{"eventTime":T,NAME:BODY}}` (RFC 8040
/// section 6.4), with the members of each object in any order. A full update (`push-update`) has all that
/// is selected, a change update (`push-change-update`) what changed of it as a patch of creations,
/// deletions and replacements (RFC 8641 section 3.7, RFC 8072 section 2), and the others tell that the
/// subscription started, was modified, suspended or resumed, or ended (RFC 8639 section 2.7).
///
/// A line that has faults is told the first in the order of `StreamFault`, wherever they stand. `Memory`
/// says nothing of the line. A member that stands twice in an object counts as its last one.
pub fn read_line(alloc: Global, schema: &Schema, bytes: &[u8]) -> Result<Heard, StreamFault>
    ensures heard { Gives result (line_heard schema.now bytes.now) }
    ensures sound { IfOk result (λ heard. IsSound schema.now heard.notice) }
{
    match read_json(alloc, bytes)? {
        Some(json) => read_told(alloc, schema, &json),
        None => Err(StreamFault::NotJson),
    }
}

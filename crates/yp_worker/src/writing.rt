//! The line of what is sent, around the text that the slots of a class share.
ghost use Rattle.std.specs.Prelude.{◌≡◌, ◌≤◌, ℕ, [], List, IfOk, IfSome};
ghost use Rattle.serde_json.specs.Written.{compact_text};
ghost use Rattle.yp_base.specs.declared.notice.Change.{Change};
ghost use Rattle.yp_base.specs.declared.notice.Notice.TheVariants.{Changes as ChangesNotice, Full};
ghost use Rattle.yp_base.specs.declared.row.Row.{Row};
ghost use Rattle.yp_schema.specs.declared.schema.SchemaNode.{SchemaNode};
ghost use Rattle.yp_data_json.specs.Writing.{rows_json};
ghost use Rattle.yp_encode.specs.Lines.{line_of, patch_data};
ghost use Rattle.yp_encode.specs.Sendable.{IsSendable};
ghost use Rattle.yp_time.specs.Ticks.{tick_limit};
ghost use Rattle.yp_worker.specs.Packets.{IsTextOf};

use std::alloc::Global;
use yp_base::memory::NoMemory;
use yp_base::notice::Notice;
use yp_base::txt::Txt;
use yp_encode::line::{line, push_changes_line, push_full_line};
use yp_schema::schema::Schema;
use yp_time::start::Start;

/// The room that a line takes besides the text that it carries, at the most.
const ROOM: usize = 256;

/// The line of a full update that carries this text.
fn full_line(
    alloc: Global,
    start: &Start,
    tick: u64,
    id: u32,
    contents: &Txt,
) -> Result<Txt, NoMemory>
    requires { tick ≤ tick_limit }
    ensures { IfOk result (λ text. (nodes : List SchemaNode) (rows : List Row) → contents.now ≡ compact_text (rows_json nodes [] rows)
        → text ≡ line_of nodes start.now tick (Full id rows)) }
{
    let contents = contents.as_str();
    let mut text = String::with_capacity(alloc, contents.len().saturating_add(ROOM))?;
    push_full_line(alloc, &mut text, start, tick, id, contents)?;
    Txt::from_string(alloc, text)
}

/// The line of a change update that carries this text. An incomplete one lacks some changes.
fn changes_line(
    alloc: Global,
    start: &Start,
    tick: u64,
    id: u32,
    patch: &Txt,
    incomplete: bool,
) -> Result<Txt, NoMemory>
    requires { tick ≤ tick_limit }
    ensures { IfOk result (λ text. (nodes : List SchemaNode) (patch_id : ℕ) (changes : List Change) → patch.now ≡ compact_text (patch_data nodes patch_id changes)
        → text ≡ line_of nodes start.now tick (ChangesNotice id patch_id changes incomplete)) }
{
    let patch = patch.as_str();
    let mut text = String::with_capacity(alloc, patch.len().saturating_add(ROOM))?;
    push_changes_line(alloc, &mut text, start, tick, id, patch, incomplete)?;
    Txt::from_string(alloc, text)
}

/// The line of a notification: around the text of what it carries, where there is one.
pub(crate) fn line_around(
    alloc: Global,
    schema: &Schema,
    start: &Start,
    tick: u64,
    notice: &Notice,
    carried: &Option<Txt>,
) -> Result<Txt, NoMemory>
    requires tick { tick ≤ tick_limit }
    requires sendable { IsSendable schema.now notice.now }
    requires carried { IfSome carried.now (IsTextOf schema.now notice.now) }
    ensures { IfOk result (λ text. text ≡ line_of schema.now start.now tick notice.now) }
{
    match carried {
        Some(carried) => match notice {
            Notice::Full { id, .. } => full_line(alloc, start, tick, *id, carried),
            Notice::Changes { id, incomplete, .. } => {
                changes_line(alloc, start, tick, *id, carried, *incomplete)
            }
            _ => line(alloc, schema, start, tick, notice),
        },
        None => line(alloc, schema, start, tick, notice),
    }
}

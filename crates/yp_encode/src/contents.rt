//! The texts of what updates carry, which the lines of many subscriptions share.
ghost use Rattle.std.specs.List.{AllByRecursion};
ghost use Rattle.std.specs.Prelude.{◌≡◌, ◌<◌, ◌^◌, ◌++◌, [], length, IfOk, OnOk, codes, false, true, string_bytes};
ghost use Rattle.serde_json.specs.Written.{compact_text, items_text};
ghost use Rattle.yp_data_json.specs.Writing.{rows_json};
ghost use Rattle.yp_schema.specs.Datastore.{is_path_of, AreWritable};
ghost use Rattle.yp_encode.specs.Lines.{operation_word, carries_value, edit_data, edits_from, patch_data};
ghost use Rattle.yp_encode.specs.Sendable.{IsSendableChange};
ghost use Rattle.yp_encode.specs.Texts.{head_text};

use std::alloc::Global;
use yp_base::memory::NoMemory;
use yp_base::notice::{Change, ChangeKind, Changes};
use yp_base::path::Path;
use yp_base::row::Rows;
use yp_base::txt::Txt;
use yp_data_json::writing::push_rows;
use yp_json_text::strings::{push_comma, push_counted, push_member};
use yp_path::target::write_target;
use yp_schema::schema::Schema;

/// The name of an operation (RFC 8072 section 2.5).
fn operation(kind: ChangeKind) -> &'static str
    ensures { result.now ≡ operation_word kind }
{
    match kind {
        ChangeKind::Create => "create",
        ChangeKind::Delete => "delete",
        ChangeKind::Insert => "insert",
        ChangeKind::Move => "move",
        ChangeKind::Replace => "replace",
    }
}

/// Whether an edit of this kind has a value.
fn has_value(kind: ChangeKind) -> bool
    ensures { result ≡ carries_value kind }
{
    matches!(kind, ChangeKind::Create | ChangeKind::Replace)
}

/// Adds what an edit has before its value.
fn push_head(
    alloc: Global,
    schema: &Schema,
    text: &mut String,
    number: u64,
    change: &Change,
) -> Result<(), NoMemory>
    requires { is_path_of schema.now change.now.target ≡ true }
    ensures { OnOk result (string_bytes text.new ≡ string_bytes text.old ++ head_text schema.now number change.now) }
{
    push_counted(alloc, text, "{\"edit-id\":", number)?;
    push_member(alloc, text, ",\"operation\":", operation(change.kind))?;
    let target = write_target(alloc, schema, &change.target)?;
    push_member(alloc, text, ",\"target\":", target.as_str())?;
    Ok(())
}

/// Adds the value of an edit that has one.
fn push_value(
    alloc: Global,
    schema: &Schema,
    text: &mut String,
    change: &Change,
) -> Result<(), NoMemory>
    requires { AreWritable schema.now change.now.target change.now.rows }
    ensures { OnOk result (string_bytes text.new ≡ string_bytes text.old ++ (codes ",\"value\":" ++ compact_text (rows_json schema.now change.now.target change.now.rows))) }
{
    text.push_str(",\"value\":")?;
    push_rows(alloc, schema, text, &change.target, &change.rows)
}

/// Adds the edit of a change.
fn push_edit(
    alloc: Global,
    schema: &Schema,
    text: &mut String,
    number: u64,
    change: &Change,
) -> Result<(), NoMemory>
    requires { IsSendableChange schema.now change.now }
    ensures { OnOk result (string_bytes text.new ≡ string_bytes text.old ++ compact_text (edit_data schema.now number change.now)) }
{
    push_head(alloc, schema, text, number, change)?;
    if has_value(change.kind) {
        push_value(alloc, schema, text, change)?;
        text.push_str("}")?;
    } else {
        text.push_str("}")?;
    }
    Ok(())
}

/// Adds the edits of changes, counted from 1, and the bracket behind them.
fn push_edits(
    alloc: Global,
    schema: &Schema,
    text: &mut String,
    changes: &[Change],
) -> Result<(), NoMemory>
    requires few { length changes.now < 2 ^ 63 }
    requires sendable { AllByRecursion (IsSendableChange schema.now) changes.now }
    ensures { OnOk result (string_bytes text.new ≡ string_bytes text.old ++ items_text false (edits_from schema.now 1 changes.now)) }
{
    let mut number = 1u64;
    let mut later = false;
    for change in changes {
        push_comma(text, later)?;
        push_edit(alloc, schema, text, number, change)?;
        number += 1;
        later = true;
    }
    text.push_str("]")?;
    Ok(())
}

/// Adds the patch of changes.
fn push_patch(
    alloc: Global,
    schema: &Schema,
    text: &mut String,
    patch_id: u64,
    changes: &Changes,
) -> Result<(), NoMemory>
    requires { AllByRecursion (IsSendableChange schema.now) changes.now }
    ensures { OnOk result (string_bytes text.new ≡ string_bytes text.old ++ compact_text (patch_data schema.now patch_id changes.now)) }
{
    text.push_str("{\"yang-patch\":{\"edit\":[")?;
    push_edits(alloc, schema, text, changes.items())?;
    push_counted(alloc, text, ",\"patch-id\":", patch_id)?;
    text.push_str("}}")?;
    Ok(())
}

/// What a full update carries: its rows as JSON, without white space (RFC 7951).
pub fn contents_text(alloc: Global, schema: &Schema, rows: &Rows) -> Result<Txt, NoMemory>
    requires { AreWritable schema.now [] rows.now }
    ensures { IfOk result (λ text. text ≡ compact_text (rows_json schema.now [] rows.now)) }
{
    let top = Path::top(alloc)?;
    let mut text = String::with_capacity(alloc, 256)?;
    push_rows(alloc, schema, &mut text, &top, rows)?;
    let contents = Txt::from_string(alloc, text)?;
    Ok(contents)
}

/// What a change update carries: the patch of its changes, with this id, as JSON without white space (RFC
/// 8072 section 2).
pub fn patch_text(
    alloc: Global,
    schema: &Schema,
    patch_id: u64,
    changes: &Changes,
) -> Result<Txt, NoMemory>
    requires { AllByRecursion (IsSendableChange schema.now) changes.now }
    ensures { IfOk result (λ text. text ≡ compact_text (patch_data schema.now patch_id changes.now)) }
{
    let room = changes.len().saturating_mul(160).saturating_add(256);
    let mut text = String::with_capacity(alloc, room)?;
    push_patch(alloc, schema, &mut text, patch_id, changes)?;
    text.shrink_to_fit();
    Txt::from_string(alloc, text)
}

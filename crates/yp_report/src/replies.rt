//! The lines of replies.
ghost use Rattle.std.specs.Prelude.{◌≡◌, ◌+◌, ◌^◌, ◌<◌, ◌++◌, length, IfOk, OnOk, false, codes, string_bytes};
ghost use Rattle.std.specs.List.{flat_map};
ghost use Rattle.serde_json.specs.Data.{string, object, no_members, member};
ghost use Rattle.serde_json.specs.View.{view};
ghost use Rattle.serde_json.specs.Written.{has_float, compact_text};
ghost use Rattle.yp_report.specs.Replies.{replied_lines};
ghost use Rattle.yp_report.specs.Report.{tag_word, reply_data, reply_text};

use crate::replied::Replied;
use serde_json::{Value as Json, json};
use std::alloc::{AllocError, Global};
use yp_base::txt::Txt;
use yp_edit::fault::Tag;
use yp_journal::reply::Reply;
use yp_terms::refused::Refused;

/// The word of a tag.
fn word_of(tag: Tag) -> &'static str
    ensures { result.now ≡ tag_word tag }
{
    match tag {
        Tag::UnknownElement => "unknown-element",
        Tag::InvalidValue => "invalid-value",
        Tag::DataMissing => "data-missing",
        Tag::DataExists => "data-exists",
        Tag::TooBig => "too-big",
    }
}

/// The JSON of a refused edit.
fn refused_edit(alloc: Global, edit_id: &str, word: &str) -> Result<Json, AllocError>
    ensures { IfOk result (λ json. view json ≡ object (member (codes "edit-id") (string edit_id.now) (member (codes "error") (string word.now) no_members))) }
{
    json!(in alloc; {"edit-id": edit_id, "error": word})
}

/// The JSON of a refused edit, with its path.
fn refused_edit_at(alloc: Global, edit_id: &str, word: &str, path: &str) -> Result<Json, AllocError>
    ensures { IfOk result (λ json. view json ≡ object (member (codes "edit-id") (string edit_id.now) (member (codes "error") (string word.now) (member (codes "path") (string path.now) no_members)))) }
{
    json!(in alloc; {"edit-id": edit_id, "error": word, "path": path})
}

/// The JSON of a refused edit.
fn refused_json(
    alloc: Global,
    edit_id: &Txt,
    tag: Tag,
    path: &Option<Txt>,
) -> Result<Json, AllocError>
    ensures { IfOk result (λ json. view json ≡ reply_data (Reply.Edit edit_id.now tag path.now)) }
{
    match path {
        None => refused_edit(alloc, edit_id.as_str(), word_of(tag)),
        Some(path) => refused_edit_at(alloc, edit_id.as_str(), word_of(tag), path.as_str()),
    }
}

/// The text of JSON without white space.
fn compact(alloc: Global, json: &Json) -> Result<String, AllocError>
    requires { has_float (view json.now) ≡ false }
    ensures { IfOk result (λ text. string_bytes text ≡ compact_text (view json.now)) }
{
    json.to_string(alloc)
}

/// The compact text of a refused edit.
fn refused_text(
    alloc: Global,
    edit_id: &Txt,
    tag: Tag,
    path: &Option<Txt>,
) -> Result<String, AllocError>
    ensures { IfOk result (λ text. string_bytes text ≡ compact_text (reply_data (Reply.Edit edit_id.now tag path.now))) }
{
    let json = refused_json(alloc, edit_id, tag, path)?;
    let text = compact(alloc, &json)?;
    Ok(text)
}

/// Adds a refusal of the registry. That memory ran out stands in no reply.
#[tactic(auto, unfolding(json::specs::Print::escape_byte))]
fn push_refusal(text: &mut String, refusal: Refused) -> Result<(), AllocError>
    ensures { OnOk result (string_bytes text.new ≡ string_bytes text.old ++ compact_text (reply_data (Reply.Registry refusal))) }
{
    match refusal {
        Refused::AccessDenied => text.push_str("{\"error\":\"access-denied\"}"),
        Refused::EncodingUnsupported => text.push_str("{\"error\":\"encoding-unsupported\"}"),
        Refused::DatastoreNotSubscribable => {
            text.push_str("{\"error\":\"datastore-not-subscribable\"}")
        }
        Refused::FilterUnsupported => text.push_str("{\"error\":\"filter-unsupported\"}"),
        Refused::PeriodUnsupported { hint } => {
            write!(
                text,
                "{{\"error\":\"period-unsupported\",\"period-hint\":{hint}}}"
            )
        }
        Refused::NoSuchSubscription { resync: false } => {
            text.push_str("{\"error\":\"no-such-subscription\"}")
        }
        Refused::NoSuchSubscription { resync: true } => {
            text.push_str("{\"error\":\"no-such-subscription-resync\"}")
        }
        Refused::OnChangeSyncUnsupported => {
            text.push_str("{\"error\":\"on-change-sync-unsupported\"}")
        }
        Refused::InvalidTrigger => {
            text.push_str("{\"error\":\"invalid-value\",\"member\":\"trigger\"}")
        }
        Refused::InvalidId => text.push_str("{\"error\":\"invalid-value\",\"member\":\"id\"}"),
        Refused::InvalidReceiver => {
            text.push_str("{\"error\":\"invalid-value\",\"member\":\"receiver\"}")
        }
        Refused::InsufficientResources => text.push_str("{\"error\":\"insufficient-resources\"}"),
        Refused::Memory => text.push_str("{\"error\":\"insufficient-resources\"}"),
    }
}

/// Adds an id.
#[tactic(auto, unfolding(json::specs::Print::escape_byte))]
fn push_id(text: &mut String, id: u32) -> Result<(), AllocError>
    ensures { OnOk result (string_bytes text.new ≡ string_bytes text.old ++ compact_text (reply_data (Reply.Id id))) }
{
    write!(text, "{{\"id\":{id}}}")
}

/// Adds the JSON of a reply, without white space.
#[tactic(auto, unfolding(json::specs::Print::escape_byte))]
fn push_data(alloc: Global, text: &mut String, reply: &Reply) -> Result<(), AllocError>
    ensures { OnOk result (string_bytes text.new ≡ string_bytes text.old ++ compact_text (reply_data reply.now)) }
{
    match reply {
        Reply::Done => text.push_str("{\"ok\":true}"),
        Reply::Id(id) => push_id(text, *id),
        Reply::Registry(refusal) => push_refusal(text, *refusal),
        Reply::Edit { edit_id, tag, path } => {
            let refused = refused_text(alloc, edit_id, *tag, path)?;
            text.push_str(refused.as_str())
        }
    }
}

/// Adds the line of the reply to the command at a position.
#[tactic(auto, unfolding(crate::specs::Report::reply_text))]
fn push_reply(
    alloc: Global,
    text: &mut String,
    position: u64,
    replied: &Replied,
) -> Result<(), AllocError>
    ensures { OnOk result (string_bytes text.new ≡ string_bytes text.old ++ reply_text (record { position = position; lane = replied.now.lane; index = replied.now.index; reply = replied.now.reply })) }
{
    let lane = replied.lane;
    let index = replied.index;
    write!(text, "reply {position} {lane} {index} ")?;
    push_data(alloc, text, &replied.reply)?;
    text.push_str("\n")
}

/// Adds the lines of replies, by position.
fn push_replies(alloc: Global, text: &mut String, replies: &[Replied]) -> Result<(), AllocError>
    requires { length replies.now < 2 ^ 63 }
    ensures { OnOk result (string_bytes text.new ≡ string_bytes text.old ++ flat_map reply_text (replied_lines 1 replies.now)) }
{
    let mut position = 1;
    for replied in replies {
        push_reply(alloc, text, position, replied)?;
        position += 1;
    }
    Ok(())
}

/// The lines of replies, by position. They are let go.
pub fn replies_text(alloc: Global, replies: Vec<Replied>) -> Result<String, AllocError>
    requires { length replies.items < 2 ^ 63 }
    ensures { IfOk result (λ text. string_bytes text ≡ flat_map reply_text (replied_lines 1 replies.items)) }
{
    let mut text = String::new(alloc);
    push_replies(alloc, &mut text, replies.as_slice())?;
    Ok(text)
}

//! What events come to, in lines.
use serde_json::json;
use std::alloc::{AllocError, Global};
use yp_core::event::Happened;
use yp_edit::fault::Tag;
use yp_journal::reply::Reply;
use yp_terms::refused::Refused;

/// Adds the line of what happened.
pub fn push_happened(
    alloc: Global,
    told: &mut String,
    happened: &Happened,
) -> Result<(), AllocError> {
    match happened {
        Happened::Appended(reply) => {
            let reply = reply_text(alloc, reply)?;
            writeln!(told, "appended {reply}")
        }
        Happened::Absorbed(position) => writeln!(told, "absorbed {position}"),
        Happened::Took { receiver, position } => writeln!(told, "took {receiver} {position}"),
        Happened::Full {
            receiver,
            sub,
            position,
        } => writeln!(told, "full {receiver} {sub} {position}"),
        Happened::Taken(packet) => {
            let line = packet.line.as_str();
            writeln!(told, "taken {line}")
        }
        Happened::Nothing => told.push_str("nothing\n"),
    }
}

/// Adds the line of what an event came to with companions, where this isn't what happened.
pub fn push_difference(
    alloc: Global,
    told: &mut String,
    followed: &Happened,
) -> Result<(), AllocError> {
    told.push_str("differs ")?;
    push_happened(alloc, told, followed)
}

/// A reply, as a report has it.
fn reply_text(alloc: Global, reply: &Reply) -> Result<String, AllocError> {
    let json = match reply {
        Reply::Done => json!(in alloc; {"ok": true})?,
        Reply::Id(id) => json!(in alloc; {"id": *id})?,
        Reply::Registry(Refused::PeriodUnsupported { hint }) => {
            json!(in alloc; {"error": "period-unsupported", "period-hint": *hint})?
        }
        Reply::Registry(refusal) => match words_of(*refusal) {
            (word, "") => json!(in alloc; {"error": word})?,
            (word, member) => json!(in alloc; {"error": word, "member": member})?,
        },
        Reply::Edit { edit_id, tag, path } => {
            let (edit_id, word) = (edit_id.as_str(), word_of(*tag));
            match path {
                Some(path) => {
                    let path = path.as_str();
                    json!(in alloc; {"edit-id": edit_id, "error": word, "path": path})?
                }
                None => json!(in alloc; {"edit-id": edit_id, "error": word})?,
            }
        }
    };
    json.to_string(alloc)
}

/// The error of a refusal, and the member that it is about, if it is about one.
fn words_of(refusal: Refused) -> (&'static str, &'static str) {
    match refusal {
        Refused::AccessDenied => ("access-denied", ""),
        Refused::EncodingUnsupported => ("encoding-unsupported", ""),
        Refused::DatastoreNotSubscribable => ("datastore-not-subscribable", ""),
        Refused::FilterUnsupported => ("filter-unsupported", ""),
        Refused::PeriodUnsupported { .. } => ("period-unsupported", ""),
        Refused::NoSuchSubscription { resync: false } => ("no-such-subscription", ""),
        Refused::NoSuchSubscription { resync: true } => ("no-such-subscription-resync", ""),
        Refused::OnChangeSyncUnsupported => ("on-change-sync-unsupported", ""),
        Refused::InvalidTrigger => ("invalid-value", "trigger"),
        Refused::InvalidId => ("invalid-value", "id"),
        Refused::InvalidReceiver => ("invalid-value", "receiver"),
        Refused::InsufficientResources | Refused::Memory => ("insufficient-resources", ""),
    }
}

/// The error of a refused edit.
fn word_of(tag: Tag) -> &'static str {
    match tag {
        Tag::UnknownElement => "unknown-element",
        Tag::InvalidValue => "invalid-value",
        Tag::DataMissing => "data-missing",
        Tag::DataExists => "data-exists",
        Tag::TooBig => "too-big",
    }
}

//! The envelope of a notification (RFC 8040 section 6.4), and what it tells by its name.
ghost use Rattle.std.specs.Prelude.{◌≡◌, IfOk, option_map};
ghost use Rattle.serde_json.specs.View.{view, members_view};
ghost use Rattle.yp_value.specs.Json.{json_of};
ghost use Rattle.yp_decode.specs.Envelope.{event_time_in, envelope_of, envelope_in, kind_named};
ghost use Rattle.yp_decode.specs.Readings.{seen_envelope};

use crate::members::{only_in, other_member};
use serde_json::{Map, Value as Json};
use std::alloc::Global;
use yp_base::memory::NoMemory;
use yp_time::instant::event_instant;
use yp_value::members::{count, text_in};

/// A change of a subscription's state (RFC 8639 section 2.7).
#[derive(Debug, Drop, Clone, Copy, PartialEq, Eq)]
pub enum StateChange {
    Started,
    Modified,
    Suspended,
    Resumed,
    Terminated,
}

/// What a notice tells.
#[derive(Debug, Drop, Clone, Copy, PartialEq, Eq)]
pub enum NoticeKind {
    /// All that is selected (RFC 8641 section 3.7).
    Full,
    /// What changed of it (RFC 8641 section 3.7).
    Changes,
    /// The subscription's state changed.
    State(StateChange),
}

/// An envelope: its event time as it is written, and the name and the body of what it tells.
#[derive(Clone, Copy)]
pub struct Envelope<'a> {
    pub time: &'a str,
    pub name: &'a str,
    pub body: &'a Json,
}

/// The JSON of a text, where it is JSON.
pub fn read_json(alloc: Global, text: &[u8]) -> Result<Option<Json>, NoMemory>
    ensures { IfOk result (λ read. option_map view read ≡ json_of text.now) }
{
    match std::str::from_utf8(text) {
        Ok(text) => match Json::from_str(alloc, text) {
            Ok(json) => Ok(Some(json)),
            Err(error) => {
                if error.is_memory() {
                    Err(NoMemory)
                } else {
                    Ok(None)
                }
            }
        },
        Err(_) => Ok(None),
    }
}

/// The event time as it is written, where it is one (RFC 5277 section 4).
fn event_time_in(members: &Map<String, Json>) -> Option<&str>
    ensures { option_map (λ text. text.now) result ≡ event_time_in (members_view members.now.entries) }
{
    let text = text_in(members, "eventTime")?;
    match event_instant(text) {
        Some(_) => Some(text),
        None => None,
    }
}

/// The envelope of two members.
fn envelope_of(members: &Map<String, Json>) -> Option<Envelope<'_>>
    ensures { option_map seen_envelope result ≡ envelope_of (members_view members.now.entries) }
{
    if count(members) != 2 {
        return None;
    }
    match event_time_in(members) {
        Some(time) => match other_member(members, "eventTime") {
            Some((name, body)) => Some(Envelope { time, name, body }),
            None => None,
        },
        None => None,
    }
}

/// The envelope that JSON is.
pub fn envelope_in(json: &Json) -> Option<Envelope<'_>>
    ensures { option_map seen_envelope result ≡ envelope_in (view json.now) }
{
    match only_in(json, "ietf-restconf:notification") {
        Some(members) => envelope_of(members),
        None => None,
    }
}

/// What a notice of this name tells.
pub fn kind_named(name: &str) -> Option<NoticeKind>
    ensures { result ≡ kind_named name.now }
{
    if name == "ietf-yang-push:push-update" {
        Some(NoticeKind::Full)
    } else if name == "ietf-yang-push:push-change-update" {
        Some(NoticeKind::Changes)
    } else if name == "ietf-subscribed-notifications:subscription-started" {
        Some(NoticeKind::State(StateChange::Started))
    } else if name == "ietf-subscribed-notifications:subscription-modified" {
        Some(NoticeKind::State(StateChange::Modified))
    } else if name == "ietf-subscribed-notifications:subscription-suspended" {
        Some(NoticeKind::State(StateChange::Suspended))
    } else if name == "ietf-subscribed-notifications:subscription-resumed" {
        Some(NoticeKind::State(StateChange::Resumed))
    } else if name == "ietf-subscribed-notifications:subscription-terminated" {
        Some(NoticeKind::State(StateChange::Terminated))
    } else {
        None
    }
}

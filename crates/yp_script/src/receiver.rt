//! Receiver lines.
ghost use Rattle.std.specs.Prelude.{◌≡◌, ◌<◌, ◌≤◌, None, IfOk, OnOk, IfSome, length, option_map, codes};
ghost use Rattle.serde_json.specs.View.{view};
ghost use Rattle.yp_command.specs.declared.fault.ScriptKind.TheVariants.{Member};
ghost use Rattle.yp_command.specs.Names.{receiver_number};
ghost use Rattle.yp_command.specs.Readings.{Tells};
ghost use Rattle.yp_value.specs.Json.{member_of};
ghost use Rattle.yp_command.specs.Words.{where_true, text_at, whole_there};
ghost use Rattle.yp_script.specs.Values.{is_receiver_name, is_user_name, is_new_name, places_said, receiver_said};

use serde_json::Value as Json;
use std::alloc::Global;
use yp_base::txt::text_of;
use yp_cause::cause::{Cause, Wrong};
use yp_cause::excerpt::Excerpt;
use yp_command::fault::Flaw;
use yp_command::halt::{Halt, least};
use yp_command::receivers::Receivers;
use yp_command::words::{has_count, lacking_among, says, text_in, whole};
use yp_journal::receiver::ReceiverInfo;
use yp_value::json::member;

/// The members of a receiver.
const MEMBERS: [&str; 4] = ["name", "user", "queue", "take"];

/// The most receivers of a script.
const MOST_RECEIVERS: usize = 16;

/// Whether a text is a receiver's name.
fn is_name(text: &str) -> bool
    ensures { result ≡ is_receiver_name text.now }
{
    if text.is_empty() || text.len() > 32 {
        return false;
    }
    for byte in text.as_bytes() {
        if !byte.is_ascii_alphanumeric() && *byte != b'_' && *byte != b'-' && *byte != b'.' {
            return false;
        }
    }
    true
}

/// What is wrong with a receiver in which the member of this name isn't what it must be, as these words say.
fn wrong_member(alloc: Global, json: &Json, name: &'static str, words: &'static str) -> Flaw
    ensures { result ≡ Member }
{
    lacking_among(alloc, json, &MEMBERS, name, words)
}

/// What is wrong with the name of a receiver that isn't one's own.
fn wrong_name(alloc: Global, json: &Json) -> Flaw
    ensures { result ≡ Member }
{
    match text_in(json, "name") {
        Some(text) if is_name(text) => {
            Flaw::member(Cause::about(Wrong::ReceiverTwice, Excerpt::of(alloc, text)))
        }
        _ => wrong_member(
            alloc,
            json,
            "name",
            "is a text of 1 to 32 letters, digits, `_`, `-` and `.`",
        ),
    }
}

/// The member that is the name of a receiver that isn't declared yet.
fn new_name<'a>(receivers: &Receivers, json: &'a Json) -> Option<&'a str>
    ensures new { IfSome result (λ text. receiver_number receivers.now text.now ≡ None) }
    ensures read { option_map (λ text. text.now) result ≡ where_true (is_new_name receivers.now) (text_at (codes "name") (view json.now)) }
{
    match text_in(json, "name") {
        Some(text) if is_name(text) && receivers.number_of(text).is_none() => Some(text),
        _ => None,
    }
}

/// The member that is the name of a user.
fn user_name(json: &Json) -> Option<&str>
    ensures { option_map (λ text. text.now) result ≡ where_true is_user_name (text_at (codes "user") (view json.now)) }
{
    match text_in(json, "user") {
        Some(text) if 1 <= text.len() && text.len() <= 64 => Some(text),
        _ => None,
    }
}

/// How many packets a queue holds.
fn read_queue(alloc: Global, json: &Json) -> Result<u64, Flaw>
    ensures read { result ≡ whole_there 1 32 (member_of (codes "queue") (view json.now)) }
    ensures most { IfOk result (λ places. places ≤ 32) }
{
    match member(json, "queue") {
        Some(queue) => whole(queue, "queue", 1, 32),
        None => Err(wrong_member(alloc, json, "queue", "is missing")),
    }
}

/// How many packets the queue of one receiver more holds, where there is room for it.
fn places_of(alloc: Global, receivers: &Receivers, json: &Json) -> Result<u64, Flaw>
    ensures read { result ≡ places_said receivers.now (view json.now) }
    ensures most { IfOk result (λ places. places ≤ 32) }
    ensures room { OnOk result (length receivers.now < 16) }
{
    let places = read_queue(alloc, json);
    if receivers.len() < MOST_RECEIVERS {
        return places;
    }
    let flaw = Flaw::too_many(MOST_RECEIVERS as u64, "receivers");
    match places {
        Ok(_) => Err(flaw),
        Err(other) => Err(least(flaw, other)),
    }
}

/// The receiver that a line declares beside those before it.
pub fn read_receiver(
    alloc: Global,
    receivers: &Receivers,
    json: &Json,
) -> Result<ReceiverInfo, Halt>
    ensures read { Tells result (receiver_said receivers.now (view json.now)) }
    ensures new { IfOk result (λ receiver. receiver_number receivers.now receiver.name ≡ None) }
    ensures room { OnOk result (length receivers.now < 16) }
{
    let auto = says(json, "take", "auto");
    if !has_count(json, 4) || !(auto || says(json, "take", "command")) {
        return Err(Halt::Fault(wrong_member(alloc, json, "take", "is `auto` or `command`")));
    }
    let Some(name) = new_name(receivers, json) else {
        return Err(Halt::Fault(wrong_name(alloc, json)));
    };
    let Some(user) = user_name(json) else {
        return Err(Halt::Fault(wrong_member(alloc, json, "user", "is a text of 1 to 64 bytes")));
    };
    let places = places_of(alloc, receivers, json)?;
    Ok(ReceiverInfo {
        name: text_of(alloc, name)?,
        user: text_of(alloc, user)?,
        places: places as u32,
        auto,
    })
}

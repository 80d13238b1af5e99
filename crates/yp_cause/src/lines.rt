//! What is wrong with a line as a whole, in words.
use crate::cause::{Cause, Wrong};
use crate::excerpt::Excerpt;
use serde_json::{Error, Map, Value as Json};
use std::alloc::Global;
use yp_base::memory::NoMemory;
use yp_schema::fault::SchemaKind;
use yp_value::json::member;

/// The cause of an error of the JSON reader, in a text of one line.
pub fn json_cause(alloc: Global, error: &Error) -> Cause {
    Cause::told(Excerpt::made(error_text(alloc, error)))
}

/// The text of such an error, with the column alone.
fn error_text(alloc: Global, error: &Error) -> Result<String, NoMemory> {
    let text = format!(in alloc; "{error}")?;
    let text = text.as_str();
    Ok(text.replacen(alloc, " at line 1 column ", " at column ", 1)?)
}

/// Why a line that has no form has none.
pub fn form_cause(alloc: Global, json: &Json) -> Cause {
    if let Some(name) = sole_name(json) {
        return Cause::about(Wrong::NoLine, Excerpt::of(alloc, name));
    }
    match done_in_lane(json) {
        Some(done) => match sole_name(done) {
            Some(name) => Cause::about(Wrong::NoCommand, Excerpt::of(alloc, name)),
            None => Cause::member("do", "is an object of one member, which is a command"),
        },
        None => Cause::of(Wrong::NoForm),
    }
}

/// The name of the only member of an object that has just one.
fn sole_name(json: &Json) -> Option<&str> {
    let members: &Map<String, Json> = json.as_object()?;
    if members.len() != 1 {
        return None;
    }
    let (name, _) = members.first_key_value()?;
    Some(name.as_str())
}

/// What is done in a lane, by a line of the two members `lane` and `do`.
fn done_in_lane(json: &Json) -> Option<&Json> {
    if json.as_object()?.len() != 2 || member(json, "lane").is_none() {
        return None;
    }
    member(json, "do")
}

/// The cause of a fault of the node at a place of a part of the schema.
pub fn node_cause(alloc: Global, part: Option<&Json>, place: usize, kind: SchemaKind) -> Cause {
    Cause::told(Excerpt::made(node_text(alloc, part, place, kind)))
}

/// What is wrong with the node at a place of a part, with its text, or that of the whole part where there is
/// no such node.
fn node_text(
    alloc: Global,
    part: Option<&Json>,
    place: usize,
    kind: SchemaKind,
) -> Result<String, NoMemory> {
    let node = match part {
        Some(Json::Array(items)) => items.get(place).or(part),
        _ => part,
    };
    let number = place.saturating_add(1);
    Ok(match node {
        Some(node) => {
            let node = node.to_string(alloc)?;
            format!(in alloc; "node {number}, {node}: {kind}")?
        }
        None => format!(in alloc; "node {number}: {kind}")?,
    })
}

/// The member by which JSON isn't an object of these members alone: one that may not be there, or else one
/// that is missing.
pub fn other_member(alloc: Global, json: &Json, names: &[&'static str]) -> Option<Cause> {
    let Some(members) = json.as_object() else {
        return Some(Cause::of(Wrong::NoObject));
    };
    for (name, _) in members.iter() {
        if !is_among(name.as_str(), names) {
            return Some(Cause::unknown(alloc, name.as_str()));
        }
    }
    for name in names {
        if member(json, name).is_none() {
            return Some(Cause::missing(*name));
        }
    }
    None
}

/// Whether a name is among these.
fn is_among(name: &str, names: &[&'static str]) -> bool {
    for other in names {
        if name == *other {
            return true;
        }
    }
    false
}

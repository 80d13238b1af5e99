//! The line with which a case begins.
use serde_json::Value as Json;
use std::alloc::Global;
use yp_value::json::member;

/// A case isn't written as it has to be.
#[derive(Debug, Drop, Clone, Copy, PartialEq, Eq, thiserror::Error)]
#[error("a bad case")]
pub struct BadCase;

/// An event of a case: the next command of the script is appended, the worker of a number absorbs or offers, or the
/// receiver of a number takes. To mislead a worker's companion is that the worker offers, and the companion is told
/// the other answer.
#[derive(Clone, Copy, Drop)]
pub enum Planned {
    Append,
    Absorb(u32),
    Offer(u32),
    Mislead(u32),
    Take(u32),
}

/// The number of workers, and the events in order.
#[derive(Drop)]
pub struct Plan {
    pub workers: u32,
    pub events: Vec<Planned>,
}

/// The number that JSON is.
fn number(json: &Json) -> Option<u32> {
    u32::try_from(json.as_u64()?).ok()
}

/// The event that JSON says, by a word or by a word and a number.
fn event_said(json: &Json) -> Option<Planned> {
    if json.as_str() == Some("append") {
        return Some(Planned::Append);
    }
    let [word, last] = json.as_array()?.as_slice() else {
        return None;
    };
    let number = number(last)?;
    match word.as_str()? {
        "absorb" => Some(Planned::Absorb(number)),
        "offer" => Some(Planned::Offer(number)),
        "mislead" => Some(Planned::Mislead(number)),
        "take" => Some(Planned::Take(number)),
        _ => None,
    }
}

impl Plan {
    /// Reads the first line of a case.
    pub fn read(alloc: Global, line: &str) -> anyhow::Result<Plan> {
        let json = Json::from_str(alloc, line)?;
        let workers = member(&json, "workers").and_then(number).ok_or(BadCase)?;
        let said = member(&json, "events")
            .and_then(Json::as_array)
            .ok_or(BadCase)?;
        let mut events = Vec::new(alloc);
        for event in said.as_slice() {
            events.push(event_said(event).ok_or(BadCase)?)?;
        }
        Ok(Plan { workers, events })
    }
}

//! Calls of `yp_time`.
ghost use Rattle.yp_time.specs.Ticks.{tick_limit};

use case_frame::fault::{CaseFault, OrFault, or_bad};
use case_frame::given::{self, part};
use case_frame::shown::{self, Answer};
use serde_json::Value as Json;
use std::alloc::Global;
use yp_time::due::next_due;
use yp_time::instant::{anchor_ticks, event_instant};
use yp_time::start::Start;
use yp_time::writing::event_time;

// The last tick, and the farthest anchor from the start.
const LAST_TICK: u64 = 1_000_000_000_000;

pub fn answer(alloc: Global, call: &str, arguments: &Json) -> Answer {
    Ok(Some(match call {
        "start" => second(alloc, given::text(arguments)?)?,
        "anchor_ticks" => ticks(alloc, arguments)?,
        "event_instant" => instant(alloc, given::text(arguments)?)?,
        "event_time" => written(alloc, arguments)?,
        "next_due" => due(alloc, arguments)?,
        _ => return Ok(None),
    }))
}

/// The second of a start.
fn second(alloc: Global, text: &str) -> OrFault<String> {
    match Start::read(text) {
        Ok(start) => {
            let second = start.second();
            Ok(format!(in alloc; "{second}")?)
        }
        Err(_) => shown::quoted(alloc, "bad"),
    }
}

/// The ticks from a start to an anchor.
fn ticks(alloc: Global, arguments: &Json) -> OrFault<String> {
    let start = or_bad(Start::read(given::text(part(arguments, "start")?)?))?;
    match anchor_ticks(&start, given::text(part(arguments, "text")?)?) {
        Ok(ticks) => Ok(format!(in alloc; "{ticks}")?),
        Err(_) => shown::quoted(alloc, "bad"),
    }
}

/// The seconds and nanoseconds of an event time.
fn instant(alloc: Global, text: &str) -> OrFault<String> {
    match event_instant(text) {
        Some(instant) => {
            let seconds = instant.as_second();
            let nanoseconds = instant.subsec_nanosecond();
            Ok(format!(in alloc; "[{seconds},{nanoseconds}]")?)
        }
        None => shown::quoted(alloc, "none"),
    }
}

/// The event time of a tick.
fn written(alloc: Global, arguments: &Json) -> OrFault<String> {
    let start = or_bad(Start::read(given::text(part(arguments, "start")?)?))?;
    let tick = given::number(part(arguments, "tick")?)?;
    if tick > LAST_TICK {
        return Err(CaseFault::BadArgument);
    }
    shown::quoted(alloc, event_time(alloc, &start, tick)?.as_str())
}

/// The first due tick: of an anchor, a period and the tick to begin with.
fn due(alloc: Global, arguments: &Json) -> OrFault<String> {
    let anchor = part(arguments, "anchor")?
        .as_i64()
        .ok_or(CaseFault::BadArgument)?;
    let period = given::id(part(arguments, "period")?)?;
    let from = given::number(part(arguments, "from")?)?;
    if anchor.unsigned_abs() > LAST_TICK || period < 10 || from > 2 * LAST_TICK {
        return Err(CaseFault::BadArgument);
    }
    let due = next_due(anchor, period, from);
    Ok(format!(in alloc; "{due}")?)
}

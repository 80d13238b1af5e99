//! The calls that cases name, library by library.
use crate::{notices, paths, streams, times, values};
use case_frame::fault::{CaseFault, OrFault};
use case_frame::frame::Calls;
use case_frame::shown::Answer;
use serde_json::Value as Json;
use std::alloc::Global;

/// No line sets anything here.
#[derive(Drop)]
pub struct NoSetting;

impl Calls for NoSetting {
    fn set(&mut self, _alloc: Global, _line: &Json) -> OrFault<bool> {
        Ok(false)
    }

    fn answer(&self, alloc: Global, call: &str, arguments: &Json) -> OrFault<String> {
        if let Some(given) = of_values(alloc, call, arguments)? {
            return Ok(given);
        }
        of_streams(alloc, call, arguments)?.ok_or(CaseFault::NoSuchCall)
    }
}

/// The answer of a call on values, paths or notices.
fn of_values(alloc: Global, call: &str, arguments: &Json) -> Answer {
    if let Some(given) = values::answer(alloc, call, arguments)? {
        return Ok(Some(given));
    }
    if let Some(given) = paths::answer(alloc, call, arguments)? {
        return Ok(Some(given));
    }
    notices::answer(alloc, call, arguments)
}

/// The answer of a call on a source, a sink or an instant.
fn of_streams(alloc: Global, call: &str, arguments: &Json) -> Answer {
    if let Some(given) = streams::answer(alloc, call, arguments)? {
        return Ok(Some(given));
    }
    times::answer(alloc, call, arguments)
}

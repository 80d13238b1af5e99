//! Lines of cases: each is read, its call is made, and what it gives is compared with the answer that stands in it.
use crate::fault::{CaseFault, OrFault};
use crate::shown::Told;
use serde_json::Value as Json;
use std::alloc::Global;

/// What lines set, and the calls that cases name.
pub trait Calls {
    /// Sets what a line sets; false where the line is a case.
    fn set(&mut self, alloc: Global, line: &Json) -> OrFault<bool>;

    /// The answer of a call, in JSON.
    fn answer(&self, alloc: Global, call: &str, arguments: &Json) -> OrFault<String>;
}

/// How many cases there were, and how many of them differed.
#[derive(Drop)]
struct Tally {
    cases: u64,
    differing: u64,
}

/// Runs each line, and tells the number of each case that differs with what it gave, and then how many there were.
pub fn report<C: Calls>(alloc: Global, calls: &mut C, text: &str) -> OrFault<String> {
    let mut tally = Tally {
        cases: 0,
        differing: 0,
    };
    let mut told = Told::new(alloc);
    let mut number = 0u64;
    for line in text.lines() {
        number = number.saturating_add(1);
        if !is_skipped(line) {
            if let Some(given) = difference(alloc, calls, &mut tally, line)? {
                told.put(format!(in alloc; "line {number}: {given}\n"));
            }
        }
    }
    let Tally { cases, differing } = tally;
    told.put(format!(in alloc; "{cases} cases, {differing} differ\n"));
    told.done()
}

/// Whether a line is blank or a heading.
fn is_skipped(line: &str) -> bool {
    line.trim().is_empty() || line.starts_with('#')
}

/// What a line gives where it isn't what it must give, or what is wrong with it.
fn difference<C: Calls>(
    alloc: Global,
    calls: &mut C,
    tally: &mut Tally,
    line: &str,
) -> OrFault<Option<String>> {
    let given = match tried(alloc, calls, tally, line) {
        Ok(given) => given,
        Err(fault) => Some(format!(in alloc; "{fault}")?),
    };
    if given.is_some() {
        tally.differing = tally.differing.saturating_add(1);
    }
    Ok(given)
}

/// Sets what a line sets, or makes its call.
fn tried<C: Calls>(
    alloc: Global,
    calls: &mut C,
    tally: &mut Tally,
    line: &str,
) -> OrFault<Option<String>> {
    let json = Json::from_str(alloc, line)?;
    if calls.set(alloc, &json)? {
        return Ok(None);
    }
    tally.cases = tally.cases.saturating_add(1);
    compared(alloc, calls, &json)
}

/// What a case gives, where it isn't its answer.
fn compared<C: Calls>(alloc: Global, calls: &C, case: &Json) -> OrFault<Option<String>> {
    let (call, arguments) = call_of(case).ok_or(CaseFault::NoCall)?;
    let wanted = case.get("gives").ok_or(CaseFault::NoAnswer)?;
    let wanted = wanted.to_string(alloc)?;
    let given = calls.answer(alloc, call, arguments)?;
    if given.as_str() == wanted.as_str() {
        Ok(None)
    } else {
        Ok(Some(given))
    }
}

/// The name of a case's call, and its arguments.
fn call_of(case: &Json) -> Option<(&str, &Json)> {
    for (name, value) in case.as_object()?.iter() {
        if name.as_str() != "gives" {
            return Some((name.as_str(), value));
        }
    }
    None
}

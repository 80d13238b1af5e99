//! The faults of a script, one after another.
ghost use Rattle.std.specs.Prelude.{◌≡◌, ◌≢◌, [], IfOk, string_bytes};

use crate::lines::Lines;
use std::alloc::Global;
use yp_base::memory::NoMemory;
use yp_cause::cause::{Awaited, Cause, Wrong};
use yp_command::fault::{Flaw, ScriptKind};
use yp_script::fault::ScriptFault;
use yp_script::reading::read_script;

/// The most faults that are explained.
const MOST_FAULTS: u32 = 50;

/// A line with a fault.
#[derive(Drop)]
struct Found {
    line: u32,
    flaw: Flaw,
}

/// The name of a fault.
fn name_of(kind: ScriptKind) -> &'static str {
    match kind {
        ScriptKind::TooLong => "too long",
        ScriptKind::NotJson => "not JSON",
        ScriptKind::UnknownCommand => "unknown command",
        ScriptKind::Member => "member",
        ScriptKind::Schema => "schema",
        ScriptKind::Policy => "policy",
        ScriptKind::Patch => "patch",
        ScriptKind::Order => "order",
        ScriptKind::Limit => "limit",
        ScriptKind::Instant => "instant",
    }
}

/// The explanation of a fault: a line.
fn explained(alloc: Global, found: &Found) -> Result<String, NoMemory>
    ensures { IfOk result (λ text. string_bytes text ≢ []) }
{
    let line = found.line;
    let kind = found.flaw.kind;
    let number = kind.number();
    let name = name_of(kind);
    let cause = &found.flaw.cause;
    let rest = format!(in alloc; "{line}: fault {number} ({name}): {cause}\n")?;
    let mut text = String::from_str(alloc, "line ")?;
    text.push_str(rest.as_str())?;
    Ok(text)
}

/// Whether a cause is about the member of this name.
fn is_about(cause: &Cause, member: &str) -> bool {
    match cause.wrong {
        Wrong::Member { name, .. } | Wrong::OutOfRange { name, .. } => name == member,
        _ => false,
    }
}

/// What the lines before a line have yet to say, if they are no script.
fn awaited_at(alloc: Global, lines: &Lines, line: u32) -> Result<Option<Awaited>, NoMemory> {
    let text = lines.text_before(alloc, line)?;
    match read_script(alloc, text.as_slice()) {
        Ok(_) => Ok(None),
        Err(ScriptFault::At { kind: flaw, .. }) => match flaw.cause.wrong {
            Wrong::Ends(awaited) => Ok(Some(awaited)),
            _ => Ok(None),
        },
        Err(ScriptFault::Memory) => Err(NoMemory),
    }
}

/// What is put in place of a line with a fault, so that the lines after it can be judged: a start or a part
/// of the schema where there was none, the lanes' beginning or end, and else nothing.
fn replacement(alloc: Global, lines: &Lines, found: &Found) -> Result<&'static str, NoMemory> {
    let cause = &found.flaw.cause;
    Ok(match awaited_at(alloc, lines, found.line)? {
        Some(Awaited::Start) => "{\"start\":\"2026-01-01T00:00:00Z\"}",
        Some(Awaited::Schema) => "{\"schema\":[]}",
        Some(Awaited::Join) if is_about(cause, "join") => "{\"join\":true}",
        None if is_about(cause, "lanes") => "{\"lanes\":64}",
        _ => "",
    })
}

/// The next fault, once the line of the last is replaced. There is none where that line can't be.
fn next_fault(alloc: Global, lines: &mut Lines, last: &Found) -> Result<Option<Found>, NoMemory> {
    if lines.get(last.line).is_none() {
        return Ok(None);
    }
    let text = replacement(alloc, lines, last)?;
    lines.replace(last.line, text.as_bytes());
    let text = lines.text(alloc)?;
    match read_script(alloc, text.as_slice()) {
        Ok(_) => Ok(None),
        Err(ScriptFault::At { line, kind: flaw }) => {
            if line > last.line {
                Ok(Some(Found { line, flaw }))
            } else {
                Ok(None)
            }
        }
        Err(ScriptFault::Memory) => Err(NoMemory),
    }
}

/// The explanations of the faults after the first.
fn more_faults(alloc: Global, lines: &mut Lines, first: Found) -> Result<String, NoMemory> {
    let mut told = String::new(alloc);
    let mut last = first;
    for _ in 1..MOST_FAULTS {
        let Some(found) = next_fault(alloc, lines, &last)? else {
            return Ok(told);
        };
        told.push_str(explained(alloc, &found)?.as_str())?;
        last = found;
    }
    told.push_str("and perhaps more\n")?;
    Ok(told)
}

/// Explains the faults of a script whose first one is given, a line for each. Each line is judged by the good
/// lines before it.
pub fn faults(alloc: Global, bytes: &[u8], line: u32, flaw: Flaw) -> Result<String, NoMemory>
    ensures { IfOk result (λ text. string_bytes text ≢ []) }
{
    let mut lines = Lines::of_text(alloc, bytes)?;
    let first = Found { line, flaw };
    let mut told = explained(alloc, &first)?;
    let more = more_faults(alloc, &mut lines, first)?;
    told.push_str(more.as_str())?;
    Ok(told)
}

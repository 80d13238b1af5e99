//! The refused commands of a script.
ghost use Rattle.std.specs.Prelude.{◌≤◌, length};
ghost use Rattle.yp_script.specs.Lines.{line_limit};
ghost use Rattle.yp_script.specs.Script.{AreReceivers, MayRun, count_commands};

use crate::edits::refused_edit;
use crate::lines::{Lines, json_of};
use serde_json::Value as Json;
use std::alloc::Global;
use yp_base::memory::NoMemory;
use yp_cause::paths::member_text;
use yp_command::command::request_named;
use yp_command::words::{sole_member, text_in};
use yp_filter::fault::{FilterError, FilterFault, FilterMember};
use yp_filter::filter::Filter;
use yp_live::script::report_of_script;
use yp_patch::fault::PatchFault;
use yp_patch::reading::read_patch;
use yp_schema::schema::Schema;
use yp_script::fault::ScriptFault;
use yp_script::reading::read_script;
use yp_script::script::Script;
use yp_terms::refused::Refused;
use yp_value::json::member;

/// The most lanes of a script.
const MOST_LANES: usize = 64;

/// A reply that refuses: the lane and the number of its command, and its answer.
#[derive(Drop)]
struct Refusal {
    lane: usize,
    index: usize,
    answer: Json,
}

/// The refusal that a line of a report is.
fn refusal_in(alloc: Global, line: &str) -> Result<Option<Refusal>, NoMemory> {
    let Some((_, rest)) = line
        .strip_prefix("reply ")
        .and_then(|rest| rest.split_once(' '))
    else {
        return Ok(None);
    };
    let Some((lane, rest)) = rest.split_once(' ') else {
        return Ok(None);
    };
    let Some((index, answer)) = rest.split_once(' ') else {
        return Ok(None);
    };
    let Some(answer) = json_of(alloc, answer.as_bytes())? else {
        return Ok(None);
    };
    if member(&answer, "error").is_none() {
        return Ok(None);
    }
    match (lane.parse::<usize>(), index.parse::<usize>()) {
        (Ok(lane), Ok(index)) => Ok(Some(Refusal {
            lane,
            index,
            answer,
        })),
        _ => Ok(None),
    }
}

/// The lane of the command that a line has, 0 outside of lanes.
fn lane_of(json: &Json) -> Option<usize> {
    if let Some(lane) = member(json, "lane") {
        return Some(lane.as_u64()? as usize);
    }
    let (name, value) = sole_member(json)?;
    if request_named(name, value).is_some() {
        Some(0)
    } else {
        None
    }
}

/// The numbers of the lines that have commands, for those outside of lanes and for each lane.
fn command_lines(alloc: Global, lines: &Lines) -> Result<Vec<Vec<u32>>, NoMemory> {
    let mut lanes: Vec<Vec<u32>> = Vec::new(alloc);
    for _lane in 0..=MOST_LANES {
        lanes.push(Vec::new(alloc))?;
    }
    let mut number = 0u32;
    for text in lines.texts.as_slice() {
        number = number.saturating_add(1);
        if let Some(json) = json_of(alloc, text)? {
            if let Some(numbers) = lane_of(&json).and_then(|lane| lanes.get_mut(lane)) {
                numbers.push(number)?;
            }
        }
    }
    Ok(lanes)
}

/// The number of the line of a refused command, 0 where it isn't found.
fn line_of(lanes: &[Vec<u32>], refusal: &Refusal) -> u32 {
    match lanes.get(refusal.lane) {
        Some(numbers) => match numbers.as_slice().get(refusal.index.saturating_sub(1)) {
            Some(number) => *number,
            None => 0,
        },
        None => 0,
    }
}

/// Why a command is refused whose line is this JSON.
fn refusal_cause(
    alloc: Global,
    schema: &Schema,
    json: &Json,
    answer: &Json,
) -> Result<String, NoMemory> {
    let command = member(json, "do").unwrap_or(json);
    let error = text_in(answer, "error").unwrap_or("");
    if let Some(value) = member(command, "patch") {
        return patch_refusal(alloc, schema, value, answer, error);
    }
    if error == "filter-unsupported" {
        if let Some((_, value)) = sole_member(command) {
            return filter_refusal(alloc, schema, value);
        }
    }
    Ok(match refused_of(error, answer) {
        Some(refused) => format!(in alloc; "{refused}")?,
        None => String::from_str(alloc, error)?,
    })
}

/// The refusal of a value, by the name of its member.
fn refused_value(member: &str) -> Option<Refused> {
    match member {
        "trigger" => Some(Refused::InvalidTrigger),
        "id" => Some(Refused::InvalidId),
        "receiver" => Some(Refused::InvalidReceiver),
        _ => None,
    }
}

/// The refusal of a name.
fn refused_of(error: &str, answer: &Json) -> Option<Refused> {
    match error {
        "access-denied" => Some(Refused::AccessDenied),
        "encoding-unsupported" => Some(Refused::EncodingUnsupported),
        "datastore-not-subscribable" => Some(Refused::DatastoreNotSubscribable),
        "period-unsupported" => {
            let hint = member(answer, "period-hint")?.as_u64()?;
            Some(Refused::PeriodUnsupported {
                hint: u32::try_from(hint).ok()?,
            })
        }
        "no-such-subscription" => Some(Refused::NoSuchSubscription { resync: false }),
        "no-such-subscription-resync" => Some(Refused::NoSuchSubscription { resync: true }),
        "on-change-sync-unsupported" => Some(Refused::OnChangeSyncUnsupported),
        "invalid-value" => refused_value(text_in(answer, "member")?),
        "insufficient-resources" => Some(Refused::InsufficientResources),
        _ => None,
    }
}

/// Why a patch is refused.
fn patch_refusal(
    alloc: Global,
    schema: &Schema,
    value: &Json,
    answer: &Json,
    error: &str,
) -> Result<String, NoMemory> {
    let id = text_in(answer, "edit-id").unwrap_or("");
    let patch = match read_patch(alloc, value) {
        Ok(patch) => patch,
        Err(wrong) => match wrong.fault {
            PatchFault::Shape => return Ok(String::from_str(alloc, error)?),
            PatchFault::Memory => return Err(NoMemory),
        },
    };
    for edit in patch.edits.items() {
        if edit.id.as_str() == id {
            let cause = refused_edit(alloc, schema, edit, error)?;
            return Ok(format!(in alloc; "edit {id}: {error}: {cause}")?);
        }
    }
    Ok(String::from_str(alloc, error)?)
}

/// Why a filter is refused.
fn filter_refusal(alloc: Global, schema: &Schema, value: &Json) -> Result<String, NoMemory> {
    let Some(filter) = member(value, "datastore-subtree-filter") else {
        return Ok(String::from_str(
            alloc,
            "filter-unsupported: an XPath filter: write it as a subtree filter",
        )?);
    };
    match Filter::read(alloc, schema, filter) {
        Ok(_) => Ok(String::from_str(alloc, "filter-unsupported")?),
        Err(error) => {
            let cause = filter_cause(alloc, schema, &error)?;
            Ok(format!(in alloc; "filter-unsupported: {cause}")?)
        }
    }
}

/// The name of a member of a filter, and of the node below which it stands.
fn member_and_parent<'a>(
    schema: &'a Schema,
    member: &'a FilterMember,
) -> Option<(&'a str, &'a str)> {
    let name = member.name.as_ref()?;
    Some((name.as_str(), member_text(schema, member.parent)?))
}

/// What is wrong with a filter, and at which member.
fn filter_cause(alloc: Global, schema: &Schema, error: &FilterError) -> Result<String, NoMemory> {
    let fault = error.fault;
    if fault == FilterFault::Memory {
        return Err(NoMemory);
    }
    let names = match &error.member {
        Some(member) => member_and_parent(schema, member),
        None => None,
    };
    Ok(match names {
        Some((name, parent)) => format!(in alloc; "member {name:?} of `{parent}`: {fault}")?,
        None => format!(in alloc; "{error}")?,
    })
}

/// The schema of the script that bytes are.
fn schema_of(alloc: Global, bytes: &[u8]) -> Result<Option<Schema>, NoMemory> {
    match read_script(alloc, bytes) {
        Ok(Script { schema, .. }) => Ok(Some(schema)),
        Err(ScriptFault::At { .. }) => Ok(None),
        Err(ScriptFault::Memory) => Err(NoMemory),
    }
}

/// The explanation of a refusal: a line.
fn explained(
    alloc: Global,
    schema: &Schema,
    lines: &Lines,
    lanes: &[Vec<u32>],
    refusal: &Refusal,
) -> Result<String, NoMemory> {
    let line = line_of(lanes, refusal);
    let Refusal { lane, index, .. } = refusal;
    let text = lines.get(line).unwrap_or(&[]);
    let cause = match json_of(alloc, text)? {
        Some(json) => refusal_cause(alloc, schema, &json, &refusal.answer)?,
        None => refusal.answer.to_string(alloc)?,
    };
    if *lane == 0 {
        Ok(format!(in alloc; "line {line} (command {index}): {cause}\n")?)
    } else {
        Ok(format!(in alloc; "line {line} (lane {lane}, command {index}): {cause}\n")?)
    }
}

/// Explains the refused commands of the script that bytes are, a line for each, in the order of the report.
pub fn refusals(alloc: Global, bytes: &[u8], script: Script) -> Result<String, NoMemory>
    requires receivers { AreReceivers script.receivers }
    requires commands { MayRun script }
    requires lanes { length script.lanes ≤ 64 }
    requires count { count_commands script ≤ line_limit }
{
    let mut told = String::new(alloc);
    let report = report_of_script(alloc, script)?;
    let lines = Lines::of_text(alloc, bytes)?;
    let lanes = command_lines(alloc, &lines)?;
    let Some(schema) = schema_of(alloc, bytes)? else {
        return Ok(told);
    };
    for line in report.lines() {
        if let Some(refusal) = refusal_in(alloc, line)? {
            let text = explained(alloc, &schema, &lines, lanes.as_slice(), &refusal)?;
            told.push_str(text.as_str())?;
        }
    }
    Ok(told)
}

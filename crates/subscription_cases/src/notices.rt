//! Calls of `yp_encode`: the lines of notices.
ghost use Rattle.std.specs.Prelude.{◌≡◌, IfOk, true};
ghost use Rattle.std.specs.List.{AllByRecursion};
ghost use Rattle.yp_schema.specs.Datastore.{AreWritable, is_path_of, is_place};
ghost use Rattle.yp_encode.specs.Lines.{carries_value};
ghost use Rattle.yp_encode.specs.Sendable.{IsSendable, IsSendableChange, is_served};

use case_frame::fault::{CaseFault, OrFault, or_bad};
use case_frame::given::{id, items, named, number, part, text};
use case_frame::shown::{Answer, plain};
use serde_json::Value as Json;
use std::alloc::Global;
use yp_base::notice::{Change, ChangeKind, Changes, Notice};
use yp_base::path::Path;
use yp_base::row::Rows;
use yp_base::series::Series;
use yp_data_json::at_path::read_rows;
use yp_encode::line::line;
use yp_path::target::read_target;
use yp_schema::schema::Schema;
use yp_time::start::Start;

// The last tick.
const LAST_TICK: u64 = 1_000_000_000_000;

pub fn answer(alloc: Global, schema: &Schema, call: &str, arguments: &Json) -> Answer {
    Ok(Some(match call {
        "line" => line_of(alloc, schema, arguments)?,
        _ => return Ok(None),
    }))
}

/// The line of a notice at a tick after the first second of 2026.
fn line_of(alloc: Global, schema: &Schema, arguments: &Json) -> OrFault<String> {
    let start = or_bad(Start::read("2026-01-01T00:00:00Z"))?;
    let tick = number(part(arguments, "tick")?)?;
    if tick > LAST_TICK {
        return Err(CaseFault::BadArgument);
    }
    let notice = notice(alloc, schema, part(arguments, "notice")?)?;
    let text = line(alloc, schema, &start, tick, &notice)?;
    plain(alloc, text.as_str())
}

/// The notice of an argument, whose one member names its sort.
fn notice(alloc: Global, schema: &Schema, json: &Json) -> OrFault<Notice>
    ensures { IfOk result (IsSendable schema.now) }
{
    let (sort, body) = named(json)?;
    match sort {
        "full" => full(alloc, schema, body),
        "changes" => changes(alloc, schema, body),
        "started" => Ok(Notice::Started { id: id(body)? }),
        "modified" => Ok(Notice::Modified { id: id(body)? }),
        "suspended" => Ok(Notice::Suspended { id: id(body)? }),
        "resumed" => Ok(Notice::Resumed { id: id(body)? }),
        "terminated" => Ok(Notice::Terminated { id: id(body)? }),
        _ => Err(CaseFault::BadArgument),
    }
}

/// A full update.
fn full(alloc: Global, schema: &Schema, body: &Json) -> OrFault<Notice>
    ensures { IfOk result (IsSendable schema.now) }
{
    let top = Path::top(alloc)?;
    let rows = rows(alloc, schema, &top, part(body, "data")?)?;
    let id = id(part(body, "id")?)?;
    Ok(Notice::Full { id, rows })
}

/// The rows of a value at a place.
#[tactic(auto, using(crate::proofs::Datastores::whole_is_writable))]
fn rows(alloc: Global, schema: &Schema, at: &Path, value: &Json) -> OrFault<Rows>
    requires { is_place schema.now at.now ≡ true }
    ensures { IfOk result (AreWritable schema.now at.now) }
{
    or_bad(read_rows(alloc, schema, at, value))
}

/// A change update.
fn changes(alloc: Global, schema: &Schema, body: &Json) -> OrFault<Notice>
    ensures { IfOk result (IsSendable schema.now) }
{
    let changes = all_changes(alloc, schema, items(part(body, "edits")?)?)?;
    let incomplete = part(body, "incomplete")?
        .as_bool()
        .ok_or(CaseFault::BadArgument)?;
    let patch_id = number(part(body, "patch-id")?)?;
    let id = id(part(body, "id")?)?;
    Ok(Notice::Changes {
        id,
        patch_id,
        changes,
        incomplete,
    })
}

fn all_changes(alloc: Global, schema: &Schema, edits: &[Json]) -> OrFault<Changes>
    ensures { IfOk result (AllByRecursion (IsSendableChange schema.now)) }
{
    let mut changes = Vec::new(alloc);
    for edit in edits {
        changes.push(change(alloc, schema, edit)?)?;
    }
    Ok(Series::from_vec(changes))
}

/// A change: `{"delete":TARGET}`, or `{"create":TARGET,"value":JSON}`, or the same with `replace`.
fn change(alloc: Global, schema: &Schema, edit: &Json) -> OrFault<Change>
    ensures { IfOk result (IsSendableChange schema.now) }
{
    let (operation, target) = named(edit)?;
    let target = or_bad(read_target(alloc, schema, text(target)?))?;
    match operation {
        "create" => valued(
            alloc,
            schema,
            ChangeKind::Create,
            target,
            part(edit, "value")?,
        ),
        "replace" => valued(
            alloc,
            schema,
            ChangeKind::Replace,
            target,
            part(edit, "value")?,
        ),
        "delete" => Ok(Change {
            kind: ChangeKind::Delete,
            target,
            rows: Series::from_vec(Vec::new(alloc)),
            after: None,
        }),
        _ => Err(CaseFault::BadArgument),
    }
}

/// The rows of a value at a target that is no key leaf.
fn rows_below(alloc: Global, schema: &Schema, target: &Path, value: &Json) -> OrFault<Rows>
    requires { is_path_of schema.now target.now ≡ true }
    ensures { IfOk result (AreWritable schema.now target.now) }
{
    if schema.ends_in_key(target) {
        return Err(CaseFault::BadArgument);
    }
    rows(alloc, schema, target, value)
}

/// A change with a value at its target.
fn valued(
    alloc: Global,
    schema: &Schema,
    kind: ChangeKind,
    target: Path,
    value: &Json,
) -> OrFault<Change>
    requires target { is_path_of schema.now target ≡ true }
    requires kind { carries_value kind ≡ true }
    requires served { is_served kind ≡ true }
    ensures { IfOk result (IsSendableChange schema.now) }
{
    let rows = rows_below(alloc, schema, &target, value)?;
    Ok(Change {
        kind,
        target,
        rows,
        after: None,
    })
}

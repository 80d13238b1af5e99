//! Calls of `yp_base` on changes and notices, which are copied.
use case_frame::fault::{CaseFault, OrFault};
use case_frame::given::{self, part};
use case_frame::shown::{Answer, Told};
use serde_json::Value as Json;
use std::alloc::Global;
use yp_base::keys::Keys;
use yp_base::memory::Duplicate;
use yp_base::notice::{Change, ChangeKind, Changes, Notice};
use yp_base::series::Series;

pub fn answer(alloc: Global, call: &str, arguments: &Json) -> Answer {
    Ok(Some(match call {
        "copy_change" => copied_change(alloc, arguments)?,
        "copy_notice" => copied_notice(alloc, &notice(alloc, arguments)?)?,
        _ => return Ok(None),
    }))
}

fn copied_change(alloc: Global, json: &Json) -> OrFault<String> {
    let copy = change(alloc, json)?.copy(alloc)?;
    let mut told = Told::new(alloc);
    tell_change(&mut told, &copy);
    told.done()
}

fn copied_notice(alloc: Global, notice: &Notice) -> OrFault<String> {
    let copy = notice.copy(alloc)?;
    let mut told = Told::new(alloc);
    tell_notice(alloc, &mut told, &copy);
    told.done()
}

fn kind(json: &Json) -> OrFault<ChangeKind> {
    match given::text(json)? {
        "create" => Ok(ChangeKind::Create),
        "delete" => Ok(ChangeKind::Delete),
        "insert" => Ok(ChangeKind::Insert),
        "move" => Ok(ChangeKind::Move),
        "replace" => Ok(ChangeKind::Replace),
        _ => Err(CaseFault::BadArgument),
    }
}

/// The keys of the entry before, if it is told.
fn after(alloc: Global, json: &Json) -> OrFault<Option<Keys>> {
    match json {
        Json::Array(keys) => Ok(Some(given::keys(alloc, keys.as_slice())?)),
        _ => Ok(None),
    }
}

/// A change: `{"after":[..],"kind":"replace","rows":[..],"target":[..]}`.
fn change(alloc: Global, json: &Json) -> OrFault<Change> {
    let kind = kind(part(json, "kind")?)?;
    let after = after(alloc, part(json, "after")?)?;
    let rows = given::rows(alloc, part(json, "rows")?)?;
    let target = given::path(alloc, part(json, "target")?)?;
    Ok(Change {
        kind,
        target,
        rows,
        after,
    })
}

fn changes(alloc: Global, json: &Json) -> OrFault<Changes> {
    let mut changes = Vec::new(alloc);
    for each in given::items(json)? {
        changes.push(change(alloc, each)?)?;
    }
    Ok(Series::from_vec(changes))
}

/// A notice: `["full",1,[..]]`, `["changes",2,7,[..],true]`, `["started",3]`.
fn notice(alloc: Global, json: &Json) -> OrFault<Notice> {
    match given::items(json)? {
        [name, id] => Ok(state(given::text(name)?, given::id(id)?)?),
        [_name, id, rows] => Ok(Notice::Full {
            id: given::id(id)?,
            rows: given::rows(alloc, rows)?,
        }),
        [_name, id, patch_id, changed, incomplete] => Ok(Notice::Changes {
            id: given::id(id)?,
            patch_id: given::number(patch_id)?,
            incomplete: incomplete.as_bool().ok_or(CaseFault::BadArgument)?,
            changes: changes(alloc, changed)?,
        }),
        _ => Err(CaseFault::BadArgument),
    }
}

fn state(name: &str, id: u32) -> OrFault<Notice> {
    match name {
        "started" => Ok(Notice::Started { id }),
        "modified" => Ok(Notice::Modified { id }),
        "suspended" => Ok(Notice::Suspended { id }),
        "resumed" => Ok(Notice::Resumed { id }),
        "terminated" => Ok(Notice::Terminated { id }),
        _ => Err(CaseFault::BadArgument),
    }
}

fn tell_notice(alloc: Global, told: &mut Told, notice: &Notice) {
    match notice {
        Notice::Full { id, rows } => {
            told.put(format!(in alloc; "[\"full\",{id},"));
            told.rows(rows);
            told.push("]");
        }
        Notice::Changes {
            id,
            patch_id,
            changes,
            incomplete,
        } => {
            told.put(format!(in alloc; "[\"changes\",{id},{patch_id},["));
            tell_changes(told, changes);
            told.put(format!(in alloc; "],{incomplete}]"));
        }
        Notice::Started { id } => told.put(format!(in alloc; "[\"started\",{id}]")),
        Notice::Modified { id } => told.put(format!(in alloc; "[\"modified\",{id}]")),
        Notice::Suspended { id } => told.put(format!(in alloc; "[\"suspended\",{id}]")),
        Notice::Resumed { id } => told.put(format!(in alloc; "[\"resumed\",{id}]")),
        Notice::Terminated { id } => told.put(format!(in alloc; "[\"terminated\",{id}]")),
    }
}

fn tell_changes(told: &mut Told, changes: &Changes) {
    for change in changes.items() {
        told.comma();
        tell_change(told, change);
    }
}

fn tell_change(told: &mut Told, change: &Change) {
    told.push("{\"after\":");
    tell_after(told, &change.after);
    told.push(",\"kind\":");
    told.quoted(kind_name(change.kind));
    told.push(",\"rows\":");
    told.rows(&change.rows);
    told.push(",\"target\":");
    told.path(&change.target);
    told.push("}");
}

fn tell_after(told: &mut Told, after: &Option<Keys>) {
    match after {
        Some(keys) => {
            told.push("[");
            told.keys(keys);
            told.push("]");
        }
        None => told.push("null"),
    }
}

fn kind_name(kind: ChangeKind) -> &'static str {
    match kind {
        ChangeKind::Create => "create",
        ChangeKind::Delete => "delete",
        ChangeKind::Insert => "insert",
        ChangeKind::Move => "move",
        ChangeKind::Replace => "replace",
    }
}

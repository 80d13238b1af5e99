//! What is wrong with a policy, in words.
use crate::cause::Cause;
use crate::excerpt::Excerpt;
use crate::paths::path_text;
use serde_json::Value as Json;
use std::alloc::Global;
use yp_base::memory::NoMemory;
use yp_nacm_text::fault::{Place, PolicyKind};
use yp_path::rule::read_rule_path;
use yp_schema::schema::Schema;
use yp_value::json::member;

/// The cause of a fault of a policy of a schema, by its place and its kind.
pub fn policy_cause(
    alloc: Global,
    schema: &Schema,
    policy: &Json,
    place: Place,
    kind: PolicyKind,
) -> Cause {
    Cause::told(Excerpt::made(policy_text(alloc, schema, policy, place, kind)))
}

/// What is wrong with a policy of a schema, by the place and the kind of its fault. Of a rule or a group it
/// also tells the JSON, and of a path of a rule the segment.
fn policy_text(
    alloc: Global,
    schema: &Schema,
    policy: &Json,
    place: Place,
    kind: PolicyKind,
) -> Result<String, NoMemory> {
    let Some(part) = part_at(alloc, policy, place)? else {
        return Ok(format!(in alloc; "{place}: {kind}")?);
    };
    let shown = part.to_string(alloc)?;
    Ok(match rule_text(alloc, schema, kind, part)? {
        Some(path) => format!(in alloc; "{place}: {path}: {shown}")?,
        None => format!(in alloc; "{place}: {kind}: {shown}")?,
    })
}

/// The way to a rule or a group of a policy (RFC 6901).
fn way_to(alloc: Global, place: Place) -> Result<Option<String>, NoMemory> {
    let way = match place {
        Place::Group(group) => format!(in alloc; "/ietf-netconf-acm:nacm/groups/group/{group}")?,
        Place::Rule { list, rule } => {
            format!(in alloc; "/ietf-netconf-acm:nacm/rule-list/{list}/rule/{rule}")?
        }
        Place::Policy | Place::List(_) => return Ok(None),
    };
    Ok(Some(way))
}

/// The rule or the group at a place of a policy.
fn part_at(alloc: Global, policy: &Json, place: Place) -> Result<Option<&Json>, NoMemory> {
    match way_to(alloc, place)? {
        Some(way) => Ok(policy.pointer(way.as_str())),
        None => Ok(None),
    }
}

/// What is wrong with the path of a rule, where it is the path.
fn rule_text(
    alloc: Global,
    schema: &Schema,
    kind: PolicyKind,
    rule: &Json,
) -> Result<Option<String>, NoMemory> {
    let PolicyKind::Path(_) = kind else {
        return Ok(None);
    };
    let Some(text) = member(rule, "path").and_then(Json::as_str) else {
        return Ok(None);
    };
    match read_rule_path(alloc, schema, text) {
        Ok(_) => Ok(None),
        Err(error) => Ok(Some(path_text(alloc, schema, &error)?)),
    }
}

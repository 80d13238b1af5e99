//! Rules.
ghost use Rattle.std.specs.Prelude.{◌≡◌, IfOk, option_map, option_and_then, option_copied, codes};
ghost use Rattle.serde_json.specs.View.{view, members_view};
ghost use Rattle.yp_value.specs.Json.{text_member};
ghost use Rattle.yp_base.specs.Types.{is_among};
ghost use Rattle.yp_nacm_text.specs.Faults.{Reads};
ghost use Rattle.yp_nacm_text.specs.Members.{permits_by};
ghost use Rattle.yp_nacm_text.specs.NameSets.{AddsName};
ghost use Rattle.yp_nacm.specs.Policies.{IsSubjectOf};
ghost use Rattle.yp_nacm_text.specs.Rules.{are_texts, has, has_one_type, rule_members, unless_all, subject_named, subject_in, rule_in};

use crate::fault::{Place, PolicyFault, PolicyKind};
use crate::members::{Part, members_as, permits_by};
use crate::names::NameSet;
use crate::operations::operations_in;
use serde_json::{Map, Value as Json};
use std::alloc::Global;
use yp_base::memory::NoMemory;
use yp_base::txt::{Txt, text_of};
use yp_nacm::policy::{Rule, Subject};
use yp_path::fault::PathFault;
use yp_path::rule::read_rule_path;
use yp_schema::schema::Schema;
use yp_value::members::{member_in, text_in};

/// Whether each member is a text.
fn are_texts(members: &Map<String, Json>) -> bool
    ensures { result ≡ are_texts (members_view members.now.entries) }
{
    for (_, json) in members.iter() {
        match json.as_str() {
            Some(_) => (),
            None => return false,
        }
    }
    true
}

/// Whether there is a member of this name.
fn has(members: &Map<String, Json>, name: &str) -> bool
    ensures { result ≡ has name.now (members_view members.now.entries) }
{
    member_in(members, name).is_some()
}

/// Whether there is at most one rule type.
fn has_one_type(members: &Map<String, Json>) -> bool
    ensures { result ≡ has_one_type (members_view members.now.entries) }
{
    let rpc = has(members, "rpc-name");
    let notification = has(members, "notification-name");
    let path = has(members, "path");
    !(rpc && notification) && !(rpc && path) && !(notification && path)
}

/// The members of a rule: texts, and at most one rule type.
fn rule_members(json: &Json) -> Option<&Map<String, Json>>
    ensures { option_map (λ members. members_view members.now.entries) result ≡ rule_members (view json.now) }
{
    let members = members_as(Part::Rule, json)?;
    if are_texts(members) && has_one_type(members) {
        Some(members)
    } else {
        None
    }
}

/// A text of its own, `None` for `*` and for one that is left out.
fn unless_all(alloc: Global, text: Option<&str>) -> Result<Option<Txt>, NoMemory>
    ensures { IfOk result (λ named. named ≡ unless_all (option_copied text.entry)) }
{
    match text {
        Some(text) => {
            if text == "*" {
                Ok(None)
            } else {
                Ok(Some(text_of(alloc, text)?))
            }
        }
        None => Ok(None),
    }
}

/// What a rule without a path is about.
fn subject_named(alloc: Global, members: &Map<String, Json>) -> Result<Subject, NoMemory>
    ensures { IfOk result (λ subject. subject ≡ subject_named (text_member (codes "notification-name") (members_view members.now.entries)) (text_member (codes "rpc-name") (members_view members.now.entries))) }
{
    if text_in(members, "notification-name").is_some() {
        return Ok(Subject::Other);
    }
    match text_in(members, "rpc-name") {
        Some(name) => Ok(Subject::Operation(unless_all(alloc, Some(name))?)),
        None => Ok(Subject::Any),
    }
}

/// What a rule is about.
fn read_subject(
    alloc: Global,
    schema: &Schema,
    place: Place,
    members: &Map<String, Json>,
) -> Result<Subject, PolicyFault>
    ensures read { Reads result (subject_in schema.now place (members_view members.now.entries)) }
    ensures path { IfOk result (λ subject. IsSubjectOf schema.now subject) }
{
    match text_in(members, "path") {
        Some(text) => match read_rule_path(alloc, schema, text) {
            Ok(path) => Ok(Subject::Path(path)),
            Err(error) => match error.fault {
                PathFault::Memory => Err(PolicyFault::Memory),
                fault => Err(PolicyFault::At {
                    place,
                    kind: PolicyKind::Path(fault),
                }),
            },
        },
        None => Ok(subject_named(alloc, members)?),
    }
}

/// Whether a rule permits.
fn action_in(members: &Map<String, Json>) -> Option<bool>
    ensures { result ≡ option_and_then permits_by (text_member (codes "action") (members_view members.now.entries)) }
{
    permits_by(text_in(members, "action")?)
}

/// Reads a rule, whose name is then taken. Of its faults the first is answered.
pub fn read_rule<'a>(
    alloc: Global,
    schema: &Schema,
    place: Place,
    names: &mut NameSet<'a>,
    json: &'a Json,
) -> Result<Rule, PolicyFault>
    ensures read { Reads result (rule_in schema.now place (λ name. is_among name names.old) (view json.now)) }
    ensures name { IfOk result (λ rule. AddsName names.old names.new rule.name) }
    ensures path { IfOk result (λ rule. IsSubjectOf schema.now rule.subject) }
{
    let fault = |kind| PolicyFault::At { place, kind };
    let members = rule_members(json).ok_or(fault(PolicyKind::Member))?;
    let name = text_in(members, "name").ok_or(fault(PolicyKind::Member))?;
    let subject = read_subject(alloc, schema, place, members)?;
    let operations = operations_in(text_in(members, "access-operations")).ok_or(fault(
        PolicyKind::Operation,
    ))?;
    let permit = action_in(members).ok_or(fault(PolicyKind::Action))?;
    if !names.take(name)? {
        return Err(fault(PolicyKind::DuplicateName));
    }
    Ok(Rule {
        name: text_of(alloc, name)?,
        module: unless_all(alloc, text_in(members, "module-name"))?,
        read: operations.read,
        exec: operations.exec,
        subject,
        permit,
    })
}

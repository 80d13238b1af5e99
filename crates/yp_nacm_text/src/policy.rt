//! Policies: reading.
ghost use Rattle.std.specs.Prelude.{◌≡◌, IfOk, option_map};
ghost use Rattle.serde_json.specs.View.{view, items_view, members_view};
ghost use Rattle.yp_nacm_text.specs.Faults.{Reads};
ghost use Rattle.yp_nacm.specs.Policies.{IsPolicyOf};
ghost use Rattle.yp_nacm_text.specs.Policies.{policy_members, group_items, policy_in};

use crate::fault::{Place, PolicyFault, PolicyKind};
use crate::group::read_groups;
use crate::list::read_lists;
use crate::members::{Part, array_of, items_in, members_as};
use crate::switches::switches_in;
use serde_json::{Map, Value as Json};
use std::alloc::Global;
use yp_nacm::policy::Policy;
use yp_schema::schema::Schema;
use yp_value::members::member_in;

/// A member of the policy itself is missing, unknown or bad.
const BAD_MEMBER: PolicyFault = PolicyFault::At {
    place: Place::Policy,
    kind: PolicyKind::Member,
};

/// The members of the policy that a document has.
fn policy_members(json: &Json) -> Option<&Map<String, Json>>
    ensures { option_map (λ members. members_view members.now.entries) result ≡ policy_members (view json.now) }
{
    let document = members_as(Part::Document, json)?;
    members_as(Part::Policy, member_in(document, "ietf-netconf-acm:nacm")?)
}

/// The items of the groups, none where they are left out.
fn group_items(members: &Map<String, Json>) -> Option<&[Json]>
    ensures { option_map (λ items. items_view items.now) result ≡ group_items (members_view members.now.entries) }
{
    match member_in(members, "groups") {
        Some(json) => array_of(member_in(members_as(Part::Groups, json)?, "group")?),
        None => Some(&[]),
    }
}

/// Reads a policy (RFC 8341 section 3.5, in JSON by RFC 7951): an object of the one member
/// `ietf-netconf-acm:nacm`. Of its faults the first is answered: first those of the policy itself, then of
/// each group, and then of each rule list, its own before those of its rules. `Memory` is answered only
/// where memory ran out, whatever the JSON is.
pub fn read_policy(alloc: Global, schema: &Schema, json: &Json) -> Result<Policy, PolicyFault>
    ensures read { Reads result (policy_in schema.now (view json.now)) }
    ensures paths { IfOk result (λ policy. IsPolicyOf schema.now policy) }
{
    let members = policy_members(json).ok_or(BAD_MEMBER)?;
    let switches = switches_in(members).ok_or(BAD_MEMBER)?;
    let groups = group_items(members).ok_or(BAD_MEMBER)?;
    let lists = items_in(members, "rule-list").ok_or(BAD_MEMBER)?;
    Ok(Policy {
        enabled: switches.enabled,
        read_permit: switches.read_permit,
        exec_permit: switches.exec_permit,
        groups: read_groups(alloc, groups)?,
        lists: read_lists(alloc, schema, lists)?,
    })
}

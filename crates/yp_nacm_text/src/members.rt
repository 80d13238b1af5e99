//! The members of the objects in a policy.
ghost use Rattle.std.specs.Prelude.{◌≡◌, IfOk, option_map, option_and_then};
ghost use Rattle.serde_json.specs.View.{view, items_view, members_view};
ghost use Rattle.serde_json.specs.Find.{as_array};
ghost use Rattle.yp_base.specs.Types.{is_among};
ghost use Rattle.yp_nacm_text.specs.Members.{names_of, has_only, members_as, switch, permits_by, default_word, texts_of, items_of};

use serde_json::{Map, Value as Json};
use std::alloc::Global;
use yp_base::leaf_type::Names;
use yp_base::memory::NoMemory;
use yp_value::members::{member_in, read_texts};

/// The objects of a policy.
#[derive(Drop, Clone, Copy, PartialEq, Eq)]
pub enum Part {
    /// What holds the policy.
    Document,
    /// The policy.
    Policy,
    /// What holds the groups.
    Groups,
    /// A group.
    Group,
    /// A rule list.
    List,
    /// A rule.
    Rule,
}

/// Whether a part may have a member of this name.
fn may_have(part: Part, name: &str) -> bool
    ensures { result ≡ is_among name.now (names_of part) }
{
    match part {
        Part::Document => name == "ietf-netconf-acm:nacm",
        Part::Policy => {
            name == "enable-nacm"
                || name == "read-default"
                || name == "write-default"
                || name == "exec-default"
                || name == "enable-external-groups"
                || name == "groups"
                || name == "rule-list"
        }
        Part::Groups => name == "group",
        Part::Group => name == "name" || name == "user-name",
        Part::List => name == "name" || name == "group" || name == "rule",
        Part::Rule => {
            name == "name"
                || name == "module-name"
                || name == "rpc-name"
                || name == "notification-name"
                || name == "path"
                || name == "access-operations"
                || name == "action"
                || name == "comment"
        }
    }
}

/// Whether an object has only members that a part may have.
fn has_only(part: Part, members: &Map<String, Json>) -> bool
    ensures { result ≡ has_only part (members_view members.now.entries) }
{
    for (name, _) in members.iter() {
        if !may_have(part, name.as_str()) {
            return false;
        }
    }
    true
}

/// The members of a part: `None` where it is no object, or has a member that it may not have.
pub fn members_as(part: Part, json: &Json) -> Option<&Map<String, Json>>
    ensures { option_map (λ members. members_view members.now.entries) result ≡ members_as part (view json.now) }
{
    match json {
        Json::Object(members) => {
            if has_only(part, members) {
                Some(members)
            } else {
                None
            }
        }
        _ => None,
    }
}

/// A switch, which is on where it is left out.
pub fn switch_in(members: &Map<String, Json>, name: &str) -> Option<bool>
    ensures { result ≡ switch name.now (members_view members.now.entries) }
{
    match member_in(members, name) {
        Some(json) => json.as_bool(),
        None => Some(true),
    }
}

/// Whether a word permits.
pub fn permits_by(word: &str) -> Option<bool>
    ensures { result ≡ permits_by word.now }
{
    if word == "permit" {
        Some(true)
    } else if word == "deny" {
        Some(false)
    } else {
        None
    }
}

/// A default, which permits where it is left out.
pub fn default_in(members: &Map<String, Json>, name: &str) -> Option<bool>
    ensures { result ≡ default_word name.now (members_view members.now.entries) }
{
    match member_in(members, name) {
        Some(json) => permits_by(json.as_str()?),
        None => Some(true),
    }
}

/// The items of an array.
pub fn array_of(json: &Json) -> Option<&[Json]>
    ensures { option_map (λ items. items_view items.now) result ≡ as_array (view json.now) }
{
    match json {
        Json::Array(items) => Some(items.as_slice()),
        _ => None,
    }
}

/// The items of an array, none where it is left out.
pub fn items_in<'a>(members: &'a Map<String, Json>, name: &str) -> Option<&'a [Json]>
    ensures { option_map (λ items. items_view items.now) result ≡ items_of name.now (members_view members.now.entries) }
{
    match member_in(members, name) {
        Some(json) => array_of(json),
        None => Some(&[]),
    }
}

/// The texts of an array, none where it is left out.
pub fn texts_of(
    alloc: Global,
    members: &Map<String, Json>,
    name: &str,
) -> Result<Option<Names>, NoMemory>
    ensures { IfOk result (λ texts. texts ≡ texts_of name.now (members_view members.now.entries)) }
{
    match items_in(members, name) {
        Some(items) => read_texts(alloc, items),
        None => Ok(None),
    }
}

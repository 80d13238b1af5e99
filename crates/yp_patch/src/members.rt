//! Members of JSON objects.
ghost use Rattle.std.specs.Prelude.{◌≡◌, option_map};
ghost use Rattle.serde_json.specs.View.{view, members_view};
ghost use Rattle.yp_value.specs.Json.{text_member};
ghost use Rattle.yp_patch.specs.Shapes.{ReadsAs, some_text, one_if, sole};

use crate::fault::PatchError;
use serde_json::{Map, Value as Json};
use std::alloc::Global;
use yp_base::txt::{Txt, text_of};
use yp_value::members::{count, member_in, text_in};

/// The text of a member.
pub fn read_text(alloc: Global, members: &Map<String, Json>, name: &str) -> Result<Txt, PatchError>
    ensures { ReadsAs result (text_member name.now (members_view members.now.entries)) }
{
    match text_in(members, name) {
        Some(text) => Ok(text_of(alloc, text)?),
        None => Err(PatchError::shape(alloc, Some(name))),
    }
}

/// The text of a member that may be left out.
pub fn read_some_text(
    alloc: Global,
    members: &Map<String, Json>,
    name: &str,
) -> Result<Option<Txt>, PatchError>
    ensures { ReadsAs result (some_text name.now (members_view members.now.entries)) }
{
    match member_in(members, name) {
        Some(json) => match json.as_str() {
            Some(text) => Ok(Some(text_of(alloc, text)?)),
            None => Err(PatchError::shape(alloc, Some(name))),
        },
        None => Ok(None),
    }
}

/// One for a part that is there.
pub fn one_if<X>(part: &Option<X>) -> usize
    ensures { result ≡ one_if part.now }
{
    match part {
        Some(_) => 1,
        None => 0,
    }
}

/// The first member of an object whose name is none of these.
pub fn other_than<'a>(members: &'a Map<String, Json>, names: &[&str]) -> Option<&'a str> {
    for (name, _) in members.iter() {
        if !(&*names).contains(&name.as_str()) {
            return Some(name.as_str());
        }
    }
    None
}

/// The members of an object of one member, where that has this name and is an object.
pub fn only<'a>(json: &'a Json, name: &str) -> Option<&'a Map<String, Json>>
    ensures { option_map (λ members. members_view members.now.entries) result ≡ sole name.now (view json.now) }
{
    let members = json.as_object()?;
    if count(members) != 1 {
        return None;
    }
    match member_in(members, name) {
        Some(json) => json.as_object(),
        None => None,
    }
}

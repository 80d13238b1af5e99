//! The members of JSON objects, and texts in JSON.
ghost use Rattle.std.specs.Prelude.{◌≡◌, IfOk, IfSome, option_map};
ghost use Rattle.serde_json.specs.Data.{member, no_members, object};
ghost use Rattle.serde_json.specs.Events.{members_len};
ghost use Rattle.serde_json.specs.Find.{get_member};
ghost use Rattle.serde_json.specs.View.{view, items_view, members_view};
ghost use Rattle.yp_value.specs.Json.{text_member, texts_in};

use serde_json::{Map, Value as Json};
use std::alloc::Global;
use yp_base::leaf_type::Names;
use yp_base::memory::NoMemory;
use yp_base::series::Series;
use yp_base::txt::text_of;

/// How many members an object has.
pub fn count(members: &Map<String, Json>) -> usize
    ensures { result ≡ members_len (members_view members.now.entries) }
{
    members.len()
}

/// The name and the value of an object of one member.
pub fn only_member(json: &Json) -> Option<(&str, &Json)>
    ensures { IfSome result (λ only. view json.now ≡ object (member only.0.now (view only.1.now) no_members)) }
{
    match json {
        Json::Object(members) if members.len() == 1 => {
            let (name, value) = members.iter().next()?;
            Some((name.as_str(), value))
        }
        _ => None,
    }
}

/// The member of an object that has this name.
pub fn member_in<'a>(members: &'a Map<String, Json>, name: &str) -> Option<&'a Json>
    ensures { option_map (λ json. view json.now) result ≡ get_member name.now (members_view members.now.entries) }
{
    members.get(name)
}

/// The text that a member of this name is.
pub fn text_in<'a>(members: &'a Map<String, Json>, name: &str) -> Option<&'a str>
    ensures { option_map (λ text. text.now) result ≡ text_member name.now (members_view members.now.entries) }
{
    match member_in(members, name) {
        Some(json) => json.as_str(),
        None => None,
    }
}

/// The texts of an array, where it holds nothing else.
pub fn read_texts(alloc: Global, items: &[Json]) -> Result<Option<Names>, NoMemory>
    ensures { IfOk result (λ texts. texts ≡ texts_in (items_view items.now)) }
{
    let mut texts = Vec::new(alloc);
    for item in items {
        match item.as_str() {
            Some(text) => texts.push(text_of(alloc, text)?)?,
            None => return Ok(None),
        }
    }
    Ok(Some(Series::from_vec(texts)))
}

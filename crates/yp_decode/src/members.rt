//! Members of JSON objects.
ghost use Rattle.std.specs.Prelude.{◌≡◌, option_map};
ghost use Rattle.serde_json.specs.View.{view, members_view};
ghost use Rattle.yp_value.specs.Json.{seen_member};
ghost use Rattle.yp_decode.specs.Envelope.{only_in, other_member};

use serde_json::{Map, Value as Json};
use yp_value::members::{count, member_in};

/// The members of an object of one member, where that has this name and is an object.
pub fn only_in<'a>(json: &'a Json, name: &str) -> Option<&'a Map<String, Json>>
    ensures { option_map (λ members. members_view members.now.entries) result ≡ only_in name.now (view json.now) }
{
    match json {
        Json::Object(members) => {
            if count(members) != 1 {
                return None;
            }
            match member_in(members, name) {
                Some(json) => json.as_object(),
                None => None,
            }
        }
        _ => None,
    }
}

/// The first member of another name: its name and its value.
pub fn other_member<'a>(members: &'a Map<String, Json>, name: &str) -> Option<(&'a str, &'a Json)>
    ensures { option_map seen_member result ≡ other_member name.now (members_view members.now.entries) }
{
    for (own, value) in members.iter() {
        if own.as_str() != name {
            return Some((own.as_str(), value));
        }
    }
    None
}

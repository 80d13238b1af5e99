//! How deep JSON nests.
ghost use Rattle.std.specs.Prelude.{◌≡◌, nat_le};
ghost use Rattle.serde_json.specs.Data.{depth, items_depth, members_depth};
ghost use Rattle.serde_json.specs.View.{view, items_view, members_view};

use serde_json::{Map, Value as Json};

/// Whether arrays and objects nest at most so deep. It goes no deeper than that itself.
#[cycle(nesting)]
pub(crate) fn nests_within(json: &Json, limit: u32) -> bool
    ensures { result ≡ nat_le (depth (view json.now)) limit }
{
    match json {
        Json::Array(items) => limit > 0 && items_nest_within(items, limit - 1),
        Json::Object(members) => limit > 0 && members_nest_within(members, limit - 1),
        _ => true,
    }
}

#[cycle(nesting)]
fn items_nest_within(items: &Vec<Json>, limit: u32) -> bool
    ensures { result ≡ nat_le (items_depth (items_view items.now.items)) limit }
{
    for item in items {
        if !nests_within(item, limit) {
            return false;
        }
    }
    true
}

#[cycle(nesting)]
fn members_nest_within(members: &Map<String, Json>, limit: u32) -> bool
    ensures { result ≡ nat_le (members_depth (members_view members.now.entries)) limit }
{
    for (_, value) in members.iter() {
        if !nests_within(value, limit) {
            return false;
        }
    }
    true
}

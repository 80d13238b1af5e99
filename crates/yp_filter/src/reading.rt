//! Filters as JSON.
ghost use Rattle.std.specs.Prelude.{◌≡◌, ◌<◌, ◌-◌, length, map, IfSome};
ghost use Rattle.yp_base.specs.Results.{or_fault};
ghost use Rattle.yp_base.specs.declared.row.Value.TheVariants.{Atom as Plain};
ghost use Rattle.yp_schema.specs.Nodes.{node_at};
ghost use Rattle.yp_filter.specs.Filters.{compare};
ghost use Rattle.yp_filter.specs.declared.fault.FilterFault.TheVariants.{Value as BadValue};
ghost use Rattle.serde_json.specs.View.{view, items_view, members_view};
ghost use Rattle.yp_value.specs.Json.{is_one_null};
ghost use Rattle.yp_filter.specs.Reading.{Gives, Adds, selection, containment, atom_asked, content_match, of_object, some_items, set_in, member_in, items_in, item_in, place_below};
ghost use Rattle.yp_filter.specs.View.{node_view, nodes_of};

use crate::fault::{FilterError, FilterFault};
use crate::filter::{FilterNode, FilterSet};
use crate::naming::{Place, named_by, place_below};
use serde_json::{Map, Value as Json};
use std::alloc::Global;
use yp_base::atom::Atom;
use yp_base::row::Value;
use yp_schema::schema::{Kind, Schema};
use yp_value::text::TextFault;

/// The selection node of a name.
#[tactic(auto, using(crate::specs::ViewLaws::node_select, crate::specs::ViewLaws::node_unknown))]
fn selection(named: Option<u32>) -> FilterNode
    ensures { node_view result ≡ selection named }
{
    match named {
        Some(node) => FilterNode::Select { node },
        None => FilterNode::Unknown,
    }
}

/// The containment node of a name with this set.
#[tactic(auto, using(crate::specs::ViewLaws::node_within, crate::specs::ViewLaws::node_unknown, crate::specs::ViewLaws::set_nodes))]
fn containment(named: Option<u32>, nodes: Vec<FilterNode>) -> FilterNode
    ensures { node_view result ≡ containment named (nodes_of (map node_view nodes.items)) }
{
    match named {
        Some(node) => FilterNode::Within {
            node,
            set: FilterSet::from_vec(nodes),
        },
        None => FilterNode::Unknown,
    }
}

/// The match node of a schema node with this value.
#[tactic(auto, using(crate::specs::ViewLaws::node_match))]
fn match_node(node: u32, atom: Atom) -> FilterNode
    ensures { node_view result ≡ compare node (Plain atom) }
{
    FilterNode::Match {
        node,
        value: Value::Atom(atom),
    }
}

/// Reads a value to match at a leaf or a leaf-list.
fn read_atom(alloc: Global, schema: &Schema, node: u32, json: &Json) -> Result<Atom, FilterFault>
    requires { node < length schema.now }
    ensures { Gives (λ atom. atom) result (or_fault BadValue (atom_asked (node_at node schema.now).kind (node_at node schema.now).ty (view json.now))) }
{
    match schema.kind(node) {
        Kind::Leaf | Kind::LeafList => match schema.read_atom(alloc, node, json) {
            Ok(atom) => Ok(atom),
            Err(TextFault::BadText) => Err(FilterFault::Value),
            Err(TextFault::Memory) => Err(FilterFault::Memory),
        },
        _ => Err(FilterFault::Value),
    }
}

/// The match node of a name.
#[tactic(auto, using(crate::specs::ViewLaws::node_unknown_match))]
fn read_match(
    alloc: Global,
    schema: &Schema,
    named: Option<u32>,
    json: &Json,
) -> Result<FilterNode, FilterFault>
    requires { IfSome named (λ node. node < length schema.now) }
    ensures { Gives node_view result (content_match schema.now named (view json.now)) }
{
    match named {
        Some(node) => Ok(match_node(node, read_atom(alloc, schema, node, json)?)),
        None => Ok(FilterNode::UnknownMatch),
    }
}

/// Whether there is one item, and it is null.
fn are_one_null(items: &[Json]) -> bool
    ensures { result ≡ is_one_null (items_view items.now) }
{
    match items.split_first() {
        Some((first, rest)) => match rest.split_first() {
            Some(_) => false,
            None => first.is_null(),
        },
        None => false,
    }
}

/// The nodes of a set whose names are looked up at a place, where so many more sets may nest below it.
#[cycle(read)]
pub fn read_set(
    alloc: Global,
    schema: &Schema,
    room: u32,
    place: Place,
    members: &Map<String, Json>,
) -> Result<Vec<FilterNode>, FilterError>
    ensures { Gives (λ nodes. map node_view nodes.items) result (set_in schema.now room place (members_view members.now.entries)) }
{
    let mut nodes = Vec::new(alloc);
    for (name, json) in members.iter() {
        let named = named_by(schema, place, name.as_str());
        match read_member(alloc, schema, room, named, json, &mut nodes) {
            Ok(()) => {}
            Err(error) => return Err(error.at(alloc, place, name.as_str())),
        }
    }
    Ok(nodes)
}

/// Adds the nodes of a member.
#[cycle(read)]
fn read_member(
    alloc: Global,
    schema: &Schema,
    room: u32,
    named: Option<u32>,
    json: &Json,
    nodes: &mut Vec<FilterNode>,
) -> Result<(), FilterError>
    requires { IfSome named (λ node. node < length schema.now) }
    ensures { Adds result (map node_view nodes.old.items) (map node_view nodes.new.items) (member_in schema.now room named (view json.now)) }
{
    match json {
        Json::Null => Err(FilterError::bare(FilterFault::Shape)),
        Json::Array(items) => {
            if are_one_null(items.as_slice()) {
                nodes.push(selection(named))?;
                return Ok(());
            }
            read_items(alloc, schema, room, named, items, nodes)
        }
        Json::Object(members) => {
            nodes.push(read_object(alloc, schema, room, named, members)?)?;
            Ok(())
        }
        _ => {
            nodes.push(read_match(alloc, schema, named, json)?)?;
            Ok(())
        }
    }
}

/// Adds the nodes of an array's items, of which there is one at least.
#[cycle(read)]
fn read_items(
    alloc: Global,
    schema: &Schema,
    room: u32,
    named: Option<u32>,
    items: &Vec<Json>,
    nodes: &mut Vec<FilterNode>,
) -> Result<(), FilterError>
    requires { IfSome named (λ node. node < length schema.now) }
    ensures { Adds result (map node_view nodes.old.items) (map node_view nodes.new.items) (some_items (items_view items.now.items) (items_in schema.now room named (items_view items.now.items))) }
{
    if items.is_empty() {
        return Err(FilterError::bare(FilterFault::Shape));
    }
    for item in items {
        nodes.push(read_item(alloc, schema, room, named, item)?)?;
    }
    Ok(())
}

/// The node of an array's item.
#[cycle(read)]
fn read_item(
    alloc: Global,
    schema: &Schema,
    room: u32,
    named: Option<u32>,
    json: &Json,
) -> Result<FilterNode, FilterError>
    requires { IfSome named (λ node. node < length schema.now) }
    ensures { Gives node_view result (item_in schema.now room named (view json.now)) }
{
    match json {
        Json::Object(members) => read_object(alloc, schema, room, named, members),
        _ => Err(FilterError::bare(FilterFault::Shape)),
    }
}

/// The node of an object.
#[cycle(read)]
fn read_object(
    alloc: Global,
    schema: &Schema,
    room: u32,
    named: Option<u32>,
    members: &Map<String, Json>,
) -> Result<FilterNode, FilterError>
    requires { IfSome named (λ node. node < length schema.now) }
    ensures { Gives node_view result (of_object room named (members_view members.now.entries) (set_in schema.now (room - 1) (place_below named) (members_view members.now.entries))) }
{
    if members.is_empty() {
        return Ok(selection(named));
    }
    if room == 0 {
        return Err(FilterError::bare(FilterFault::TooDeep));
    }
    let nodes = read_set(alloc, schema, room - 1, place_below(named), members)?;
    Ok(containment(named, nodes))
}

//! Calls of `yp_filter`: subtree filters.
use case_frame::fault::{CaseFault, OrFault};
use case_frame::shown::{Answer, Told, quoted};
use serde_json::Value as Json;
use std::alloc::Global;
use yp_base::row::Value;
use yp_filter::fault::FilterFault;
use yp_filter::filter::{Filter, FilterNode, FilterSet};
use yp_schema::schema::Schema;

pub fn answer(alloc: Global, schema: &Schema, call: &str, arguments: &Json) -> Answer {
    Ok(match call {
        "filter" => Some(read(alloc, schema, arguments)?),
        _ => None,
    })
}

/// The filter that JSON is, with its size, or its fault.
fn read(alloc: Global, schema: &Schema, json: &Json) -> OrFault<String> {
    match Filter::read(alloc, schema, json) {
        Ok(filter) => shown(alloc, schema, &filter.copy(alloc)?, filter.size()),
        Err(error) => match error.fault {
            FilterFault::Memory => Err(CaseFault::Memory),
            fault => quoted(alloc, format!(in alloc; "{fault}")?.as_str()),
        },
    }
}

fn shown(alloc: Global, schema: &Schema, filter: &Filter, size: u32) -> OrFault<String> {
    let mut told = Told::new(alloc);
    told.push("{\"set\":");
    tell_filter(alloc, schema, &mut told, filter);
    told.put(format!(in alloc; ",\"size\":{size}}}"));
    told.done()
}

/// Appends the nodes of a filter, `null` where it is everything.
pub fn tell_filter(alloc: Global, schema: &Schema, told: &mut Told, filter: &Filter) {
    match filter {
        Filter::All => told.push("null"),
        Filter::Set(set) => tell_set(alloc, schema, told, set),
    }
}

/// Appends the nodes of a set.
#[cycle(shown)]
fn tell_set(alloc: Global, schema: &Schema, told: &mut Told, set: &FilterSet) {
    told.push("[");
    for node in set.items() {
        told.comma();
        tell_node(alloc, schema, told, node);
    }
    told.push("]");
}

/// Appends a node: the name that a selection node has, a match node's with its value, and a containment
/// node's with its set. `?` stands for a name that isn't in the schema.
#[cycle(shown)]
fn tell_node(alloc: Global, schema: &Schema, told: &mut Told, node: &FilterNode) {
    match node {
        FilterNode::Select { node } => told.quoted(name_of(schema, *node)),
        FilterNode::Match { node, value } => tell_match(alloc, schema, told, *node, value),
        FilterNode::Within { node, set } => {
            told.push("{");
            told.quoted(name_of(schema, *node));
            told.push(":");
            tell_set(alloc, schema, told, set);
            told.push("}");
        }
        FilterNode::Unknown => told.quoted("?"),
        FilterNode::UnknownMatch => told.quoted("?="),
    }
}

/// Appends a match node: its name and its value.
fn tell_match(alloc: Global, schema: &Schema, told: &mut Told, node: u32, value: &Value) {
    let mut line = Told::new(alloc);
    line.push(name_of(schema, node));
    line.push("=");
    match value {
        Value::Atom(held) => line.plain_atom(held),
        _ => line.push("no atom"),
    }
    told.quoted_told(line);
}

/// The member form of a node.
fn name_of(schema: &Schema, node: u32) -> &str {
    if node < schema.count() {
        schema.member_text(node)
    } else {
        "no node"
    }
}

//! Calls of `yp_schema`.
ghost use Rattle.std.specs.Prelude.{◌<◌, length, IfOk, IfSome};

use case_frame::fault::{CaseFault, OrFault};
use case_frame::given::{self, pair, part};
use case_frame::shown::{self, Answer, Told};
use serde_json::Value as Json;
use std::alloc::Global;
use yp_base::atom::Atom;
use yp_base::memory::Duplicate;
use yp_base::rule_path::{RuleKeys, RuleSeg};
use yp_schema::fault::{SchemaFault, SchemaKind};
use yp_schema::schema::{Kind, Schema, accepted_schema_is_compiled};
use yp_value::text::TextFault;

pub fn answer(alloc: Global, schema: &Schema, call: &str, arguments: &Json) -> Answer {
    Ok(Some(match call {
        "read_schema" => read(alloc, arguments)?,
        "schema_message" => message(alloc, arguments)?,
        "count" => counted(alloc, schema)?,
        "node" => node(alloc, schema, node_of(schema, arguments)?)?,
        "child" => child(alloc, schema, arguments)?,
        "is_key" | "is_key_node" | "ends_in_key" => key(alloc, schema, call, arguments)?,
        "read_value" => value(alloc, schema, arguments)?,
        "read_atom" => atom(alloc, schema, arguments)?,
        "copy_rule_step" => copied_step(alloc, arguments)?,
        "equal_rule_steps" => equal_steps(alloc, arguments)?,
        "law_of_schemas" => law(alloc)?,
        _ => return Ok(None),
    }))
}

/// The law of schemas is called; it does nothing.
fn law(alloc: Global) -> OrFault<String> {
    accepted_schema_is_compiled();
    shown::truth(alloc, true)
}

/// How many nodes the parts of a schema have, or their first fault.
fn read(alloc: Global, parts: &Json) -> OrFault<String> {
    match Schema::read(alloc, given::items(parts)?) {
        Ok(schema) => counted(alloc, &schema),
        Err(SchemaFault::At { part, place, kind }) => {
            let fault = fault_name(kind);
            Ok(format!(in alloc; "{{\"fault\":\"{fault}\",\"part\":{part},\"place\":{place}}}")?)
        }
        Err(SchemaFault::Memory) => Err(CaseFault::Memory),
    }
}

fn fault_name(kind: SchemaKind) -> &'static str {
    match kind {
        SchemaKind::Member => "Member",
        SchemaKind::Duplicate => "Duplicate",
        SchemaKind::NoKey => "NoKey",
        SchemaKind::KeyNotLeaf => "KeyNotLeaf",
        SchemaKind::UnknownType => "UnknownType",
        SchemaKind::TooDeep => "TooDeep",
        SchemaKind::TooMany => "TooMany",
    }
}

/// What the first fault in the parts of a schema says.
fn message(alloc: Global, parts: &Json) -> OrFault<String> {
    match Schema::read(alloc, given::items(parts)?) {
        Ok(_) => shown::quoted(alloc, "read"),
        Err(fault) => shown::quoted(alloc, format!(in alloc; "{fault}")?.as_str()),
    }
}

fn counted(alloc: Global, schema: &Schema) -> OrFault<String> {
    schema.stands();
    let count = schema.count();
    Ok(format!(in alloc; "{count}")?)
}

/// The number of a node of the schema.
fn node_of(schema: &Schema, json: &Json) -> OrFault<u32>
    ensures { IfOk result (λ node. node < length schema.now) }
{
    let node = given::id(json)?;
    if node < schema.count() {
        Ok(node)
    } else {
        Err(CaseFault::BadArgument)
    }
}

/// A node that may not be there.
fn optional(node: Option<u32>, alloc: Global) -> OrFault<String> {
    match node {
        Some(node) => Ok(format!(in alloc; "{node}")?),
        None => shown::plain(alloc, "null"),
    }
}

/// What the schema tells of a node: its parent, its kind, its module, its name, its member form, its keys, its type,
/// and whether it has default-deny-all.
fn node(alloc: Global, schema: &Schema, node: u32) -> OrFault<String>
    requires { node < length schema.now }
{
    let parent = optional(schema.parent(node), alloc)?;
    let kind = kind_name(schema.kind(node));
    let module = schema.module(node);
    let name = schema.name(node);
    let member = schema.member_text(node);
    let keys = keys(alloc, schema.keys(node))?;
    let ty = node_type(alloc, schema, node)?;
    let deny_all = schema.deny_all(node);
    Ok(format!(in alloc;
        "[{parent},\"{kind}\",\"{module}\",\"{name}\",\"{member}\",{keys},{ty},{deny_all}]"
    )?)
}

fn kind_name(kind: Kind) -> &'static str {
    match kind {
        Kind::Container => "Container",
        Kind::Presence => "Presence",
        Kind::List => "List",
        Kind::Leaf => "Leaf",
        Kind::LeafList => "LeafList",
    }
}

fn keys(alloc: Global, keys: &[u32]) -> OrFault<String> {
    let mut told = Told::new(alloc);
    told.push("[");
    for key in keys {
        told.comma();
        told.put(format!(in alloc; "{key}"));
    }
    told.push("]");
    told.done()
}

fn node_type(alloc: Global, schema: &Schema, node: u32) -> OrFault<String>
    requires { node < length schema.now }
{
    match schema.ty(node) {
        Some(ty) => shown::leaf_type(alloc, ty),
        None => shown::plain(alloc, "null"),
    }
}

/// The number of a node of the schema, if one is told.
fn optional_node(schema: &Schema, json: &Json) -> OrFault<Option<u32>>
    ensures { IfOk result (λ node. IfSome node (λ node. node < length schema.now)) }
{
    match json {
        Json::Null => Ok(None),
        _ => Ok(Some(node_of(schema, json)?)),
    }
}

/// The child of a node that has a member form.
fn child(alloc: Global, schema: &Schema, arguments: &Json) -> OrFault<String> {
    let (parent, member) = pair(arguments)?;
    let parent = optional_node(schema, parent)?;
    optional(schema.child(parent, given::text(member)?), alloc)
}

/// Whether a node is a key of another or of the one above, or a path ends in one.
fn key(alloc: Global, schema: &Schema, call: &str, arguments: &Json) -> OrFault<String> {
    match call {
        "is_key" => key_of(alloc, schema, arguments),
        "is_key_node" => shown::truth(alloc, schema.is_key_node(given::id(arguments)?)),
        _ => ends_in_key(alloc, schema, arguments),
    }
}

fn key_of(alloc: Global, schema: &Schema, arguments: &Json) -> OrFault<String> {
    let (node, parent) = pair(arguments)?;
    let parent = optional_node(schema, parent)?;
    shown::truth(alloc, schema.is_key(given::id(node)?, parent))
}

fn ends_in_key(alloc: Global, schema: &Schema, arguments: &Json) -> OrFault<String> {
    let path = given::path(alloc, arguments)?;
    shown::truth(alloc, schema.ends_in_key(&path))
}

/// The value that JSON is by the type of a node.
fn value(alloc: Global, schema: &Schema, arguments: &Json) -> OrFault<String> {
    let node = node_of(schema, part(arguments, "node")?)?;
    match schema.read_value(alloc, node, part(arguments, "json")?) {
        Ok(value) => shown::value(alloc, &value),
        Err(TextFault::BadText) => shown::quoted(alloc, "bad"),
        Err(TextFault::Memory) => Err(CaseFault::Memory),
    }
}

/// The atom that JSON is by the type of a node.
fn atom(alloc: Global, schema: &Schema, arguments: &Json) -> OrFault<String> {
    let node = node_of(schema, part(arguments, "node")?)?;
    match schema.read_atom(alloc, node, part(arguments, "json")?) {
        Ok(atom) => shown::atom(alloc, &atom),
        Err(TextFault::BadText) => shown::quoted(alloc, "bad"),
        Err(TextFault::Memory) => Err(CaseFault::Memory),
    }
}

/// A step of a rule's path: the number of its node, and its keys, with `null` for all values.
fn step(alloc: Global, json: &Json) -> OrFault<RuleSeg> {
    let (first, rest) = given::items(json)?
        .split_first()
        .ok_or(CaseFault::BadArgument)?;
    let node = given::id(first)?;
    let mut keys = Vec::new(alloc);
    for key in rest {
        keys.push(step_key(alloc, key)?)?;
    }
    let keys = RuleKeys::from_vec(keys);
    Ok(RuleSeg { node, keys })
}

fn step_key(alloc: Global, json: &Json) -> OrFault<Option<Atom>> {
    match json {
        Json::Null => Ok(None),
        _ => Ok(Some(given::atom(alloc, json)?)),
    }
}

fn tell_step_key(told: &mut Told, key: &Option<Atom>) {
    match key {
        Some(atom) => told.atom(atom),
        None => told.push("null"),
    }
}

fn copied_step(alloc: Global, json: &Json) -> OrFault<String> {
    let copy = step(alloc, json)?.copy(alloc)?;
    let node = copy.node;
    let count = copy.keys.len();
    let mut told = Told::new(alloc);
    told.put(format!(in alloc; "[{node},{count}"));
    for key in copy.keys.items() {
        told.comma();
        tell_step_key(&mut told, key);
    }
    told.push("]");
    told.done()
}

fn equal_steps(alloc: Global, arguments: &Json) -> OrFault<String> {
    let (one, other) = pair(arguments)?;
    let one = step(alloc, one)?;
    let other = step(alloc, other)?;
    shown::truth(alloc, one == other)
}

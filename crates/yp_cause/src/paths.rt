//! What is wrong with a path, in words.
use std::alloc::Global;
use yp_base::memory::NoMemory;
use yp_path::fault::{PathError, PathFault};
use yp_schema::schema::{Kind, Schema};

/// The name of a node of the schema, as a member of its parent.
pub fn member_text(schema: &Schema, node: Option<u32>) -> Option<&str> {
    let node = node?;
    if node < schema.count() {
        Some(schema.member_text(node))
    } else {
        None
    }
}

/// What is wrong with a path: the segment, its fault, and the keys of its node where they are wrong.
pub fn path_text(alloc: Global, schema: &Schema, error: &PathError) -> Result<String, NoMemory> {
    let keys = match error.fault {
        PathFault::Memory => return Err(NoMemory),
        PathFault::Syntax | PathFault::UnknownNode => None,
        PathFault::KeyCount | PathFault::KeyValue => keys_text(alloc, schema, error.node)?,
    };
    Ok(match keys {
        Some(keys) => format!(in alloc; "{error}; {keys}")?,
        None => format!(in alloc; "{error}")?,
    })
}

/// What keys a node of the schema has.
fn keys_text(
    alloc: Global,
    schema: &Schema,
    node: Option<u32>,
) -> Result<Option<String>, NoMemory> {
    let Some(node) = node else {
        return Ok(None);
    };
    if node >= schema.count() {
        return Ok(None);
    }
    let name = schema.member_text(node);
    Ok(Some(match schema.kind(node) {
        Kind::List => {
            let names = names_of(alloc, schema, schema.keys(node))?;
            format!(in alloc; "the keys of `{name}` are {names}")?
        }
        Kind::LeafList => format!(in alloc; "the key of `{name}` is its value")?,
        _ => format!(in alloc; "`{name}` has no keys")?,
    }))
}

/// The names of nodes, one after another.
pub(crate) fn names_of(alloc: Global, schema: &Schema, nodes: &[u32]) -> Result<String, NoMemory> {
    let mut names = String::new(alloc);
    for node in nodes {
        if let Some(name) = member_text(schema, Some(*node)) {
            if !names.is_empty() {
                names.push_str(", ")?;
            }
            names.push_str(format!(in alloc; "`{name}`")?.as_str())?;
        }
    }
    Ok(names)
}

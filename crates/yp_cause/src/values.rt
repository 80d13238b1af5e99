//! What a node of the schema takes as its value in JSON (RFC 7951 sections 5 and 6), in words.
use crate::paths::names_of;
use std::alloc::Global;
use yp_base::leaf_type::{LeafType, Names};
use yp_base::memory::NoMemory;
use yp_schema::schema::{Kind, Schema};

/// The most names of an enumeration that are told.
const MOST_NAMES: usize = 12;

/// What a node takes; `None` where the schema has no such node.
pub fn value_text(
    alloc: Global,
    schema: &Schema,
    node: Option<u32>,
) -> Result<Option<String>, NoMemory> {
    let Some(node) = node else {
        return Ok(None);
    };
    if node >= schema.count() {
        return Ok(None);
    }
    let name = schema.member_text(node);
    Ok(Some(match schema.kind(node) {
        Kind::Container | Kind::Presence => format!(in alloc; "`{name}` is an object")?,
        Kind::List => {
            let keys = names_of(alloc, schema, schema.keys(node))?;
            format!(in alloc;
                "`{name}` is an array of objects with the keys {keys}, and of the one entry that a target names"
            )?
        }
        Kind::Leaf => {
            let value = type_text(alloc, schema.ty(node))?;
            format!(in alloc; "`{name}` is {value}")?
        }
        Kind::LeafList => {
            let value = type_text(alloc, schema.ty(node))?;
            format!(in alloc;
                "`{name}` is an array, and of the one item that a target names; an item is {value}"
            )?
        }
    }))
}

/// What a leaf of a type takes.
fn type_text(alloc: Global, ty: Option<&LeafType>) -> Result<String, NoMemory> {
    let words = match ty {
        Some(LeafType::Names(names)) => return names_text(alloc, names),
        Some(LeafType::Dec { places }) => {
            return Ok(format!(in alloc;
                "a number in quotes with at most {places} digits after the point"
            )?);
        }
        Some(LeafType::Bool) => "`true` or `false`, without quotes",
        Some(LeafType::Int { bits }) => signed_text(*bits),
        Some(LeafType::Uint { bits }) => unsigned_text(*bits),
        Some(LeafType::Text) => "a text of at most 256 bytes",
        Some(LeafType::Empty) => "`[null]`",
        None => "a value",
    };
    Ok(String::from_str(alloc, words)?)
}

/// What a leaf of a signed number of so many bits takes.
fn signed_text(bits: u8) -> &'static str {
    match bits {
        8 => "a number from -128 to 127, without quotes",
        16 => "a number from -32,768 to 32,767, without quotes",
        32 => "a number from -2,147,483,648 to 2,147,483,647, without quotes",
        _ => "a whole number of 64 bits, in quotes",
    }
}

/// What a leaf of an unsigned number of so many bits takes.
fn unsigned_text(bits: u8) -> &'static str {
    match bits {
        8 => "a number from 0 to 255, without quotes",
        16 => "a number from 0 to 65,535, without quotes",
        32 => "a number from 0 to 4,294,967,295, without quotes",
        _ => "a whole number of 64 bits, in quotes, without a sign",
    }
}

/// What an enumeration takes: one of its names, which are told where they are few.
fn names_text(alloc: Global, names: &Names) -> Result<String, NoMemory> {
    let mut text = String::from_str(alloc, "one of the names of its enumeration")?;
    if names.len() > MOST_NAMES {
        return Ok(text);
    }
    let mut mark = ": ";
    for name in names.items() {
        let name = name.as_str();
        text.push_str(mark)?;
        text.push_str(format!(in alloc; "`{name}`")?.as_str())?;
        mark = ", ";
    }
    Ok(text)
}

//! Values of a schema's types (RFC 7951 section 6).
ghost use Rattle.std.specs.Prelude.{◌≡◌, ◌++◌, OnOk, string_bytes};
ghost use Rattle.serde_json.specs.Written.{compact_text};
ghost use Rattle.yp_value.specs.Json.{has_string_numbers as numbers_are_strings, atom_data, value_data};

use crate::strings::push_string;
use std::alloc::Global;
use yp_base::atom::Atom;
use yp_base::leaf_type::LeafType;
use yp_base::memory::NoMemory;
use yp_base::row::Value;
use yp_value::text::write_text;

/// Whether numbers of the type are written as strings.
fn has_string_numbers(ty: &LeafType) -> bool
    ensures { result ≡ numbers_are_strings ty.now }
{
    match ty {
        LeafType::Int { bits } | LeafType::Uint { bits } => *bits == 64,
        _ => false,
    }
}

/// Appends an atom of a type: a key, or the value of a leaf-list entry. A text is a string, and so are a
/// decimal and a number of 64 bits.
pub fn push_atom(
    alloc: Global,
    text: &mut String,
    ty: &LeafType,
    atom: &Atom,
) -> Result<(), NoMemory>
    ensures { OnOk result (string_bytes text.new ≡ string_bytes text.old ++ compact_text (atom_data ty.now atom.now)) }
{
    match atom {
        Atom::Bool(truth) => text.push_str(if *truth { "true" } else { "false" })?,
        Atom::Int(number) if !has_string_numbers(ty) => write!(text, "{number}")?,
        Atom::Uint(number) if !has_string_numbers(ty) => write!(text, "{number}")?,
        Atom::Text(value) => push_string(alloc, text, value.as_str())?,
        _ => {
            let value = write_text(alloc, atom)?;
            push_string(alloc, text, value.as_str())?;
        }
    }
    Ok(())
}

/// Appends a value of a type. A row of a list entry or of a presence container has none of its own.
pub fn push_value(
    alloc: Global,
    text: &mut String,
    ty: &LeafType,
    value: &Value,
) -> Result<(), NoMemory>
    ensures { OnOk result (string_bytes text.new ≡ string_bytes text.old ++ compact_text (value_data ty.now value.now)) }
{
    match value {
        Value::Atom(atom) => push_atom(alloc, text, ty, atom),
        Value::Empty => Ok(text.push_str("[null]")?),
        Value::Member | Value::Present => Ok(text.push_str("null")?),
    }
}

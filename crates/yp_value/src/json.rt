//! JSON of values (RFC 7951 section 6).
ghost use Rattle.std.specs.Prelude.{◌≡◌, ◌^◌, ◌<◌, ◌≤◌, IfOk, Some, true, option_map};
ghost use Rattle.serde_json.specs.Data.{Data, array, null, item, no_items};
ghost use Rattle.serde_json.specs.View.{view, items_view};
ghost use Rattle.yp_base.specs.Types.{is_type, is_width};
ghost use Rattle.yp_value.specs.Texts.{ReadsAs, is_between};
ghost use Rattle.yp_value.specs.Json.{whole_in, string_in, plain_in, is_null_array, is_one_null, value_in, has_string_numbers, atom_data, value_data, value_fits, member_of};
ghost use Rattle.yp_base.specs.declared.leaf_type.LeafType.{LeafType};
ghost use Rattle.yp_base.specs.declared.row.Value.{Value};

use crate::text::{TextFault, greatest, half_range, read_text, string_of};
use serde_json::Value as Json;
use std::alloc::{AllocError, Global};
use yp_base::atom::Atom;
use yp_base::leaf_type::LeafType;
use yp_base::memory::NoMemory;
use yp_base::row::Value;

/// Reads JSON as a value of a type: `Empty` for the type empty, and an atom for each other type.
/// `BadText` comes exactly where it is none.
pub fn read_json(alloc: Global, ty: &LeafType, json: &Json) -> Result<Value, TextFault>
    requires { is_type ty.now ≡ true }
    ensures { ReadsAs result (value_in ty.now (view json.now)) }
{
    match ty {
        LeafType::Empty => {
            if is_null_array(json) {
                Ok(Value::Empty)
            } else {
                Err(TextFault::BadText)
            }
        }
        _ => Ok(Value::Atom(read_plain(alloc, ty, json)?)),
    }
}

/// Reads JSON as an atom of a type.
fn read_plain(alloc: Global, ty: &LeafType, json: &Json) -> Result<Atom, TextFault>
    requires { is_type ty.now ≡ true }
    ensures { ReadsAs result (plain_in ty.now (view json.now)) }
{
    match ty {
        LeafType::Bool => match json.as_bool() {
            Some(truth) => Ok(Atom::Bool(truth)),
            None => Err(TextFault::BadText),
        },
        LeafType::Int { bits } if *bits != 64 => read_int(*bits, json),
        LeafType::Uint { bits } if *bits != 64 => read_uint(*bits, json),
        LeafType::Empty => Err(TextFault::BadText),
        _ => read_string(alloc, ty, json),
    }
}

/// Reads a string as an atom of a type.
fn read_string(alloc: Global, ty: &LeafType, json: &Json) -> Result<Atom, TextFault>
    requires { is_type ty.now ≡ true }
    ensures { ReadsAs result (string_in ty.now (view json.now)) }
{
    match json.as_str() {
        Some(text) => read_text(alloc, ty, text),
        None => Err(TextFault::BadText),
    }
}

fn is_between(low: u64, high: u64, number: i64) -> bool
    ensures { result ≡ is_between low high number }
{
    if number < 0 {
        number.unsigned_abs() <= low
    } else {
        number.unsigned_abs() <= high
    }
}

/// A whole number from -low to high.
fn read_whole(low: u64, high: u64, json: &Json) -> Option<i64>
    requires { high < 2 ^ 63 }
    ensures { result ≡ whole_in low high (view json.now) }
{
    let number = json.as_i64()?;
    if is_between(low, high, number) {
        Some(number)
    } else {
        None
    }
}

fn read_int(bits: u8, json: &Json) -> Result<Atom, TextFault>
    requires width { is_width bits ≡ true }
    requires narrow { bits < 64 }
    ensures { ReadsAs result (plain_in (LeafType.Int bits) (view json.now)) }
{
    let half = half_range(bits);
    match read_whole(half, half - 1, json) {
        Some(number) => Ok(Atom::Int(number)),
        None => Err(TextFault::BadText),
    }
}

fn read_uint(bits: u8, json: &Json) -> Result<Atom, TextFault>
    requires width { is_width bits ≡ true }
    requires narrow { bits < 64 }
    ensures { ReadsAs result (plain_in (LeafType.Uint bits) (view json.now)) }
{
    match read_whole(0, greatest(bits), json) {
        Some(number) => Ok(Atom::Uint(number.unsigned_abs())),
        None => Err(TextFault::BadText),
    }
}

/// Whether it is an array of one null.
fn is_null_array(json: &Json) -> bool
    ensures { result ≡ is_null_array (view json.now) }
{
    match json {
        Json::Array(items) => are_one_null(items.as_slice()),
        _ => false,
    }
}

/// Whether there is one item, and it is null.
fn are_one_null(items: &[Json]) -> bool
    ensures { result ≡ is_one_null (items_view items.now) }
{
    match items.split_first() {
        Some((first, rest)) => match rest.split_first() {
            Some(_) => false,
            None => first.is_null(),
        },
        None => false,
    }
}

/// Writes a value of a type as JSON (RFC 7951 section 6).
pub fn write_json(alloc: Global, ty: &LeafType, value: &Value) -> Result<Json, NoMemory>
    ensures { IfOk result (λ json. view json ≡ value_data ty.now value.now) }
{
    Ok(match value {
        Value::Atom(atom) => write_atom(alloc, ty, atom)?,
        Value::Empty => null_array(alloc)?,
        Value::Member | Value::Present => Json::Null,
    })
}

/// Whether numbers of the type are written as strings.
fn has_string_numbers(ty: &LeafType) -> bool
    ensures { result ≡ has_string_numbers ty.now }
{
    match ty {
        LeafType::Int { bits } | LeafType::Uint { bits } => *bits == 64,
        _ => false,
    }
}

fn write_atom(alloc: Global, ty: &LeafType, atom: &Atom) -> Result<Json, AllocError>
    ensures { IfOk result (λ json. view json ≡ atom_data ty.now atom.now) }
{
    Ok(match atom {
        Atom::Bool(truth) => Json::from(*truth),
        Atom::Int(number) if !has_string_numbers(ty) => Json::from(*number),
        Atom::Uint(number) if !has_string_numbers(ty) => Json::from(*number),
        _ => Json::from(string_of(alloc, atom)?),
    })
}

/// An array of one null.
fn null_array(alloc: Global) -> Result<Json, AllocError>
    ensures { IfOk result (λ json. view json ≡ array (item null no_items)) }
{
    let mut items = Vec::new(alloc);
    items.push(Json::Null)?;
    Ok(Json::from(items))
}

/// The member of an object that has this name. `None` comes exactly where the JSON isn't an object
/// with that member.
pub fn member<'a>(json: &'a Json, name: &str) -> Option<&'a Json>
    ensures { option_map (λ found. view found.now) result ≡ member_of name.now (view json.now) }
{
    json.get(name)
}

/// What is written of a value of a type is read again as this value.
#[tactic(auto, using(crate::specs::JsonLaws::json_again))]
pub fn written_json_is_read()
    ensures { (ty : LeafType) (value : Value) → is_type ty ≡ true → value_fits ty value ≡ true
        → value_in ty (value_data ty value) ≡ Some value }
{}

/// What is read is a value of the type.
#[tactic(auto, using(crate::specs::JsonLaws::json_fits))]
pub fn read_json_fits()
    ensures { (ty : LeafType) (json : Data) (value : Value) → value_in ty json ≡ Some value
        → value_fits ty value ≡ true }
{}

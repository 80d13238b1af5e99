//! Arguments of cases.
use crate::fault::{CaseFault, OrFault};
use serde_json::Value as Json;
use std::alloc::Global;
use yp_base::atom::Atom;
use yp_base::keys::Keys;
use yp_base::notice::Kinds;
use yp_base::path::{Path, Seg};
use yp_base::row::{Row, Rows, Value};
use yp_base::series::Series;
use yp_base::txt::{Txt, text_of};
use yp_value::json::member;

/// The argument of a name.
pub fn part<'a>(arguments: &'a Json, name: &str) -> OrFault<&'a Json> {
    member(arguments, name).ok_or(CaseFault::BadArgument)
}

/// The text of an argument.
pub fn text(json: &Json) -> OrFault<&str> {
    json.as_str().ok_or(CaseFault::BadArgument)
}

/// The number of an argument.
pub fn number(json: &Json) -> OrFault<u64> {
    json.as_u64().ok_or(CaseFault::BadArgument)
}

/// The size or the index of an argument.
pub fn size(json: &Json) -> OrFault<usize> {
    Ok(number(json)? as usize)
}

/// The number of a node, or the id of a subscription, of an argument.
pub fn id(json: &Json) -> OrFault<u32> {
    u32::try_from(number(json)?).map_err(|_| CaseFault::BadArgument)
}

/// The items of an argument.
pub fn items(json: &Json) -> OrFault<&[Json]> {
    match json {
        Json::Array(items) => Ok(items.as_slice()),
        _ => Err(CaseFault::BadArgument),
    }
}

/// The first member of an argument, its name and its value.
pub fn named(json: &Json) -> OrFault<(&str, &Json)> {
    for (name, value) in json.as_object().ok_or(CaseFault::BadArgument)?.iter() {
        return Ok((name.as_str(), value));
    }
    Err(CaseFault::BadArgument)
}

/// The two items of an argument.
pub fn pair(json: &Json) -> OrFault<(&Json, &Json)> {
    match items(json)? {
        [one, other] => Ok((one, other)),
        _ => Err(CaseFault::BadArgument),
    }
}

/// The text of an argument, kept.
pub fn txt(alloc: Global, json: &Json) -> OrFault<Txt> {
    Ok(text_of(alloc, text(json)?)?)
}

/// A value that stands alone: `true`, `7`, `"lo"`, `{"int":-7}` or `{"dec":[-50,2]}`.
pub fn atom(alloc: Global, json: &Json) -> OrFault<Atom> {
    match json {
        Json::Bool(truth) => Ok(Atom::Bool(*truth)),
        Json::String(_) => Ok(Atom::Text(txt(alloc, json)?)),
        Json::Number(_) => Ok(Atom::Uint(number(json)?)),
        _ => Ok(signed_atom(json)?),
    }
}

/// A number that may be below zero.
fn signed_atom(json: &Json) -> OrFault<Atom> {
    match member(json, "int") {
        Some(int) => Ok(Atom::Int(int.as_i64().ok_or(CaseFault::BadArgument)?)),
        None => decimal(part(json, "dec")?),
    }
}

fn decimal(json: &Json) -> OrFault<Atom> {
    let (units, places) = pair(json)?;
    let units = units.as_i64().ok_or(CaseFault::BadArgument)?;
    let places = u8::try_from(number(places)?).map_err(|_| CaseFault::BadArgument)?;
    Ok(Atom::Dec { units, places })
}

/// Keys.
pub fn keys(alloc: Global, json: &[Json]) -> OrFault<Keys> {
    let mut keys = Vec::new(alloc);
    for each in json {
        keys.push(atom(alloc, each)?)?;
    }
    Ok(Keys::from_vec(alloc, keys)?)
}

/// A segment: the number of its node, and its keys.
pub fn segment(alloc: Global, json: &Json) -> OrFault<Seg> {
    let (first, rest) = items(json)?.split_first().ok_or(CaseFault::BadArgument)?;
    let node = id(first)?;
    let keys = keys(alloc, rest)?;
    Ok(Seg { node, keys })
}

/// A path: its segments.
pub fn path(alloc: Global, json: &Json) -> OrFault<Path> {
    let mut segments = Vec::new(alloc);
    for each in items(json)? {
        segments.push(segment(alloc, each)?)?;
    }
    Ok(Path::from_vec(alloc, segments)?)
}

/// What a row holds: an atom, `["member"]`, `["empty"]` or `["present"]`.
pub fn value(alloc: Global, json: &Json) -> OrFault<Value> {
    match json {
        Json::Array(words) => Ok(state(words.as_slice())?),
        _ => Ok(Value::Atom(atom(alloc, json)?)),
    }
}

fn state(words: &[Json]) -> OrFault<Value> {
    let word = text(words.first().ok_or(CaseFault::BadArgument)?)?;
    match word {
        "member" => Ok(Value::Member),
        "empty" => Ok(Value::Empty),
        "present" => Ok(Value::Present),
        _ => Err(CaseFault::BadArgument),
    }
}

/// A row: its path and what it holds.
pub fn row(alloc: Global, json: &Json) -> OrFault<Row> {
    let (at, held) = pair(json)?;
    let path = path(alloc, at)?;
    let value = value(alloc, held)?;
    Ok(Row { path, value })
}

/// Rows.
pub fn rows(alloc: Global, json: &Json) -> OrFault<Rows> {
    let mut rows = Vec::new(alloc);
    for each in items(json)? {
        rows.push(row(alloc, each)?)?;
    }
    Ok(Series::from_vec(rows))
}

/// No kind of edits.
pub fn no_kinds() -> Kinds {
    Kinds {
        create: false,
        delete: false,
        insert: false,
        moved: false,
        replace: false,
    }
}

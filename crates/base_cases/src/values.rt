//! Calls of `yp_base` on texts, JSON and types.
ghost use Rattle.std.specs.Prelude.{◌≡◌, true, IfOk};
ghost use Rattle.yp_base.specs.Types.{is_type};

use case_frame::fault::{CaseFault, OrFault, or_bad};
use case_frame::given::{self, part};
use case_frame::shown::{self, Answer};
use serde_json::Value as Json;
use std::alloc::Global;
use yp_base::leaf_type::LeafType;
use yp_base::memory::Duplicate;
use yp_base::row::Value;
use yp_json_text::values::push_value;
use yp_schema::schema::Schema;
use yp_value::json::{member, read_json, read_json_fits, written_json_is_read};
use yp_value::payload::Payload;
use yp_value::text::{
    TextFault, fitting_value_is_writable, read_text, read_text_fits, write_text,
    written_text_is_read,
};

pub fn answer(alloc: Global, call: &str, arguments: &Json) -> Answer {
    Ok(Some(match call {
        "read_text" | "read_json" | "copy_type" => of_type(alloc, call, arguments)?,
        "text_value" | "json_value" => of_type(alloc, call, arguments)?,
        "member" => found_member(alloc, arguments)?,
        "payload" => payload(alloc, arguments)?,
        "copy_payload" => copied_payload(alloc, arguments)?,
        "nested_payload" => nested_payload(alloc, arguments)?,
        "copy_nested_payload" => copied_nested_payload(alloc, arguments)?,
        "copy_no_payload" => copied_no_payload(alloc)?,
        "laws_of_values" => laws(alloc)?,
        _ => return Ok(None),
    }))
}

/// The laws of texts and JSON are called; they do nothing.
fn laws(alloc: Global) -> OrFault<String> {
    written_text_is_read();
    read_text_fits();
    fitting_value_is_writable();
    written_json_is_read();
    read_json_fits();
    shown::truth(alloc, true)
}

/// The text of a schema with one leaf, of a type: `"int8"`, or the names of an enumeration.
fn leaf_text(alloc: Global, ty: &Json) -> OrFault<String> {
    let told = ty.to_string(alloc)?;
    let ty = match ty {
        Json::Array(_) => format!(in alloc; "\"enumeration\",\"names\":{told}")?,
        _ => told,
    };
    Ok(format!(in alloc; "[[{{\"path\":\"/m:leaf\",\"kind\":\"leaf\",\"type\":{ty}}}]]")?)
}

/// The answer of a call with a type.
fn of_type(alloc: Global, call: &str, arguments: &Json) -> OrFault<String> {
    let parts = Json::from_str(alloc, leaf_text(alloc, part(arguments, "type")?)?.as_str())?;
    let schema = or_bad(Schema::read(alloc, given::items(&parts)?))?;
    with_type(alloc, leaf_type(&schema)?, call, arguments)
}

/// The type of a schema's first node.
fn leaf_type(schema: &Schema) -> OrFault<&LeafType>
    ensures { IfOk result (λ ty. is_type ty.now ≡ true) }
{
    if schema.count() == 0 {
        return Err(CaseFault::BadArgument);
    }
    schema.ty(0).ok_or(CaseFault::BadArgument)
}

fn with_type(alloc: Global, ty: &LeafType, call: &str, arguments: &Json) -> OrFault<String>
    requires { is_type ty.now ≡ true }
{
    match call {
        "read_text" => text_again(alloc, ty, given::text(part(arguments, "text")?)?),
        "text_value" => text_value(alloc, ty, given::text(part(arguments, "text")?)?),
        "read_json" => json_again(alloc, ty, part(arguments, "json")?),
        "json_value" => json_value(alloc, ty, part(arguments, "json")?),
        _ => copied_type(alloc, ty),
    }
}

/// What is shown of a text or of JSON that isn't read.
fn unread(alloc: Global, fault: TextFault) -> OrFault<String> {
    match fault {
        TextFault::BadText => shown::quoted(alloc, "bad"),
        TextFault::Memory => Err(CaseFault::Memory),
    }
}

/// What is written of what a text is read as.
fn text_again(alloc: Global, ty: &LeafType, text: &str) -> OrFault<String>
    requires { is_type ty.now ≡ true }
{
    match read_text(alloc, ty, text) {
        Ok(atom) => shown::quoted(alloc, write_text(alloc, &atom)?.as_str()),
        Err(fault) => unread(alloc, fault),
    }
}

/// What a text is read as.
fn text_value(alloc: Global, ty: &LeafType, text: &str) -> OrFault<String>
    requires { is_type ty.now ≡ true }
{
    match read_text(alloc, ty, text) {
        Ok(atom) => shown::atom(alloc, &atom),
        Err(fault) => unread(alloc, fault),
    }
}

/// What is written of what JSON is read as.
fn json_again(alloc: Global, ty: &LeafType, json: &Json) -> OrFault<String>
    requires { is_type ty.now ≡ true }
{
    match read_json(alloc, ty, json) {
        Ok(value) => written_json(alloc, ty, &value),
        Err(fault) => unread(alloc, fault),
    }
}

/// What JSON is read as.
fn json_value(alloc: Global, ty: &LeafType, json: &Json) -> OrFault<String>
    requires { is_type ty.now ≡ true }
{
    match read_json(alloc, ty, json) {
        Ok(value) => shown::value(alloc, &value),
        Err(fault) => unread(alloc, fault),
    }
}

fn written_json(alloc: Global, ty: &LeafType, value: &Value) -> OrFault<String> {
    let mut text = String::new(alloc);
    push_value(alloc, &mut text, ty, value)?;
    Ok(text)
}

/// A copy of a type.
fn copied_type(alloc: Global, ty: &LeafType) -> OrFault<String> {
    let copy = ty.copy(alloc)?;
    shown::leaf_type(alloc, &copy)
}

/// The member of an object that has a name.
fn found_member(alloc: Global, arguments: &Json) -> OrFault<String> {
    let name = given::text(part(arguments, "name")?)?;
    match member(part(arguments, "json")?, name) {
        Some(found) => Ok(found.to_string(alloc)?),
        None => shown::quoted(alloc, "none"),
    }
}

/// What a payload holds, made again.
fn payload(alloc: Global, json: &Json) -> OrFault<String> {
    made_again(alloc, &Payload::from_json(alloc, json)?)
}

/// What a copy of a payload holds, made again.
fn copied_payload(alloc: Global, json: &Json) -> OrFault<String> {
    let copy = Some(Payload::from_json(alloc, json)?).copy(alloc)?;
    made_again(alloc, copy.as_ref().ok_or(CaseFault::BadArgument)?)
}

/// Whether the copy of no payload is one.
fn copied_no_payload(alloc: Global) -> OrFault<String> {
    let none: Option<Payload> = None;
    shown::truth(alloc, none.copy(alloc)?.is_some())
}

/// The JSON that a payload is.
fn made_again(alloc: Global, payload: &Payload) -> OrFault<String> {
    Ok(payload.json(alloc)?.to_string(alloc)?)
}

/// What a payload of nested arrays holds, as a text, since no line can hold as many.
fn nested_payload(alloc: Global, count: &Json) -> OrFault<String> {
    let json = nested(alloc, given::number(count)?)?;
    shown::quoted(alloc, payload(alloc, &json)?.as_str())
}

/// What a copy of a payload of nested arrays holds, as a text.
fn copied_nested_payload(alloc: Global, count: &Json) -> OrFault<String> {
    let json = nested(alloc, given::number(count)?)?;
    shown::quoted(alloc, copied_payload(alloc, &json)?.as_str())
}

/// So many arrays of one item, each in the one before, around null.
fn nested(alloc: Global, count: u64) -> OrFault<Json> {
    let mut json = Json::Null;
    for _ in 0..count {
        let mut items = Vec::new(alloc);
        items.push(json)?;
        json = Json::Array(items);
    }
    Ok(json)
}

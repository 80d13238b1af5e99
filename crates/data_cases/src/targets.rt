//! Calls of `yp_path`.
use case_frame::fault::{CaseFault, OrFault};
use case_frame::given;
use case_frame::shown::{self, Answer, Told};
use serde_json::Value as Json;
use std::alloc::Global;
use yp_base::atom::Atom;
use yp_base::rule_path::{RulePath, RuleSeg};
use yp_path::fault::{PathError, PathFault};
use yp_path::rule::read_rule_path;
use yp_path::target::{read_target, write_target};
use yp_schema::schema::Schema;
use yp_value::text::write_text;

pub fn answer(alloc: Global, schema: &Schema, call: &str, arguments: &Json) -> Answer {
    Ok(Some(match call {
        "read_target" => read_again(alloc, schema, given::text(arguments)?)?,
        "target_path" => target_path(alloc, schema, given::text(arguments)?)?,
        "read_rule_path" => rule_path(alloc, schema, given::text(arguments)?)?,
        _ => return Ok(None),
    }))
}

/// What is shown of a fault.
fn fault(alloc: Global, error: &PathError) -> OrFault<String> {
    match error.fault {
        PathFault::Syntax => shown::quoted(alloc, "Syntax"),
        PathFault::UnknownNode => shown::quoted(alloc, "UnknownNode"),
        PathFault::KeyCount => shown::quoted(alloc, "KeyCount"),
        PathFault::KeyValue => shown::quoted(alloc, "KeyValue"),
        PathFault::Memory => Err(CaseFault::Memory),
    }
}

/// What is written of the path that a target is.
fn read_again(alloc: Global, schema: &Schema, text: &str) -> OrFault<String> {
    match read_target(alloc, schema, text) {
        Ok(path) => shown::quoted(alloc, write_target(alloc, schema, &path)?.as_str()),
        Err(found) => fault(alloc, &found),
    }
}

/// The path that a target is.
fn target_path(alloc: Global, schema: &Schema, text: &str) -> OrFault<String> {
    match read_target(alloc, schema, text) {
        Ok(path) => shown::path(alloc, &path),
        Err(found) => fault(alloc, &found),
    }
}

/// The path of a rule: each name, and after it each key in brackets, `*` for all values.
fn rule_path(alloc: Global, schema: &Schema, text: &str) -> OrFault<String> {
    match read_rule_path(alloc, schema, text) {
        Ok(path) => shown::quoted(alloc, shown_rule_path(alloc, schema, &path)?.as_str()),
        Err(found) => fault(alloc, &found),
    }
}

fn shown_rule_path(alloc: Global, schema: &Schema, path: &RulePath) -> OrFault<String> {
    let mut told = Told::new(alloc);
    for segment in path.items() {
        tell_step(alloc, schema, &mut told, segment)?;
    }
    told.done()
}

fn tell_step(alloc: Global, schema: &Schema, told: &mut Told, segment: &RuleSeg) -> OrFault<()> {
    if segment.node >= schema.count() {
        return Err(CaseFault::BadArgument);
    }
    told.push("/");
    told.push(schema.member_text(segment.node));
    for key in segment.keys.items() {
        tell_key(alloc, told, key)?;
    }
    Ok(())
}

fn tell_key(alloc: Global, told: &mut Told, key: &Option<Atom>) -> OrFault<()> {
    told.push("[");
    match key {
        Some(value) => told.push(write_text(alloc, value)?.as_str()),
        None => told.push("*"),
    }
    told.push("]");
    Ok(())
}

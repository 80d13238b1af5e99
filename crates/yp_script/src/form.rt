//! The forms of a script's lines.
ghost use Rattle.std.specs.Prelude.{◌≡◌, option_map};
ghost use Rattle.serde_json.specs.View.{view};
ghost use Rattle.yp_command.specs.declared.fault.ScriptKind.TheVariants.{UnknownCommand};
ghost use Rattle.yp_command.specs.Requests.{seen_request};
ghost use Rattle.yp_script.specs.Forms.{seen_form, form_named, lane_form, line_form};

use serde_json::Value as Json;
use std::alloc::Global;
use yp_cause::lines::form_cause;
use yp_command::command::{Request, request_in, request_named};
use yp_command::fault::{Flaw, ScriptKind};
use yp_command::words::{has_count, sole_member};
use yp_value::json::member;

/// The form of a line, with the values that stand in it.
#[derive(Clone, Copy)]
pub enum Form<V> {
    /// The instant of tick 0.
    Start(V),
    /// A part of the schema.
    Schema(V),
    /// A receiver of notifications.
    Receiver(V),
    /// A command outside the lanes.
    Command(Request<V>),
    /// The beginning of the lanes.
    Lanes(V),
    /// The number of a lane, and a command of it.
    Lane(V, Request<V>),
    /// The end of the lanes.
    Join(V),
}

/// The form of a line whose only member has this name.
fn form_named<'a>(name: &str, value: &'a Json) -> Option<Form<&'a Json>>
    ensures { option_map seen_form result ≡ form_named name.now (view value.now) }
{
    if name == "start" {
        Some(Form::Start(value))
    } else if name == "schema" {
        Some(Form::Schema(value))
    } else if name == "receiver" {
        Some(Form::Receiver(value))
    } else if name == "lanes" {
        Some(Form::Lanes(value))
    } else if name == "join" {
        Some(Form::Join(value))
    } else {
        match request_named(name, value) {
            Some(request) => Some(Form::Command(request)),
            None => None,
        }
    }
}

/// The form of a line of a lane.
fn lane_form(json: &Json) -> Option<Form<&Json>>
    ensures { option_map seen_form result ≡ lane_form (view json.now) }
{
    if !has_count(json, 2) {
        return None;
    }
    let lane = member(json, "lane")?;
    let request = request_in(member(json, "do")?)?;
    Some(Form::Lane(lane, request))
}

/// The form of a line, where it has one that is read.
pub fn line_form(json: &Json) -> Option<Form<&Json>>
    ensures { option_map seen_form result ≡ line_form (view json.now) }
{
    match sole_member(json) {
        Some((name, value)) => form_named(name, value),
        None => lane_form(json),
    }
}

/// The fault of a line that has no form.
pub fn no_form(alloc: Global, json: &Json) -> Flaw
    ensures { result ≡ UnknownCommand }
{
    Flaw::of(ScriptKind::UnknownCommand, form_cause(alloc, json))
}

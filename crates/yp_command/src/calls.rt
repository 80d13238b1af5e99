//! Lines that amend, end and configure subscriptions (RFC 8639 sections 2.4.3 to 2.4.5 and 2.5, RFC 8641
//! sections 4.4.2 to 4.4.4).
ghost use Rattle.std.specs.Prelude.{◌≡◌, IfOk, option_and_then, option_map};
ghost use Rattle.std.specs.Option.{ForSome};
ghost use Rattle.serde_json.specs.View.{items_view, view};
ghost use Rattle.yp_value.specs.Json.{texts_in};
ghost use Rattle.yp_time.specs.Ticks.{IsAnchor};
ghost use Rattle.yp_command.specs.declared.fault.ScriptKind.TheVariants.{Member};
ghost use Rattle.yp_command.specs.Calls.{amend_said, are_some_distinct, call_said, configure_said, delete_said, given_filter_said, given_trigger_said, has_either, id_said, kill_said, modify_said, receivers_said, reconfigure_said, resync_said, unconfigure_said};
ghost use Rattle.yp_command.specs.Commands.{IsBounded, anchor_of};
ghost use Rattle.yp_command.specs.Readings.{Tells};
ghost use Rattle.yp_command.specs.Words.{where_true};

use crate::ask::{
    AskPart, has_only, read_ask, read_by, read_filter, read_number_there, read_trigger,
};
use crate::fault::{Flaw, ScriptKind};
use crate::halt::{Halt, both, holding};
use crate::receivers::Receivers;
use crate::words::lacking;
use serde_json::Value as Json;
use std::alloc::Global;
use yp_base::leaf_type::Names;
use yp_base::memory::NoMemory;
use yp_base::notice::Trigger;
use yp_base::txt::{Txt, are_distinct};
use yp_journal::command::Command;
use yp_terms::ask::{Amend, FilterAsk};
use yp_time::start::Start;
use yp_value::json::member;
use yp_value::members::read_texts;

/// What `receivers` is.
const ARE_NAMES: &str = "is an array of names";

/// The id of the subscription that a call is about.
fn read_id(json: &Json) -> Result<u32, Halt>
    ensures { Tells result (id_said (view json.now)) }
{
    read_number_there(member(json, "id"), "id")
}

/// The number of the receiver that makes a call, and the id of the subscription that it is about.
fn read_call(alloc: Global, receivers: &Receivers, json: &Json) -> Result<(u32, u32), Halt>
    ensures { Tells result (call_said receivers.now (view json.now)) }
{
    let parts = both(read_by(alloc, receivers, json), read_id(json));
    let only = has_only(alloc, AskPart::Call, json);
    holding(ScriptKind::Member, only, parts)
}

/// The deletion that a line asks for, by the receivers so far.
pub fn read_delete(alloc: Global, receivers: &Receivers, json: &Json) -> Result<Command, Halt>
    ensures read { Tells result (delete_said receivers.now (view json.now)) }
    ensures bounds { IfOk result IsBounded }
{
    let (by, id) = read_call(alloc, receivers, json)?;
    Ok(Command::Delete { by, id })
}

/// The kill that a line asks for, by the receivers so far.
pub fn read_kill(alloc: Global, receivers: &Receivers, json: &Json) -> Result<Command, Halt>
    ensures read { Tells result (kill_said receivers.now (view json.now)) }
    ensures bounds { IfOk result IsBounded }
{
    let (by, id) = read_call(alloc, receivers, json)?;
    Ok(Command::Kill { by, id })
}

/// The full update that a line asks for, by the receivers so far.
pub fn read_resync(alloc: Global, receivers: &Receivers, json: &Json) -> Result<Command, Halt>
    ensures read { Tells result (resync_said receivers.now (view json.now)) }
    ensures bounds { IfOk result IsBounded }
{
    let (by, id) = read_call(alloc, receivers, json)?;
    Ok(Command::Resync { by, id })
}

/// Whether an object has a member of one of these two names.
fn has_either(json: &Json, name: &str, other: &str) -> bool
    ensures { result ≡ has_either name.now other.now (view json.now) }
{
    member(json, name).is_some() || member(json, other).is_some()
}

/// The filter, where one is given.
fn read_given_filter(alloc: Global, json: &Json) -> Result<Option<FilterAsk>, Halt>
    ensures { Tells result (given_filter_said (view json.now)) }
{
    if has_either(json, "datastore-subtree-filter", "datastore-xpath-filter") {
        Ok(Some(read_filter(alloc, json)?))
    } else {
        Ok(None)
    }
}

/// The trigger, where one is given: of one on change the dampening period alone.
fn read_given_trigger(
    alloc: Global,
    start: Option<Start>,
    json: &Json,
) -> Result<Option<Trigger>, Halt>
    ensures read { Tells result (given_trigger_said start (view json.now)) }
    ensures anchor { IfOk result (λ trigger. ForSome (option_and_then anchor_of trigger) IsAnchor) }
{
    if has_either(json, "periodic", "on-change") {
        Ok(Some(read_trigger(alloc, AskPart::Dampening, start, json)?))
    } else {
        Ok(None)
    }
}

/// What a subscription is amended with.
fn read_amend(alloc: Global, start: Option<Start>, json: &Json) -> Result<Amend, Halt>
    ensures read { Tells result (amend_said start (view json.now)) }
    ensures anchor { IfOk result (λ amend. ForSome (option_and_then anchor_of amend.trigger) IsAnchor) }
{
    let terms = both(
        read_given_filter(alloc, json),
        read_given_trigger(alloc, start, json),
    );
    let (filter, trigger) = terms?;
    Ok(Amend { filter, trigger })
}

/// The modification that a line asks for, by the start and the receivers so far.
pub fn read_modify(
    alloc: Global,
    start: Option<Start>,
    receivers: &Receivers,
    json: &Json,
) -> Result<Command, Halt>
    ensures read { Tells result (modify_said start receivers.now (view json.now)) }
    ensures bounds { IfOk result IsBounded }
{
    let call = both(read_by(alloc, receivers, json), read_id(json));
    let parts = both(call, read_amend(alloc, start, json));
    let only = has_only(alloc, AskPart::Modify, json);
    let ((by, id), amend) = holding(ScriptKind::Member, only, parts)?;
    Ok(Command::Modify { by, id, amend })
}

/// Whether these are one text or more, and none stands twice.
fn are_some_distinct(alloc: Global, texts: &[Txt]) -> Result<bool, NoMemory>
    ensures { IfOk result (λ distinct. distinct ≡ are_some_distinct texts.now) }
{
    if texts.is_empty() {
        return Ok(false);
    }
    are_distinct(alloc, texts)
}

/// The texts of an array that holds one or more, and none twice.
fn read_distinct(alloc: Global, items: &Vec<Json>) -> Result<Option<Names>, NoMemory>
    ensures { IfOk result (λ texts. texts ≡ where_true are_some_distinct (texts_in (items_view items.now.items))) }
{
    match read_texts(alloc, items.as_slice())? {
        Some(texts) => {
            if are_some_distinct(alloc, texts.items())? {
                Ok(Some(texts))
            } else {
                Ok(None)
            }
        }
        None => Ok(None),
    }
}

/// What is wrong with the names of receivers where they are none, or one stands twice.
fn wrong_names(items: &Vec<Json>) -> Flaw
    ensures { result ≡ Member }
{
    let words = if items.is_empty() {
        "is empty"
    } else if items.iter().all(Json::is_string) {
        "has a name twice"
    } else {
        ARE_NAMES
    };
    Flaw::wrong("receivers", words)
}

/// The names of the receivers that a subscription is configured for.
fn read_receivers(alloc: Global, json: &Json) -> Result<Names, Halt>
    ensures { Tells result (receivers_said (view json.now)) }
{
    match member(json, "receivers") {
        Some(Json::Array(items)) => match read_distinct(alloc, items)? {
            Some(names) => Ok(names),
            None => Err(Halt::Fault(wrong_names(items))),
        },
        _ => Err(Halt::Fault(lacking(json, "receivers", ARE_NAMES))),
    }
}

/// The configured subscription that a line asks for, by the start.
pub fn read_configure(alloc: Global, start: Option<Start>, json: &Json) -> Result<Command, Halt>
    ensures read { Tells result (configure_said start (view json.now)) }
    ensures bounds { IfOk result IsBounded }
{
    let whom = both(read_id(json), read_receivers(alloc, json));
    let parts = both(whom, read_ask(alloc, start, json));
    let only = has_only(alloc, AskPart::Configure, json);
    let ((id, receivers), ask) = holding(ScriptKind::Member, only, parts)?;
    Ok(Command::Configure { id, receivers, ask })
}

/// The modification of a configured subscription that a line asks for, by the start.
pub fn read_reconfigure(alloc: Global, start: Option<Start>, json: &Json) -> Result<Command, Halt>
    ensures read { Tells result (reconfigure_said start (view json.now)) }
    ensures bounds { IfOk result IsBounded }
{
    let parts = both(read_id(json), read_amend(alloc, start, json));
    let only = has_only(alloc, AskPart::Reconfigure, json);
    let (id, amend) = holding(ScriptKind::Member, only, parts)?;
    Ok(Command::Reconfigure { id, amend })
}

/// The end of a configured subscription that a line asks for.
pub fn read_unconfigure(alloc: Global, json: &Json) -> Result<Command, Halt>
    ensures read { Tells result (unconfigure_said (view json.now)) }
    ensures bounds { IfOk result IsBounded }
{
    let only = has_only(alloc, AskPart::Unconfigure, json);
    let id = holding(ScriptKind::Member, only, read_id(json))?;
    Ok(Command::Unconfigure { id })
}

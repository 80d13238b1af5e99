//! Commands: which one a member of a line asks for, and what it says.
ghost use Rattle.std.specs.Prelude.{◌≡◌, IfOk, option_map};
ghost use Rattle.serde_json.specs.View.{view};
ghost use Rattle.yp_command.specs.Commands.{IsBounded};
ghost use Rattle.yp_command.specs.Readings.{Tells};
ghost use Rattle.yp_command.specs.declared.fault.ScriptKind.TheVariants as kinds;
ghost use Rattle.yp_command.specs.Requests.{request_named, request_in, seen_request, patch_said, policy_said, command_said};

use crate::ask::read_establish;
use crate::calls::{
    read_configure, read_delete, read_kill, read_modify, read_reconfigure, read_resync,
    read_unconfigure,
};
use crate::fault::{Flaw, ScriptKind};
use crate::halt::Halt;
use crate::receivers::Receivers;
use crate::take::read_take;
use crate::words::{sole_member, whole};
use serde_json::Value as Json;
use std::alloc::Global;
use yp_cause::patches::patch_cause;
use yp_cause::policies::policy_cause;
use yp_journal::command::Command;
use yp_nacm_text::fault::{Place, PolicyFault, PolicyKind};
use yp_nacm_text::policy::read_policy;
use yp_patch::fault::{PatchError, PatchFault};
use yp_patch::reading::read_patch;
use yp_schema::schema::Schema;
use yp_time::start::Start;

/// The last tick.
const LAST_TICK: u64 = 1_000_000_000_000;

/// A command that a line asks for, with the value of its member.
#[derive(Clone, Copy)]
pub enum Request<V> {
    /// Time goes on.
    Tick(V),
    /// A patch of the datastore (RFC 8072).
    Patch(V),
    /// A policy of access control (RFC 8341).
    Policy(V),
    /// A subscription is asked for (RFC 8639 section 2.4.2).
    Establish(V),
    /// A receiver modifies its subscription (RFC 8639 section 2.4.3).
    Modify(V),
    /// A receiver deletes its subscription (RFC 8639 section 2.4.4).
    Delete(V),
    /// A subscription of any receiver is ended (RFC 8639 section 2.4.5).
    Kill(V),
    /// A receiver asks for a full update (RFC 8641 section 4.4.4).
    Resync(V),
    /// A subscription is configured (RFC 8639 section 2.5.2).
    Configure(V),
    /// A configured subscription is modified (RFC 8639 section 2.5.3).
    Reconfigure(V),
    /// A configured subscription is taken away (RFC 8639 section 2.5.4).
    Unconfigure(V),
    /// A receiver takes packets from its queue.
    Take(V),
}

/// The command that a member of this name asks for.
pub fn request_named<'a>(name: &str, value: &'a Json) -> Option<Request<&'a Json>>
    ensures { option_map seen_request result ≡ request_named name.now (view value.now) }
{
    if name == "tick" {
        Some(Request::Tick(value))
    } else if name == "patch" {
        Some(Request::Patch(value))
    } else if name == "policy" {
        Some(Request::Policy(value))
    } else if name == "establish" {
        Some(Request::Establish(value))
    } else if name == "modify" {
        Some(Request::Modify(value))
    } else if name == "delete" {
        Some(Request::Delete(value))
    } else if name == "kill" {
        Some(Request::Kill(value))
    } else if name == "resync" {
        Some(Request::Resync(value))
    } else if name == "configure" {
        Some(Request::Configure(value))
    } else if name == "reconfigure" {
        Some(Request::Reconfigure(value))
    } else if name == "unconfigure" {
        Some(Request::Unconfigure(value))
    } else if name == "take" {
        Some(Request::Take(value))
    } else {
        None
    }
}

/// The command that an object of one member asks for.
pub fn request_in(json: &Json) -> Option<Request<&Json>>
    ensures { option_map seen_request result ≡ request_in (view json.now) }
{
    match sole_member(json) {
        Some((name, value)) => request_named(name, value),
        None => None,
    }
}

/// A fault of a patch, which its reader tells by this error.
fn patch_flaw(alloc: Global, json: &Json, error: &PatchError) -> Flaw
    ensures { result ≡ kinds.Patch }
{
    Flaw::of(ScriptKind::Patch, patch_cause(alloc, json, error))
}

/// The patch that a line asks for (RFC 8072).
fn read_edit(alloc: Global, json: &Json) -> Result<Command, Halt>
    ensures read { Tells result (patch_said (view json.now)) }
    ensures bounds { IfOk result IsBounded }
{
    match read_patch(alloc, json) {
        Ok(patch) => Ok(Command::Edit(patch)),
        Err(error) => match error.fault {
            PatchFault::Shape => Err(Halt::Fault(patch_flaw(alloc, json, &error))),
            PatchFault::Memory => Err(Halt::Memory),
        },
    }
}

/// A fault of a policy, of this kind and at this place.
fn policy_flaw(alloc: Global, schema: &Schema, json: &Json, place: Place, kind: PolicyKind) -> Flaw
    ensures { result ≡ kinds.Policy }
{
    Flaw::of(
        ScriptKind::Policy,
        policy_cause(alloc, schema, json, place, kind),
    )
}

/// The policy that a line asks for (RFC 8341 section 3.5).
fn read_rules(alloc: Global, schema: &Schema, json: &Json) -> Result<Command, Halt>
    ensures read { Tells result (policy_said schema.now (view json.now)) }
    ensures bounds { IfOk result IsBounded }
{
    match read_policy(alloc, schema, json) {
        Ok(policy) => Ok(Command::Rules(policy)),
        Err(PolicyFault::At { place, kind }) => {
            Err(Halt::Fault(policy_flaw(alloc, schema, json, place, kind)))
        }
        Err(PolicyFault::Memory) => Err(Halt::Memory),
    }
}

/// The command that a line asks for, by the schema, the start and the receivers so far.
pub fn read_command(
    alloc: Global,
    schema: &Schema,
    start: Option<Start>,
    receivers: &Receivers,
    request: Request<&Json>,
) -> Result<Command, Halt>
    ensures read { Tells result (command_said schema.now start receivers.now (seen_request request.entry)) }
    ensures bounds { IfOk result IsBounded }
{
    match request {
        Request::Tick(json) => Ok(Command::Tick(whole(json, "tick", 0, LAST_TICK)?)),
        Request::Patch(json) => read_edit(alloc, json),
        Request::Policy(json) => read_rules(alloc, schema, json),
        Request::Establish(json) => read_establish(alloc, start, receivers, json),
        Request::Modify(json) => read_modify(alloc, start, receivers, json),
        Request::Delete(json) => read_delete(alloc, receivers, json),
        Request::Kill(json) => read_kill(alloc, receivers, json),
        Request::Resync(json) => read_resync(alloc, receivers, json),
        Request::Configure(json) => read_configure(alloc, start, json),
        Request::Reconfigure(json) => read_reconfigure(alloc, start, json),
        Request::Unconfigure(json) => read_unconfigure(alloc, json),
        Request::Take(json) => read_take(alloc, receivers, json),
    }
}

//! Lines by which receivers take packets from their queues.
ghost use Rattle.std.specs.Prelude.{◌≡◌, ◌<◌, ◌≤◌, IfOk, IfSome, is_ok, length, slice_get};
ghost use Rattle.serde_json.specs.View.{view};
ghost use Rattle.yp_command.specs.Commands.{IsBounded};
ghost use Rattle.yp_command.specs.Readings.{Tells};
ghost use Rattle.yp_command.specs.Takes.{is_taker, taker_number, taker_said, count_said, take_said};
ghost use Rattle.yp_command.specs.Words.{has_count};
ghost use Rattle.yp_command.specs.declared.fault.ScriptKind.TheVariants.{Member};

use crate::ask::no_receiver;
use crate::fault::{Flaw, ScriptKind};
use crate::halt::{Halt, both, holding};
use crate::receivers::Receivers;
use crate::words::{has_count, lacking_among, text_in, whole};
use serde_json::Value as Json;
use std::alloc::Global;
use yp_cause::cause::{Cause, Wrong};
use yp_cause::excerpt::Excerpt;
use yp_cause::lines::other_member;
use yp_journal::command::Command;
use yp_value::json::member;

/// The members of a take.
const MEMBERS: [&str; 2] = ["receiver", "count"];

/// The most packets that one command takes.
const MOST_PACKETS: u64 = 32;

/// Whether the receiver of this number takes its packets by commands.
fn is_taker(receivers: &Receivers, number: usize) -> bool
    ensures { result ≡ is_taker (slice_get receivers.now number) }
{
    match receivers.get(number) {
        Some(receiver) => !receiver.auto,
        None => false,
    }
}

/// The number of the receiver of a name, where it takes its packets by commands.
fn taker_number(receivers: &Receivers, name: &str) -> Option<usize>
    ensures number { result ≡ taker_number receivers.now name.now }
    ensures within { IfSome result (λ number. number < 16) }
{
    match receivers.number_of(name) {
        Some(number) => {
            if is_taker(receivers, number) {
                Some(number)
            } else {
                None
            }
        }
        None => None,
    }
}

/// What is wrong with a take in which the member of this name isn't what it must be, as these words say.
fn wrong_member(alloc: Global, json: &Json, name: &'static str, words: &'static str) -> Flaw
    ensures { result ≡ Member }
{
    lacking_among(alloc, json, &MEMBERS, name, words)
}

/// Why the receiver of a name takes no packets by commands.
fn no_taker(alloc: Global, receivers: &Receivers, name: &str) -> Flaw
    ensures { result ≡ Member }
{
    match receivers.number_of(name) {
        Some(_) => Flaw::member(Cause::about(Wrong::TakesByItself, Excerpt::of(alloc, name))),
        None => no_receiver(alloc, name),
    }
}

/// The number of the receiver that a line names.
fn read_taker(alloc: Global, receivers: &Receivers, json: &Json) -> Result<u32, Halt>
    ensures { Tells result (taker_said receivers.now (view json.now)) }
{
    match text_in(json, "receiver") {
        Some(name) => match taker_number(receivers, name) {
            Some(number) => Ok(number as u32),
            None => Err(Halt::Fault(no_taker(alloc, receivers, name))),
        },
        None => Err(Halt::Fault(wrong_member(alloc, json, "receiver", "is a text"))),
    }
}

/// How many packets it takes at most.
fn read_count(alloc: Global, json: &Json) -> Result<u32, Halt>
    ensures { Tells result (count_said (view json.now)) }
{
    match member(json, "count") {
        Some(count) => Ok(whole(count, "count", 1, MOST_PACKETS)? as u32),
        None => Err(Halt::Fault(wrong_member(alloc, json, "count", "is missing"))),
    }
}

/// Whether it is an object of two members, or what is wrong with it.
fn has_two(alloc: Global, json: &Json) -> Result<(), Cause>
    ensures { is_ok result ≡ has_count 2 (view json.now) }
{
    if has_count(json, 2) {
        return Ok(());
    }
    match other_member(alloc, json, &MEMBERS) {
        Some(cause) => Err(cause),
        None => Err(Cause::of(Wrong::NoObject)),
    }
}

/// The take that a line asks for, by the receivers so far.
pub fn read_take(alloc: Global, receivers: &Receivers, json: &Json) -> Result<Command, Halt>
    ensures read { Tells result (take_said receivers.now (view json.now)) }
    ensures bounds { IfOk result IsBounded }
{
    let parts = both(read_taker(alloc, receivers, json), read_count(alloc, json));
    let (receiver, count) = holding(ScriptKind::Member, has_two(alloc, json), parts)?;
    Ok(Command::Take { receiver, count })
}

//! The text of a run.
ghost use Rattle.std.specs.Prelude.{◌≡◌, ◌^◌, ◌<◌, ◌++◌, ◌∷◌, ℕ, List, length, map, IfOk, OnOk, string_bytes};
ghost use Rattle.std.specs.List.{flat_map};
ghost use Rattle.yp_schema.specs.declared.schema.SchemaNode.{SchemaNode};
ghost use Rattle.yp_attempt.specs.Runs.{Run};
ghost use Rattle.yp_listeners.specs.Listeners.{IsListenerOf};
ghost use Rattle.yp_promise.specs.Received.{CanBeShown};
ghost use Rattle.yp_report.specs.Report.{receiver_text};
ghost use Rattle.yp_concurrent.specs.Report.{done_for, reports_beside};
ghost use Rattle.yp_concurrent.specs.Texts.{HaveLogs, HaveSomeLogs, count_lines, is_line, listener_text, text_beside};

use crate::outside::Standing;
use std::alloc::Global;
use yp_base::memory::NoMemory;
use yp_crews::crew::Crew;
use yp_journal::receiver::ReceiverInfo;
use yp_listeners::listener::Listener;
use yp_offer_log::logged::{Logged, log_text};
use yp_replay::laws::what_is_held_can_be_written;
use yp_report::laws::the_lines_of_a_log_are_those_of_what_is_shown;
use yp_report::replied::Replied;
use yp_report::replies::replies_text;
use yp_report::texts::join_texts;
use yp_report::trees::push_trees;
use yp_schema::schema::Schema;

/// Whether it is a packet that was accepted.
fn is_line(logged: &Logged) -> bool
    ensures { result ≡ is_line logged.now }
{
    match logged {
        Logged::Line { .. } => true,
        Logged::FullAt { .. } => false,
    }
}

/// How many packets of a log were accepted.
fn count_lines(log: &[Logged]) -> usize
    ensures { result ≡ count_lines log.now }
{
    log.iter().filter(|logged| is_line(logged)).count()
}

/// The lines of a listener: those of its log, and after them those of what it holds.
fn listener_text(
    alloc: Global,
    schema: &Schema,
    name: &str,
    listener: Listener,
) -> Result<String, NoMemory>
    requires { CanBeShown schema.now listener.heard }
    ensures { IfOk result (λ text. string_bytes text ≡ listener_text schema.now name.now listener) }
{
    let Listener { log, heard, .. } = listener;
    let taken = count_lines(log.as_slice());
    let mut text = log_text(alloc, name, log, taken)?;
    push_trees(alloc, &mut text, schema, name, heard.into_holdings())?;
    Ok(text)
}

/// Takes the first listener out, where it has this number. Receivers come in the order of their numbers, and so do the
/// listeners of each worker; where it has another, this gives up as if memory had run out.
fn take_first(listeners: &mut Vec<Listener>, number: u32) -> Result<Listener, NoMemory>
    ensures number { IfOk result (λ listener. listener.receiver ≡ number) }
    ensures parts { IfOk result (λ listener. listeners.old.items ≡ listener ∷ listeners.new.items) }
{
    if listeners.is_empty() {
        return Err(NoMemory);
    }
    let listener = listeners.remove(0);
    if listener.receiver != number {
        return Err(NoMemory);
    }
    Ok(listener)
}

/// Takes the listener of the receiver of a number out of those of its worker.
fn take_next(listeners: &mut Vec<Vec<Listener>>, number: u32) -> Result<Listener, NoMemory>
    requires { 0 < length listeners.old.items }
    ensures number { IfOk result (λ listener. listener.receiver ≡ number) }
    ensures its { IfOk result (λ listener. (nodes : List SchemaNode) (start : ℕ) (runs : List Run)
        → HaveLogs nodes start runs listeners.old.items → IsListenerOf nodes start (done_for number runs) listener) }
    ensures left { OnOk result ((nodes : List SchemaNode) (start : ℕ) (runs : List Run)
        → HaveLogs nodes start runs listeners.old.items → HaveLogs nodes start runs listeners.new.items) }
    ensures count { length listeners.new.items ≡ length listeners.old.items }
{
    let place = number as usize % listeners.len();
    take_first(&mut listeners[place], number)
}

/// Adds the lines of each receiver.
fn push_receivers(
    alloc: Global,
    schema: &Schema,
    receivers: &[ReceiverInfo],
    listeners: Vec<Vec<Listener>>,
    parts: &mut Vec<String>,
) -> Result<(), NoMemory>
    requires some { 0 < length listeners.items }
    requires few { length receivers.now < 2 ^ 32 }
    requires logs { HaveSomeLogs schema.now listeners.items }
    ensures { OnOk result ((start : ℕ) (runs : List Run) → HaveLogs schema.now start runs listeners.items
        → flat_map string_bytes parts.new.items ≡ flat_map string_bytes parts.old.items ++ flat_map (receiver_text schema.now start) (reports_beside schema.now start runs 0 receivers.now)) }
{
    what_is_held_can_be_written();
    the_lines_of_a_log_are_those_of_what_is_shown();
    let mut listeners = listeners;
    let mut number = 0u32;
    for receiver in receivers {
        let listener = take_next(&mut listeners, number)?;
        let name = receiver.name.as_str();
        parts.push(listener_text(alloc, schema, name, listener)?)?;
        number += 1;
    }
    Ok(())
}

/// The text of replies, and of what is told of each receiver.
fn whole_text(
    alloc: Global,
    schema: &Schema,
    receivers: &[ReceiverInfo],
    replies: Vec<Replied>,
    listeners: Vec<Vec<Listener>>,
) -> Result<String, NoMemory>
    requires replies { length replies.items < 2 ^ 63 }
    requires some { 0 < length listeners.items }
    requires few { length receivers.now < 2 ^ 32 }
    requires logs { HaveSomeLogs schema.now listeners.items }
    ensures { IfOk result (λ text. (start : ℕ) (runs : List Run) → HaveLogs schema.now start runs listeners.items
        → string_bytes text ≡ text_beside schema.now start receivers.now replies.items runs) }
{
    let mut parts = Vec::new(alloc);
    parts.push(replies_text(alloc, replies)?)?;
    push_receivers(alloc, schema, receivers, listeners, &mut parts)?;
    parts.push(String::from_str(alloc, "end\n")?)?;
    let text = join_texts(alloc, parts)?;
    Ok(text)
}

/// The listeners of crews, whose workers are let go.
fn listeners_of(alloc: Global, crews: Vec<Crew>) -> Result<Vec<Vec<Listener>>, NoMemory>
    ensures { IfOk result (λ all. all.items ≡ map (λ crew. crew.listeners) crews.items) }
{
    let mut all = Vec::with_capacity(alloc, crews.len())?;
    for crew in crews {
        let Crew { worker, listeners } = crew;
        drop(worker);
        all.push(listeners)?;
    }
    Ok(all)
}

/// The text of a run that stands here: of its replies, and of what its crews have of each receiver.
pub fn text_of(
    alloc: Global,
    schema: &Schema,
    receivers: &[ReceiverInfo],
    standing: Standing,
) -> Result<String, NoMemory>
    requires replies { length standing.replies.items < 2 ^ 63 }
    requires some { 0 < length standing.crews.items }
    requires few { length receivers.now < 2 ^ 32 }
    requires logs { HaveSomeLogs schema.now (map (λ crew. crew.listeners) standing.crews.items) }
    ensures { IfOk result (λ text. (start : ℕ) (runs : List Run) → HaveLogs schema.now start runs (map (λ crew. crew.listeners) standing.crews.items)
        → string_bytes text ≡ text_beside schema.now start receivers.now standing.replies.items runs) }
{
    let Standing {
        state,
        crews,
        replies,
    } = standing;
    // The datastore goes before the report is written, and so do those of the workers.
    drop(state);
    let listeners = listeners_of(alloc, crews)?;
    whole_text(alloc, schema, receivers, replies, listeners)
}

//! A worker that serves receivers which take each packet at once.
ghost use Rattle.std.specs.Prelude.{◌≡◌, ℕ, ◌<◌, ◌^◌, ◌==◌, ◌++◌, ◌∷◌, [], List, IfOk, OnOk, count_by};
ghost use Rattle.std.specs.List.{position};
ghost use Rattle.yp_journal.specs.declared.entry.Entry.{Entry as EntryThere};
ghost use Rattle.yp_journal.specs.declared.receiver.ReceiverInfo.{ReceiverInfo};
ghost use Rattle.yp_journal.specs.History.{MayFollow};
ghost use Rattle.yp_attempt.specs.Runs.{Run};
ghost use Rattle.yp_listeners.specs.Listeners.{GoesOnIf, HasServed, IsReady, IsServed, IsServedOn, IsServing, WereGiven, numbers_in};

use crate::laws::offers_come_to_an_end;
use crate::listener::Listener;
use std::alloc::Global;
use yp_base::memory::NoMemory;
use yp_journal::entry::Entry;
use yp_moment::laws::{entries_of_a_legal_journal_may_follow, one_entry_more_is_one_moment_more};
use yp_queue::packet::Packet;
use yp_schema::schema::Schema;
use yp_slot::settling::Settled;
use yp_worker::laws::a_worker_offers_what_its_run_offers;
use yp_worker::offering::Sent;
use yp_worker::worker::Worker;

/// How many listeners have a number.
fn count_of(listeners: &[Listener], number: u32) -> usize
    ensures { result ≡ count_by (λ listener. number == listener.receiver) listeners.now }
{
    listeners
        .iter()
        .filter(|listener| number == listener.receiver)
        .count()
}

/// The place of the first that has it.
fn place_of(listeners: &[Listener], number: u32) -> Option<usize>
    ensures { result ≡ position (λ listener. number == listener.receiver) listeners.now }
{
    listeners
        .iter()
        .position(|listener| number == listener.receiver)
}

/// Has the listener with a number take a packet. That just one has it is for the caller to see to; where none has it, or
/// more than one, this gives up as if memory had run out.
fn give(
    alloc: Global,
    schema: &Schema,
    listeners: &mut Vec<Listener>,
    number: u32,
    packet: Packet,
) -> Result<(), NoMemory>
    ensures numbers { numbers_in listeners.new.items ≡ numbers_in listeners.old.items }
    ensures given { OnOk result (WereGiven schema.now number packet listeners.old.items listeners.new.items) }
{
    if count_of(listeners.as_slice(), number) != 1 {
        return Err(NoMemory);
    }
    match place_of(listeners.as_slice(), number) {
        Some(place) => listeners[place].take(alloc, schema, packet),
        None => Err(NoMemory),
    }
}

/// Has the next offer of the worker taken by its listener, and says whether there was one.
fn answer_next(
    alloc: Global,
    schema: &Schema,
    worker: &mut Worker,
    listeners: &mut Vec<Listener>,
) -> Result<bool, NoMemory>
    requires { IsServing schema.now worker.old listeners.old.items }
    ensures goes { IfOk result (λ more. (start : ℕ) (receivers : List ReceiverInfo) (mine : List ℕ) (entries : List EntryThere) (run : Run)
        → HasServed schema.now start receivers mine entries run worker.old listeners.old.items → GoesOnIf more schema.now start receivers mine entries run 1 worker.new listeners.new.items) }
    ensures numbers { numbers_in listeners.new.items ≡ numbers_in listeners.old.items }
{
    a_worker_offers_what_its_run_offers();
    offers_come_to_an_end();
    match worker.next_offer(alloc, schema)? {
        Some(sent) => {
            let Sent {
                receiver,
                packet,
                ..
            } = sent;
            give(alloc, schema, listeners, receiver, packet)?;
            worker.settle(alloc, Settled::Took);
            Ok(true)
        }
        None => Ok(false),
    }
}

/// Has up to fifteen offers taken, and says whether there may be more.
fn answer_some(
    alloc: Global,
    schema: &Schema,
    worker: &mut Worker,
    listeners: &mut Vec<Listener>,
) -> Result<bool, NoMemory>
    requires { IsServing schema.now worker.old listeners.old.items }
    ensures goes { IfOk result (λ more. (start : ℕ) (receivers : List ReceiverInfo) (mine : List ℕ) (entries : List EntryThere) (run : Run)
        → HasServed schema.now start receivers mine entries run worker.old listeners.old.items → GoesOnIf more schema.now start receivers mine entries run 15 worker.new listeners.new.items) }
    ensures numbers { numbers_in listeners.new.items ≡ numbers_in listeners.old.items }
{
    for _answer in 0..15u32 {
        if !answer_next(alloc, schema, worker, listeners)? {
            return Ok(false);
        }
    }
    Ok(true)
}

/// Has all offers of the worker taken. At a position there come at most fifteen for each feed.
fn answer_all(
    alloc: Global,
    schema: &Schema,
    worker: &mut Worker,
    listeners: &mut Vec<Listener>,
) -> Result<(), NoMemory>
    requires { IsServing schema.now worker.old listeners.old.items }
    ensures served { OnOk result ((start : ℕ) (receivers : List ReceiverInfo) (mine : List ℕ) (entries : List EntryThere) (run : Run)
        → HasServed schema.now start receivers mine entries run worker.old listeners.old.items → IsServedOn schema.now start receivers mine entries run worker.new listeners.new.items) }
    ensures numbers { numbers_in listeners.new.items ≡ numbers_in listeners.old.items }
{
    a_worker_offers_what_its_run_offers();
    offers_come_to_an_end();
    for _feed in 0..worker.feeds() {
        if !answer_some(alloc, schema, worker, listeners)? {
            return Ok(());
        }
    }
    if answer_some(alloc, schema, worker, listeners)? {
        unreachable!()
    }
    Ok(())
}

/// Has a worker take the next entry, and its receivers take all that it offers then. Each offer is accepted. An error says
/// that memory ran out; then nothing is known of what the worker and the receivers have. The same error comes where
/// something is offered to a receiver that has no listener, or more than one.
pub fn serve_entry(
    alloc: Global,
    schema: &Schema,
    worker: &mut Worker,
    listeners: &mut Vec<Listener>,
    entry: &Entry,
) -> Result<(), NoMemory>
    requires entry { MayFollow schema.now worker.old.state entry.now }
    requires position { worker.old.state.position < 2 ^ 63 }
    requires ready { IsReady schema.now worker.old listeners.old.items }
    ensures numbers { numbers_in listeners.new.items ≡ numbers_in listeners.old.items }
    ensures served { OnOk result ((start : ℕ) (receivers : List ReceiverInfo) (mine : List ℕ) (entries : List EntryThere) (run : Run)
        → IsServed schema.now start receivers mine entries run worker.old listeners.old.items
        → IsServedOn schema.now start receivers mine (entries ++ entry.now ∷ []) run worker.new listeners.new.items) }
{
    a_worker_offers_what_its_run_offers();
    one_entry_more_is_one_moment_more();
    entries_of_a_legal_journal_may_follow();
    worker.absorb(alloc, schema, entry)?;
    answer_all(alloc, schema, worker, listeners)
}

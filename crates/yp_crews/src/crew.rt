//! A worker, and what it has for each of the receivers that it serves.
ghost use Rattle.std.specs.Prelude.{◌≡◌, ℕ, ◌<◌, ◌^◌, ◌++◌, ◌∷◌, [], List, length, IfOk, OnOk};
ghost use Rattle.std.specs.List.{AllByRecursion};
ghost use Rattle.yp_schema.specs.declared.schema.SchemaNode.{SchemaNode};
ghost use Rattle.yp_journal.specs.declared.entry.Entry.{Entry as EntryThere};
ghost use Rattle.yp_journal.specs.declared.receiver.ReceiverInfo.{ReceiverInfo as Declared};
ghost use Rattle.yp_journal.specs.History.{MayFollow};
ghost use Rattle.yp_attempt.specs.Runs.{Run, first_run};
ghost use Rattle.yp_attempt.specs.Workers.{numbers_of};
ghost use Rattle.yp_listeners.specs.Listeners.{IsListenerOf, IsReady, numbers_in};
ghost use Rattle.yp_crews.specs.Crews.{IsCrewOf, IsCrewOn};

use std::alloc::Global;
use yp_base::memory::NoMemory;
use yp_journal::entry::Entry;
use yp_journal::receiver::ReceiverInfo;
use yp_listeners::listener::Listener;
use yp_listeners::serving::serve_entry;
use yp_receiver::receiver::Receiver;
use yp_schema::schema::Schema;
use yp_time::start::Start;
use yp_worker::worker::Worker;

/// A worker, and what it has for each of the receivers that it serves.
#[derive(Drop)]
pub struct Crew {
    pub worker: Worker,
    pub listeners: Vec<Listener>,
}

/// A listener for the receiver of a number, which took nothing yet.
fn new_listener(alloc: Global, receiver: u32) -> Listener
    ensures receiver { result.receiver ≡ receiver }
    ensures opened { (nodes : List SchemaNode) (start : ℕ) → IsListenerOf nodes start [] result }
{
    Listener {
        receiver,
        log: Vec::new(alloc),
        heard: Receiver::new(alloc),
    }
}

/// Of so many receivers a listener for each that a worker serves, in order.
fn open_listeners(
    alloc: Global,
    worker: u32,
    workers: u32,
    count: u32,
) -> Result<Vec<Listener>, NoMemory>
    requires { worker < workers }
    ensures each { IfOk result (λ listeners. numbers_in listeners.items ≡ numbers_of worker workers count) }
    ensures opened { IfOk result (λ listeners. (nodes : List SchemaNode) (start : ℕ) → AllByRecursion (IsListenerOf nodes start []) listeners.items) }
{
    let mut listeners = Vec::new(alloc);
    for number in 0..count {
        if number % workers == worker {
            listeners.push(new_listener(alloc, number))?;
        }
    }
    Ok(listeners)
}

impl Crew {
    /// The worker of this number among so many, before the first entry, with a listener for each receiver that it serves.
    pub(crate) fn open(
        alloc: Global,
        schema: &Schema,
        start: &Start,
        receivers: &[ReceiverInfo],
        worker: u32,
        workers: u32,
    ) -> Result<Crew, NoMemory>
        requires worker { worker < workers }
        requires few { length receivers.now < 2 ^ 32 }
        ensures { IfOk result (IsCrewOf schema.now start.now receivers.now (numbers_of worker workers (length receivers.now)) [] first_run) }
    {
        Ok(Crew {
            worker: Worker::open(alloc, schema, start, receivers, worker, workers)?,
            listeners: open_listeners(alloc, worker, workers, receivers.len() as u32)?,
        })
    }

    /// Has the worker take the next entry, and its receivers all that it offers then.
    pub(crate) fn follow(
        &mut self,
        alloc: Global,
        schema: &Schema,
        entry: &Entry,
    ) -> Result<(), NoMemory>
        requires entry { MayFollow schema.now self.old.worker.state entry.now }
        requires position { self.old.worker.state.position < 2 ^ 63 }
        requires ready { IsReady schema.now self.old.worker self.old.listeners.items }
        ensures { OnOk result ((start : ℕ) (receivers : List Declared) (mine : List ℕ) (entries : List EntryThere) (run : Run)
            → IsCrewOf schema.now start receivers mine entries run self.old → IsCrewOn schema.now start receivers mine (entries ++ entry.now ∷ []) run self.new) }
    {
        serve_entry(alloc, schema, &mut self.worker, &mut self.listeners, entry)
    }
}

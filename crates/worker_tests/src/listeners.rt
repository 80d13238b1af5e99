//! A receiver that takes what an establishment and a patch make for it.
ghost use Rattle.std.specs.Prelude.{◌≡◌, ◌<◌, ◌^◌, ◌+◌, ◌∷◌, [], length, IfOk, OnOk};
ghost use Rattle.yp_journal.specs.History.{MayCome};
ghost use Rattle.yp_listeners.specs.Listeners.{IsReady};

use crate::common::{FULL, everything, port, ports, receiver, told};
use std::alloc::Global;
use std::marker::Brand;
use std::sync::ledger::{Blank, Ledger};
use std::test::Fail;
use yp_base::memory::NoMemory;
use yp_base::steps::Steps;
use yp_journal::command::Command;
use yp_journal::entry::Entry;
use yp_journal::laws::a_journal_goes_on_entry_by_entry;
use yp_journal::state::State;
use yp_listeners::listener::Listener;
use yp_listeners::serving::serve_entry;
use yp_queue::packet::PacketKind;
use yp_receiver::receiver::Receiver;
use yp_schema::schema::Schema;
use yp_time::start::Start;
use yp_worker::worker::Worker;

// A journal of which one worker follows each entry, and its listeners.
#[derive(Drop)]
struct Followed {
    state: State,
    worker: Worker,
    listeners: Vec<Listener>,
}

// The journal before the first entry, with the receiver noc, which took nothing.
fn open(alloc: Global, schema: &Schema, start: &Start) -> Result<Followed, NoMemory>
    ensures ready { IfOk result (λ followed. IsReady schema.now followed.worker followed.listeners.items) }
    ensures same { IfOk result (λ followed. followed.worker.state ≡ followed.state) }
    ensures one { IfOk result (λ followed. length followed.state.receivers ≡ 1) }
    ensures opening { IfOk result (λ followed. followed.state.position ≡ 0) }
{
    let receivers = [receiver(alloc, "noc", true)?];
    let worker = Worker::open(alloc, schema, start, &receivers, 0, 1)?;
    let mut listeners = Vec::new(alloc);
    listeners.push(Listener {
        receiver: 0,
        log: Vec::new(alloc),
        heard: Receiver::new(alloc),
    })?;
    Ok(Followed {
        state: State::new(alloc, schema, &receivers)?,
        worker,
        listeners,
    })
}

// Takes a command, and has the worker serve its entry.
fn follow(
    alloc: Global,
    schema: &Schema,
    followed: &mut Followed,
    command: Command,
) -> Result<(), NoMemory>
    requires command { MayCome schema.now followed.old.state.receivers command }
    requires position { followed.old.state.position < 2 ^ 63 }
    requires ready { IsReady schema.now followed.old.worker followed.old.listeners.items }
    requires same { followed.old.worker.state ≡ followed.old.state }
    ensures ready { OnOk result (IsReady schema.now followed.new.worker followed.new.listeners.items) }
    ensures same { OnOk result (followed.new.worker.state ≡ followed.new.state) }
    ensures receivers { OnOk result (followed.new.state.receivers ≡ followed.old.state.receivers) }
    ensures position { OnOk result (followed.new.state.position ≡ followed.old.state.position + 1) }
{
    a_journal_goes_on_entry_by_entry();
    let outcome = followed.state.accept(alloc, schema, &command)?;
    let entry = Entry {
        lane: 0,
        index: 0,
        stamp: outcome.stamp,
        command,
        reply: outcome.reply,
    };
    serve_entry(
        alloc,
        schema,
        &mut followed.worker,
        &mut followed.listeners,
        &entry,
    )
}

// How many rows are held of the subscription, where it had an update.
fn count(alloc: Global, receiver: &Receiver) -> Result<Option<usize>, NoMemory> {
    count_by::<Brand>(alloc, receiver, Blank::new(1))
}

// The same, with a ledger for the visits.
fn count_by<L: Ledger>(
    alloc: Global,
    receiver: &Receiver,
    blank: Blank,
) -> Result<Option<usize>, NoMemory>
    requires name { blank.name ≡ L.name }
    requires parts { blank.parts ≡ L.parts }
    requires some { 0 < L.parts }
{
    let mut steps = Steps::<L>::open(blank);
    match receiver.holding(2147483648) {
        Some(holding) => {
            let rows = holding.rows(alloc, &mut steps)?;
            Ok(Some(rows.len()))
        }
        None => Ok(None),
    }
}

// The receiver asks for everything.
fn establish(alloc: Global, schema: &Schema, followed: &mut Followed) -> Result<(), NoMemory>
    requires ready { IsReady schema.now followed.old.worker followed.old.listeners.items }
    requires same { followed.old.worker.state ≡ followed.old.state }
    requires one { length followed.old.state.receivers ≡ 1 }
    requires opening { followed.old.state.position ≡ 0 }
    ensures ready { OnOk result (IsReady schema.now followed.new.worker followed.new.listeners.items) }
    ensures same { OnOk result (followed.new.worker.state ≡ followed.new.state) }
    ensures position { OnOk result (followed.new.state.position ≡ 1) }
{
    let ask = everything(alloc)?;
    follow(alloc, schema, followed, Command::Establish { by: 0, ask })?;
    Ok(())
}

// A port is created.
fn create(alloc: Global, schema: &Schema, followed: &mut Followed) -> Result<(), Fail>
    requires ready { IsReady schema.now followed.old.worker followed.old.listeners.items }
    requires same { followed.old.worker.state ≡ followed.old.state }
    requires position { followed.old.state.position ≡ 1 }
{
    let patch = port(alloc)?;
    follow(alloc, schema, followed, Command::Edit(patch))?;
    Ok(())
}

// What receivers have after both.
fn served(alloc: Global, schema: &Schema, start: &Start) -> Result<Vec<Listener>, Fail> {
    let mut followed = open(alloc, schema, start)?;
    establish(alloc, schema, &mut followed)?;
    create(alloc, schema, &mut followed)?;
    let Followed { listeners, .. } = followed;
    Ok(listeners)
}

#[test]
fn a_receiver_takes_and_hears_all_that_is_offered(rt: HostRuntime) -> Result<(), Fail> {
    let alloc = rt.alloc();
    let schema = ports(alloc)?;
    let start = Start::read("2026-01-01T00:00:00Z")?;
    let listeners = served(alloc, &schema, &start)?;
    assert_eq!(rt; listeners.len(), 1);
    for listener in listeners.as_slice() {
        assert_eq!(rt; listener.log.len(), 2);
        assert_eq!(rt; told(listener.log.first()), (Some(PacketKind::Full), FULL));
        let (kind, _) = told(listener.log.last());
        assert_eq!(rt; kind, Some(PacketKind::Changes));
        assert_eq!(rt; count(alloc, &listener.heard)?, Some(2));
    }
    Ok(())
}

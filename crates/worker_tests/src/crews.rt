//! Two workers that serve three receivers what an establishment and a patch make for them.
ghost use Rattle.std.specs.Prelude.{◌≡◌, length, IfOk, OnOk};
ghost use Rattle.yp_crews.specs.Crews.{AreReady};

use crate::common::{FULL, everything, port, ports, receiver, told};
use std::alloc::Global;
use std::test::Fail;
use yp_base::memory::NoMemory;
use yp_crews::crew::Crew;
use yp_crews::crews::{open_crews, take_command};
use yp_journal::command::Command;
use yp_journal::state::State;
use yp_queue::packet::PacketKind;
use yp_schema::schema::Schema;
use yp_time::start::Start;

// The change update that tells of the port.
const CHANGES: &str =
    r#"{"ietf-restconf:notification":{"eventTime":"2026-01-01T00:00:00.00Z","ietf-yang-push:push-change-update":{"datastore-changes":{"yang-patch":{"edit":[{"edit-id":"1","operation":"create","target":"/acme:port=eth0","value":{"acme:port":[{"mtu":1500,"name":"eth0"}]}}],"patch-id":"2"}},"id":2147483648}}}"#;

// A journal, by its state, and the workers that follow it.
#[derive(Drop)]
struct Journal {
    state: State,
    crews: Vec<Crew>,
}

// The journal before the first entry, with three receivers and two workers.
fn open(alloc: Global, schema: &Schema, start: &Start) -> Result<Journal, NoMemory>
    ensures ready { IfOk result (λ journal. AreReady schema.now journal.state journal.crews.items) }
    ensures three { IfOk result (λ journal. length journal.state.receivers ≡ 3) }
    ensures opening { IfOk result (λ journal. journal.state.position ≡ 0) }
{
    let receivers = [
        receiver(alloc, "noc", true)?,
        receiver(alloc, "lab", true)?,
        receiver(alloc, "ops", true)?,
    ];
    Ok(Journal {
        state: State::new(alloc, schema, &receivers)?,
        crews: open_crews(alloc, schema, start, &receivers, 2)?,
    })
}

// The second receiver asks for everything.
fn establish(alloc: Global, schema: &Schema, journal: &mut Journal) -> Result<(), NoMemory>
    requires ready { AreReady schema.now journal.old.state journal.old.crews.items }
    requires three { length journal.old.state.receivers ≡ 3 }
    requires opening { journal.old.state.position ≡ 0 }
    ensures ready { OnOk result (AreReady schema.now journal.new.state journal.new.crews.items) }
    ensures position { OnOk result (journal.new.state.position ≡ 1) }
{
    let ask = everything(alloc)?;
    let command = Command::Establish { by: 1, ask };
    let (state, crews) = (&mut journal.state, &mut journal.crews);
    take_command(alloc, schema, state, crews, 0, 0, command)?;
    Ok(())
}

// A port is created.
fn create(alloc: Global, schema: &Schema, journal: &mut Journal) -> Result<(), Fail>
    requires ready { AreReady schema.now journal.old.state journal.old.crews.items }
    requires position { journal.old.state.position ≡ 1 }
{
    let command = Command::Edit(port(alloc)?);
    let (state, crews) = (&mut journal.state, &mut journal.crews);
    take_command(alloc, schema, state, crews, 0, 0, command)?;
    Ok(())
}

// What the workers have after both.
fn served(alloc: Global, schema: &Schema, start: &Start) -> Result<Vec<Crew>, Fail> {
    let mut journal = open(alloc, schema, start)?;
    establish(alloc, schema, &mut journal)?;
    create(alloc, schema, &mut journal)?;
    let Journal { crews, .. } = journal;
    Ok(crews)
}

#[test]
fn each_worker_serves_the_receivers_of_its_remainder(rt: HostRuntime) -> Result<(), Fail> {
    let alloc = rt.alloc();
    let schema = ports(alloc)?;
    let start = Start::read("2026-01-01T00:00:00Z")?;
    let crews = served(alloc, &schema, &start)?;
    let mut numbers = Vec::new(alloc);
    for crew in crews.as_slice() {
        for listener in crew.listeners.as_slice() {
            numbers.push(listener.receiver)?;
            if listener.receiver == 1 {
                assert_eq!(rt; listener.log.len(), 2);
                assert_eq!(rt; told(listener.log.first()), (Some(PacketKind::Full), FULL));
                assert_eq!(rt;
                    told(listener.log.last()),
                    (Some(PacketKind::Changes), CHANGES)
                );
            } else {
                assert_eq!(rt; listener.log.len(), 0);
            }
        }
    }
    assert_eq!(rt; numbers.as_slice(), [0u32, 2, 1].as_slice());
    Ok(())
}

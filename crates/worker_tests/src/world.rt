//! A queue of one place over two entries.
use crate::common::{FULL, everything, port, ports, receiver};
use std::test::Fail;
use yp_core::event::{Event, Happened};
use yp_core::world::World;
use yp_journal::command::Command;
use yp_time::start::Start;

// What happened, with the position or the text.
fn told(happened: &Happened) -> (&str, u64, &str) {
    match happened {
        Happened::Appended(_) => ("appended", 0, ""),
        Happened::Absorbed(position) => ("absorbed", *position, ""),
        Happened::Took { position, .. } => ("took", *position, ""),
        Happened::Full { position, .. } => ("full", *position, ""),
        Happened::Taken(packet) => ("taken", packet.position, packet.line.as_str()),
        Happened::Nothing => ("nothing", 0, ""),
    }
}

#[test]
fn a_full_queue_keeps_what_was_accepted(rt: HostRuntime) -> Result<(), Fail> {
    let alloc = rt.alloc();
    let schema = ports(alloc)?;
    let start = Start::read("2026-01-01T00:00:00Z")?;
    let receivers = [receiver(alloc, "noc", false)?];
    let mut world = World::new(alloc, &schema, &start, &receivers, 1)?;
    let ask = everything(alloc)?;
    let establish = Event::Append(Command::Establish { by: 0, ask });
    let happened = world.step(alloc, &schema, establish)?;
    assert_eq!(rt; told(&happened), ("appended", 0, ""));
    let happened = world.step(alloc, &schema, Event::Absorb(0))?;
    assert_eq!(rt; told(&happened), ("absorbed", 1, ""));
    let happened = world.step(alloc, &schema, Event::Offer(0))?;
    assert_eq!(rt; told(&happened), ("took", 1, ""));
    let happened = world.step(alloc, &schema, Event::Append(Command::Edit(port(alloc)?)))?;
    assert_eq!(rt; told(&happened), ("appended", 0, ""));
    let happened = world.step(alloc, &schema, Event::Absorb(0))?;
    assert_eq!(rt; told(&happened), ("absorbed", 2, ""));
    let happened = world.step(alloc, &schema, Event::Offer(0))?;
    assert_eq!(rt; told(&happened), ("full", 2, ""));
    let happened = world.step(alloc, &schema, Event::Take(0))?;
    assert_eq!(rt; told(&happened), ("taken", 1, FULL));
    let happened = world.step(alloc, &schema, Event::Take(0))?;
    assert_eq!(rt; told(&happened), ("nothing", 0, ""));
    assert_eq!(rt; world.taken(0).len(), 1);
    Ok(())
}

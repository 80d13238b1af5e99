//! A queue from empty to full and back.
use crate::local::LocalQueue;
use crate::packet::{Offered, Packet, PacketKind};
use std::alloc::Global;
use std::test::Fail;
use yp_base::memory::{Duplicate, NoMemory};
use yp_base::txt::text_of;

// A packet that was made at this position.
fn packet(alloc: Global, position: u64) -> Result<Packet, NoMemory> {
    Ok(Packet {
        sub: 2_147_483_648,
        position,
        kind: PacketKind::Changes,
        line: text_of(alloc, "{}")?,
    })
}

// The position of what is taken.
fn taken(queue: &mut LocalQueue) -> Option<u64> {
    queue.take().map(|packet| packet.position)
}

// The position of what is given back.
fn given_back(offered: Offered) -> Option<u64> {
    match offered {
        Offered::Took => None,
        Offered::Full(packet) => Some(packet.position),
    }
}

#[test]
fn a_full_queue_gives_the_packet_back(rt: HostRuntime) -> Result<(), Fail> {
    let alloc = rt.alloc();
    let mut queue = LocalQueue::with_places(alloc, 1)?;
    assert_eq!(rt; given_back(queue.offer(packet(alloc, 1)?)), None);
    assert_eq!(rt; given_back(queue.offer(packet(alloc, 2)?)), Some(2));
    assert_eq!(rt; taken(&mut queue), Some(1));
    assert_eq!(rt; taken(&mut queue), None);
    assert_eq!(rt; given_back(queue.offer(packet(alloc, 3)?)), None);
    assert_eq!(rt; taken(&mut queue), Some(3));
    Ok(())
}

#[test]
fn the_oldest_packet_is_taken_first(rt: HostRuntime) -> Result<(), Fail> {
    let alloc = rt.alloc();
    let mut queue = LocalQueue::with_places(alloc, 32)?;
    for position in 1..=33 {
        let back = given_back(queue.offer(packet(alloc, position)?));
        assert_eq!(rt; back.is_some(), position == 33);
    }
    for position in 1..=32 {
        assert_eq!(rt; taken(&mut queue), Some(position));
    }
    assert_eq!(rt; taken(&mut queue), None);
    Ok(())
}

#[test]
fn a_copy_has_the_same_line(rt: HostRuntime) -> Result<(), Fail> {
    let alloc = rt.alloc();
    let copy = packet(alloc, 7)?.copy(alloc)?;
    assert!(rt;
        copy.line.as_str() == "{}" && copy.position == 7 && copy.kind == PacketKind::Changes
    );
    Ok(())
}

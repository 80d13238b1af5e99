//! A queue between two threads, from its making to its end.
ghost use Rattle.std.specs.Thread.{IsSync};

use crate::drained::drain;
use crate::passes::{SendPass, TakePass, shared};
use std::alloc::Global;
use std::sync::Wait;
use std::test::Fail;
use std::thread::{self, Threads};
use yp_base::memory::NoMemory;
use yp_base::txt::text_of;
use yp_queue::packet::{Offered, Packet, PacketKind};

// A packet that was made at this position.
fn packet(alloc: Global, position: u64) -> Result<Packet, NoMemory> {
    Ok(Packet {
        sub: 2_147_483_648,
        position,
        kind: PacketKind::Changes,
        line: text_of(alloc, "{}")?,
    })
}

// The position of what is given back.
fn given_back(offered: Offered) -> Option<u64> {
    match offered {
        Offered::Took => None,
        Offered::Full(packet) => Some(packet.position),
    }
}

#[test]
fn what_is_taken_and_what_is_left_were_sent(rt: HostRuntime) -> Result<(), Fail> {
    let alloc = rt.alloc();
    let (mut send, mut take) = shared(alloc, 2)?;
    assert_eq!(rt; send.places(), 2);
    assert!(rt; take.take(&rt).is_none());
    assert_eq!(rt; given_back(send.offer(&rt, packet(alloc, 1)?)), None);
    assert_eq!(rt; given_back(send.offer(&rt, packet(alloc, 2)?)), None);
    assert_eq!(rt; given_back(send.offer(&rt, packet(alloc, 3)?)), Some(3));
    assert_eq!(rt; take.take(&rt).map(|packet| packet.position), Some(1));
    assert_eq!(rt; given_back(send.offer(&rt, packet(alloc, 4)?)), None);
    let drained = drain(&rt, alloc, send, take).map_err(|_| NoMemory)?;
    let left = drained.packets();
    assert_eq!(rt; left.len(), 2);
    assert_eq!(rt; (left[0].position, left[1].position), (2, 4));
    assert_eq!(rt; drained.refused(), 1);
    Ok(())
}

// Offers a packet until the queue has a place for it.
fn offer_on<R: Wait>(rt: &R, send: &mut SendPass, packet: Packet) {
    let mut packet = packet;
    for _ in rt.forever() {
        match send.offer(rt, packet) {
            Offered::Took => return,
            Offered::Full(back) => packet = back,
        }
        thread::yield_now();
    }
}

// Sends so many packets, and says whether there was memory for each.
fn sent_all<R: Wait>(rt: &R, alloc: Global, send: SendPass, count: u64) -> (SendPass, bool) {
    let mut send = send;
    for position in 0..count {
        match packet(alloc, position) {
            Ok(packet) => offer_on(rt, &mut send, packet),
            Err(_) => return (send, false),
        }
    }
    (send, true)
}

// The position of the next packet.
fn next<R: Wait>(rt: &R, take: &mut TakePass) -> u64 {
    for _ in rt.forever() {
        if let Some(packet) = take.take(rt) {
            return packet.position;
        }
        thread::yield_now();
    }
    unreachable!()
}

// Takes so many packets, and says whether they came in order.
fn took_all<R: Wait>(rt: &R, take: TakePass, count: u64) -> (TakePass, bool) {
    let mut take = take;
    for position in 0..count {
        if next(rt, &mut take) != position {
            return (take, false);
        }
    }
    (take, true)
}

// One thread sends so many packets, and another takes them.
fn beside<T: Threads + Wait + Sync>(
    rt: &T,
    alloc: Global,
    send: SendPass,
    take: TakePass,
    count: u64,
) -> ((SendPass, bool), (TakePass, bool)) {
    thread::join(
        rt,
        move || -> (SendPass, bool)
            requires { IsSync T.row }
        { sent_all(rt, alloc, send, count) },
        move || -> (TakePass, bool)
            requires { IsSync T.row }
        { took_all(rt, take, count) },
    )
}

#[test]
fn what_one_thread_sends_another_takes(rt: HostRuntime) -> Result<(), Fail> {
    let alloc = rt.alloc();
    let (send, take) = shared(alloc, 1_000)?;
    let ((send, whole), (take, in_order)) = beside(&rt, alloc, send, take, 1_000);
    assert!(rt; whole && in_order);
    assert_eq!(rt; send.places(), 1_000);
    drop(send);
    drop(take);
    Ok(())
}

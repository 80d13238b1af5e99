//! Jobs of threads that become crews again.
ghost use Rattle.std.specs.Prelude.{◌≡◌, ◌∷◌, [], length, map, true, IfOk, OnOk};
ghost use Rattle.std.specs.List.{AllByRecursion};
ghost use Rattle.yp_receiver.specs.Held.{lines_heard};
ghost use Rattle.yp_handover.specs.Handover.{HasHeardAll, IsMadeOf, IsOfOneQueue, IsTakenOut, Pairs, Triples};

use crate::group::Group;
use std::alloc::Global;
use std::sync::Wait;
use yp_base::memory::NoMemory;
use yp_crews::crew::Crew;
use yp_followers::follower::FollowerJob;
use yp_followers::outbox::Outbox;
use yp_listeners::listener::Listener;
use yp_published::history::Naming;
use yp_published::reader::LogReader;
use yp_queue::packet::Packet;
use yp_queue_share::drained::drain;
use yp_receiver::receiver::Receiver;
use yp_schema::schema::Schema;
use yp_takers::taker::TakerJob;
use yp_worker::worker::Worker;

/// A worker that followed the journal to its end, and its outboxes.
#[derive(Drop)]
pub struct Followed {
    pub worker: Worker,
    pub outboxes: Vec<Outbox>,
}

/// The readers of workers that followed the journal to its end, and the workers with their outboxes.
#[derive(Drop)]
pub struct Parted<J: Naming> {
    pub readers: Vec<LogReader<J>>,
    pub followed: Vec<Followed>,
}

/// Takes the jobs of workers apart. An error says that one is not whole, or that memory ran out.
pub fn take_out<J: Naming>(
    alloc: Global,
    followers: Vec<FollowerJob<J>>,
) -> Result<Parted<J>, NoMemory>
    ensures { IfOk result (λ parted. Triples IsTakenOut (map (λ job. record { reader = job.reader; worker = job.worker; boxes = job.outboxes.items; whole = job.whole }) followers.items) parted.readers.items parted.followed.items) }
{
    let mut readers = Vec::with_capacity(alloc, followers.len())?;
    let mut followed = Vec::with_capacity(alloc, followers.len())?;
    for follower in followers {
        let FollowerJob {
            reader,
            worker,
            outboxes,
            whole,
        } = follower;
        if !whole {
            return Err(NoMemory);
        }
        readers.push(reader)?;
        followed.push(Followed { worker, outboxes })?;
    }
    Ok(Parted { readers, followed })
}

/// Whether all receivers of a worker are whole.
fn is_whole(group: &Group) -> bool
    ensures { result ≡ true → AllByRecursion (λ taker. taker.whole ≡ true) group.now.takers.items }
{
    for taker in group.takers.as_slice() {
        if !taker.whole {
            return false;
        }
    }
    true
}

/// Whether all receivers of workers are whole: each took and heard all that was sent before its worker had ended.
pub fn are_whole(groups: &[Group]) -> bool
    ensures { result ≡ true → AllByRecursion (λ group. AllByRecursion (λ taker. taker.whole ≡ true) group.takers.items) groups.now }
{
    for group in groups {
        if !is_whole(group) {
            return false;
        }
    }
    true
}

/// Hears the line of a packet.
fn hear(
    alloc: Global,
    schema: &Schema,
    packet: &Packet,
    heard: &mut Receiver,
) -> Result<(), NoMemory>
    ensures { OnOk result (heard.new ≡ lines_heard schema.now heard.old (packet.now.line ∷ [])) }
{
    // What a worker sends is a line that can be heard, so that nothing but memory can be lacking.
    let told = heard.take_line(alloc, schema, packet.line.as_str().as_bytes());
    match told {
        Ok(()) => Ok(()),
        Err(_) => Err(NoMemory),
    }
}

/// Hears the lines of packets.
fn hear_all(
    alloc: Global,
    schema: &Schema,
    packets: &[Packet],
    heard: &mut Receiver,
) -> Result<(), NoMemory>
    ensures { OnOk result (heard.new ≡ lines_heard schema.now heard.old (map (λ packet. packet.line) packets.now)) }
{
    for packet in packets {
        hear(alloc, schema, packet, heard)?;
    }
    Ok(())
}

/// The receiver of an outbox, which hears what its job left in the queue, too.
fn listener_of<W: Wait>(
    rt: &W,
    alloc: Global,
    schema: &Schema,
    outbox: Outbox,
    taker: TakerJob,
) -> Result<Listener, NoMemory>
    requires { IsOfOneQueue outbox taker }
    ensures { IfOk result (HasHeardAll schema.now outbox taker) }
{
    let Outbox {
        receiver,
        send,
        log,
    } = outbox;
    let TakerJob {
        receiver: _,
        worker: _,
        take,
        taken: _,
        mut heard,
        whole: _,
    } = taker;
    match drain(rt, alloc, send, take) {
        Ok(drained) => {
            hear_all(alloc, schema, drained.packets(), &mut heard)?;
            Ok(Listener {
                receiver,
                log,
                heard,
            })
        }
        Err(_) => Err(NoMemory),
    }
}

/// The receivers of outboxes.
fn listeners_of<W: Wait>(
    rt: &W,
    alloc: Global,
    schema: &Schema,
    outboxes: Vec<Outbox>,
    takers: Vec<TakerJob>,
) -> Result<Vec<Listener>, NoMemory>
    requires { Pairs IsOfOneQueue outboxes.items takers.items }
    ensures { IfOk result (λ listeners. Triples (HasHeardAll schema.now) outboxes.items takers.items listeners.items) }
{
    let mut listeners = Vec::with_capacity(alloc, outboxes.len())?;
    let mut takers = takers.into_iter();
    for outbox in outboxes {
        match takers.next() {
            Some(taker) => {
                listeners.push(listener_of(rt, alloc, schema, outbox, taker)?)?;
            }
            None => return Err(NoMemory),
        }
    }
    Ok(listeners)
}

/// The crew of a worker and of the jobs of its receivers.
fn crew_of<W: Wait>(
    rt: &W,
    alloc: Global,
    schema: &Schema,
    followed: Followed,
    group: Group,
) -> Result<Crew, NoMemory>
    requires { Pairs IsOfOneQueue followed.outboxes.items group.takers.items }
    ensures { IfOk result (IsMadeOf schema.now followed group) }
{
    let Followed { worker, outboxes } = followed;
    let Group { takers } = group;
    let listeners = listeners_of(rt, alloc, schema, outboxes, takers)?;
    Ok(Crew { worker, listeners })
}

/// The crews of workers and of the jobs of their receivers. Each receiver hears what is left in its queue. An error says
/// that memory ran out.
pub fn crews_of<W: Wait>(
    rt: &W,
    alloc: Global,
    schema: &Schema,
    followed: Vec<Followed>,
    groups: Vec<Group>,
) -> Result<Vec<Crew>, NoMemory>
    requires { Pairs (λ one group. Pairs IsOfOneQueue one.outboxes.items group.takers.items) followed.items groups.items }
    ensures { IfOk result (λ crews. Triples (IsMadeOf schema.now) followed.items groups.items crews.items) }
{
    let mut crews = Vec::with_capacity(alloc, followed.len())?;
    let mut groups = groups.into_iter();
    for one in followed {
        match groups.next() {
            Some(group) => crews.push(crew_of(rt, alloc, schema, one, group)?)?,
            None => return Err(NoMemory),
        }
    }
    Ok(crews)
}

//! Crews that become jobs of threads.
ghost use Rattle.std.specs.Prelude.{◌≡◌, ◌<◌, ◌≤◌, ℕ, length, map, All, IfOk, IfSome, Some};
ghost use Rattle.std.specs.List.{slice_get};
ghost use Rattle.yp_journal.specs.declared.receiver.ReceiverInfo.{ReceiverInfo as Declared};
ghost use Rattle.yp_published.specs.Reads.{fresh_reading};
ghost use Rattle.yp_handover.specs.Handover.{AreJobsOf, AreSidesOf, Triples};

use crate::group::Group;
use std::alloc::Global;
use yp_base::memory::NoMemory;
use yp_crews::crew::Crew;
use yp_followers::follower::FollowerJob;
use yp_followers::outbox::Outbox;
use yp_journal::receiver::ReceiverInfo;
use yp_listeners::listener::Listener;
use yp_published::history::Naming;
use yp_published::reader::LogReader;
use yp_queue_share::passes::shared;
use yp_takers::taker::TakerJob;

/// The jobs of workers, and of the receivers of each.
#[derive(Drop)]
pub struct Jobs<J: Naming> {
    pub followers: Vec<FollowerJob<J>>,
    pub groups: Vec<Group>,
}

/// The outboxes of a worker, and the jobs of its receivers.
#[derive(Drop)]
struct Sides {
    outboxes: Vec<Outbox>,
    takers: Vec<TakerJob>,
}

/// How many places the queue of a receiver has; `None` where it isn't declared, or its queue has none.
fn places_of(receivers: &[ReceiverInfo], receiver: u32) -> Option<u32>
    ensures some { IfSome result (λ places. 1 ≤ places) }
    ensures its { IfSome result (λ places. (info : Declared) → slice_get receivers.now receiver ≡ Some info → places ≡ info.places) }
{
    match receivers.get(receiver as usize) {
        Some(info) => {
            if info.places > 0 {
                Some(info.places)
            } else {
                None
            }
        }
        None => None,
    }
}

/// The two sides of a new queue, in place of a listener. The worker has this number among those of threads.
fn sides_of(
    alloc: Global,
    receivers: &[ReceiverInfo],
    worker: usize,
    listener: Listener,
) -> Result<(Outbox, TakerJob), NoMemory>
    ensures { IfOk result (λ sides. (workers : ℕ) → worker < workers → AreSidesOf receivers.now workers listener sides.0 sides.1) }
{
    let Listener {
        receiver,
        log,
        heard,
    } = listener;
    // That a listener's receiver is declared, with a queue, no contract says, so where it is not, this gives up as for want
    // of memory.
    let places = match places_of(receivers, receiver) {
        Some(places) => places,
        None => return Err(NoMemory),
    };
    let (send, take) = shared(alloc, places)?;
    let outbox = Outbox {
        receiver,
        send,
        log,
    };
    let taker = TakerJob {
        receiver,
        worker,
        take,
        taken: Vec::new(alloc),
        heard,
        whole: false,
    };
    Ok((outbox, taker))
}

/// The sides of new queues, in place of listeners.
fn all_sides(
    alloc: Global,
    receivers: &[ReceiverInfo],
    worker: usize,
    listeners: Vec<Listener>,
) -> Result<Sides, NoMemory>
    ensures { IfOk result (λ sides. (workers : ℕ) → worker < workers → Triples (AreSidesOf receivers.now workers) listeners.items sides.outboxes.items sides.takers.items) }
{
    let mut outboxes = Vec::with_capacity(alloc, listeners.len())?;
    let mut takers = Vec::with_capacity(alloc, listeners.len())?;
    for listener in listeners {
        let (outbox, taker) = sides_of(alloc, receivers, worker, listener)?;
        outboxes.push(outbox)?;
        takers.push(taker)?;
    }
    Ok(Sides { outboxes, takers })
}

/// The jobs of a crew, whose worker has this number among those of threads.
fn jobs_of<J: Naming>(
    alloc: Global,
    receivers: &[ReceiverInfo],
    worker: usize,
    reader: LogReader<J>,
    crew: Crew,
) -> Result<(FollowerJob<J>, Group), NoMemory>
    requires { reader ≡ fresh_reading }
    ensures { IfOk result (λ jobs. (workers : ℕ) → worker < workers → AreJobsOf receivers.now workers crew (record { reader = jobs.0.reader; worker = jobs.0.worker; boxes = jobs.0.outboxes.items; whole = jobs.0.whole }) jobs.1) }
{
    let Crew {
        worker: follows,
        listeners,
    } = crew;
    let Sides { outboxes, takers } = all_sides(alloc, receivers, worker, listeners)?;
    let follower = FollowerJob {
        reader,
        worker: follows,
        outboxes,
        whole: false,
    };
    Ok((follower, Group { takers }))
}

/// Hands crews over to threads: a job for each worker, with a reader of the shared journal, and one for each of its
/// receivers, with a queue between them. An error says that memory ran out, or that there are fewer readers than crews.
pub fn hand_over<J: Naming>(
    alloc: Global,
    receivers: &[ReceiverInfo],
    readers: Vec<LogReader<J>>,
    crews: Vec<Crew>,
) -> Result<Jobs<J>, NoMemory>
    requires { All (λ reader. reader ≡ fresh_reading) readers.items }
    ensures { IfOk result (λ jobs. Triples (AreJobsOf receivers.now (length crews.items)) crews.items
        (map (λ job. record { reader = job.reader; worker = job.worker; boxes = job.outboxes.items; whole = job.whole }) jobs.followers.items) jobs.groups.items) }
{
    let mut readers = readers;
    let mut followers = Vec::with_capacity(alloc, crews.len())?;
    let mut groups = Vec::with_capacity(alloc, crews.len())?;
    for crew in crews {
        let reader = match readers.pop() {
            Some(reader) => reader,
            None => return Err(NoMemory),
        };
        let (follower, group) = jobs_of(alloc, receivers, followers.len(), reader, crew)?;
        followers.push(follower)?;
        groups.push(group)?;
    }
    Ok(Jobs { followers, groups })
}

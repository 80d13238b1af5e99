//! Receivers that take beside each other.
ghost use Rattle.std.specs.Prelude.{◌≡◌, ℕ, ◌<◌, length, All, is_ok, slice_index_or};
ghost use Rattle.yp_takers.specs.Takers.{HasTakenOn};

use std::alloc::Global;
use std::sync::Wait;
use std::sync::atomic::{AtomicBool, Ordering};
use std::thread::{self, Threads};
use yp_base::memory::NoMemory;
use yp_gate::{Gate, Moment};
use yp_queue::packet::Packet;
use yp_queue_share::passes::TakePass;
use yp_receiver::receiver::Receiver;
use yp_schema::schema::Schema;

/// A receiver that takes: its number, the number of the worker that sends to it, the side of its queue that takes, the
/// packets that it took, in order, what it holds, and whether it took and heard all that was sent before its worker had
/// ended.
#[derive(Drop)]
pub struct TakerJob {
    pub receiver: u32,
    pub worker: usize,
    pub take: TakePass,
    pub taken: Vec<Packet>,
    pub heard: Receiver,
    pub whole: bool,
}

/// Takes a packet, keeps it and hears its line; says whether there was one.
fn take_one<R: Wait>(
    rt: &R,
    alloc: Global,
    schema: &Schema,
    job: &mut TakerJob,
) -> Result<bool, NoMemory>
    requires kept { job.old.taken.items ≡ job.old.take.taken }
    ensures { HasTakenOn schema.now job.old (record job.new { whole = is_ok result }) }
{
    job.taken.reserve(1)?;
    let packet = match job.take.take(rt) {
        Some(packet) => packet,
        None => return Ok(false),
    };
    let bytes = packet.line.as_str().as_bytes();
    let told = job.heard.take_line(alloc, schema, bytes);
    job.taken.push_reserved(packet);
    match told {
        Ok(()) => Ok(true),
        Err(_) => Err(NoMemory),
    }
}

/// Takes packets until the one that sends them has ended and none is left. Says whether it took and heard all of these.
fn take_on<R: Wait, G: Gate>(
    rt: &R,
    alloc: Global,
    schema: &Schema,
    gate: &G,
    ended: &AtomicBool,
    job: &mut TakerJob,
) -> bool
    requires kept { job.old.taken.items ≡ job.old.take.taken }
    ensures { HasTakenOn schema.now job.old (record job.new { whole = result }) }
{
    for _ in rt.forever() {
        let last = ended.load(Ordering::SeqCst);
        match take_one(rt, alloc, schema, job) {
            Ok(true) => {
                let receiver = job.receiver;
                let count = job.taken.len() as u64;
                gate.at(Moment::Taken { receiver, count });
            }
            Ok(false) => {
                if last {
                    return true;
                }
                thread::yield_now();
            }
            Err(_) => return false,
        }
    }
    unreachable!()
}

/// Runs a receiver.
fn run_taker<R: Wait, G: Gate>(
    rt: &R,
    alloc: Global,
    schema: &Schema,
    gate: &G,
    ended: &[AtomicBool],
    job: &mut TakerJob,
)
    requires worker { job.old.worker < length ended.now }
    requires kept { job.old.taken.items ≡ job.old.take.taken }
    ensures { HasTakenOn schema.now job.old job.new }
{
    let worker = job.worker;
    job.whole = take_on(rt, alloc, schema, gate, &ended[worker], job);
}

/// Runs receivers beside each other, each by a thread of its own where there is one, and else one after another, until the
/// worker of each has ended (`ended`, by its number) and its queue is empty. A receiver goes on from what it holds.
pub fn run_takers<T: Threads + Wait + Sync, G: Gate>(
    rt: &T,
    alloc: Global,
    schema: &Schema,
    gate: &G,
    ended: &[AtomicBool],
    jobs: &mut [TakerJob],
)
    requires workers { All (λ job. job.worker < length ended.now) jobs.old }
    requires kept { All (λ job. job.taken.items ≡ job.take.taken) jobs.old }
    ensures { (place : ℕ) (none : _) → place < length jobs.old → HasTakenOn schema.now (slice_index_or jobs.old place none) (slice_index_or jobs.new place none) }
{
    let threads = jobs.len();
    if threads > 0 {
        thread::for_each_mut(
            rt,
            jobs,
            threads,
            &|_, job: &mut TakerJob|
                requires worker { job.now.worker < length ended.now }
                requires kept { job.now.taken.items ≡ job.now.take.taken }
                ensures { HasTakenOn schema.entry.now job.entry.now job.exit.now }
            { run_taker(rt, alloc, schema, gate, ended, job) },
        );
    }
}

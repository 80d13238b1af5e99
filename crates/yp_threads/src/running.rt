//! Lanes, workers and receivers beside each other.
ghost use Rattle.std.specs.Prelude.{◌≡◌, ℕ, ◌<◌, length, map, All, IfOk, slice_index_or};
ghost use Rattle.std.specs.List.{AllByRecursion};
ghost use Rattle.std.specs.Thread.{IsSend, IsSync};
ghost use Rattle.yp_handover.specs.Handover.{HaveTaken, IsFollowedBy, IsReadyToFollow, Pairs};
ghost use Rattle.yp_takers.specs.Takers.{HasTakenOn};
ghost use Rattle.yp_threads.specs.Beside.{AreKeeping, AreOfWorkers, AreToWrite, HaveAll};

use crate::lanes::write_beside;
use std::alloc::Global;
use std::sync::Wait;
use std::sync::atomic::AtomicBool;
use std::thread::{self, Threads, join};
use yp_base::memory::NoMemory;
use yp_followers::follower::{FollowerJob, run_followers};
use yp_gate::Gate;
use yp_handover::closing::are_whole;
use yp_handover::group::Group;
use yp_handover::handing::Jobs;
use yp_lanes::lane::LaneJob;
use yp_log_share::finished::Finished;
use yp_log_share::log::SharedLog;
use yp_published::history::Naming;
use yp_schema::schema::Schema;
use yp_takers::taker::run_takers;

/// What lanes, workers and receivers came to.
#[derive(Drop)]
pub struct Ran<J: Naming> {
    pub finished: Finished<J>,
    pub followers: Vec<FollowerJob<J>>,
    pub groups: Vec<Group>,
}

/// Runs the receivers of a worker.
fn take_for<T: Threads + Wait + Sync, G: Gate>(
    rt: &T,
    alloc: Global,
    schema: &Schema,
    gate: &G,
    ended: &[AtomicBool],
    group: &mut Group,
)
    requires workers { AreOfWorkers (length ended.now) group.old }
    requires kept { AreKeeping group.old }
    ensures { Pairs (HasTakenOn schema.now) group.old.takers.items group.new.takers.items }
{
    run_takers(rt, alloc, schema, gate, ended, group.takers.as_mut_slice());
}

/// Runs the receivers of workers beside each other.
fn take_groups<T: Threads + Wait + Sync, G: Gate>(
    rt: &T,
    alloc: Global,
    schema: &Schema,
    gate: &G,
    ended: &[AtomicBool],
    groups: &mut [Group],
)
    requires workers { All (AreOfWorkers (length ended.now)) groups.old }
    requires kept { All AreKeeping groups.old }
    ensures { (place : ℕ) (none : _) → place < length groups.old → Pairs (HasTakenOn schema.now) (slice_index_or groups.old place none).takers.items (slice_index_or groups.new place none).takers.items }
{
    let threads = groups.len();
    if threads > 0 {
        thread::for_each_mut(
            rt,
            groups,
            threads,
            &|_, group: &mut Group|
                requires sync { IsSync T.row }
                requires workers { AreOfWorkers (length ended.now) group.now }
                requires kept { AreKeeping group.now }
                ensures { Pairs (HasTakenOn schema.entry.now) group.entry.now.takers.items group.exit.now.takers.items }
            { take_for(rt, alloc, schema, gate, ended, group) },
        );
    }
}

/// Runs the receivers of workers beside each other, and gives them back.
fn take_beside<T: Threads + Wait + Sync, G: Gate>(
    rt: &T,
    alloc: Global,
    schema: &Schema,
    gate: &G,
    ended: &[AtomicBool],
    groups: Vec<Group>,
) -> Vec<Group>
    requires workers { All (AreOfWorkers (length ended.now)) groups.items }
    requires kept { All AreKeeping groups.items }
    ensures { Pairs (λ before after. Pairs (HasTakenOn schema.now) before.takers.items after.takers.items) groups.items result.items }
{
    let mut groups = groups;
    take_groups(rt, alloc, schema, gate, ended, groups.as_mut_slice());
    groups
}

/// Runs workers beside each other, and gives them back.
fn follow_beside<J: Naming + Send + Sync, T: Threads + Wait + Sync>(
    rt: &T,
    alloc: Global,
    schema: &Schema,
    stopped: &AtomicBool,
    ended: &[AtomicBool],
    followers: Vec<FollowerJob<J>>,
) -> Vec<FollowerJob<J>>
    requires schema { schema.now ≡ J.nodes }
    requires flags { length ended.now ≡ length followers.items }
    requires ready { AllByRecursion (IsReadyToFollow J.nodes J.opening) (map (λ job. record { reader = job.reader; worker = job.worker; boxes = job.outboxes.items; whole = job.whole }) followers.items) }
    ensures { Pairs (IsFollowedBy J.nodes J.opening) (map (λ job. record { reader = job.reader; worker = job.worker; boxes = job.outboxes.items; whole = job.whole }) followers.items) (map (λ job. record { reader = job.reader; worker = job.worker; boxes = job.outboxes.items; whole = job.whole }) result.items) }
{
    let mut followers = followers;
    run_followers(rt, alloc, schema, stopped, ended, followers.as_mut_slice());
    followers
}

/// Runs workers and receivers beside each other.
fn serve_beside<J: Naming + Send + Sync, T: Threads + Wait + Sync, G: Gate>(
    rt: &T,
    alloc: Global,
    schema: &Schema,
    gate: &G,
    stopped: &AtomicBool,
    ended: &[AtomicBool],
    jobs: Jobs<J>,
) -> Jobs<J>
    requires schema { schema.now ≡ J.nodes }
    requires flags { length ended.now ≡ length jobs.followers.items }
    requires ready { AllByRecursion (IsReadyToFollow J.nodes J.opening) (map (λ job. record { reader = job.reader; worker = job.worker; boxes = job.outboxes.items; whole = job.whole }) jobs.followers.items) }
    requires workers { All (AreOfWorkers (length jobs.followers.items)) jobs.groups.items }
    requires kept { All AreKeeping jobs.groups.items }
    ensures follows { Pairs (IsFollowedBy J.nodes J.opening) (map (λ job. record { reader = job.reader; worker = job.worker; boxes = job.outboxes.items; whole = job.whole }) jobs.followers.items) (map (λ job. record { reader = job.reader; worker = job.worker; boxes = job.outboxes.items; whole = job.whole }) result.followers.items) }
    ensures takes { Pairs (λ before after. Pairs (HasTakenOn schema.now) before.takers.items after.takers.items) jobs.groups.items result.groups.items }
{
    let Jobs { followers, groups } = jobs;
    let (groups, followers) = join(
        rt,
        move || -> Vec<Group>
            requires sync { IsSync T.row }
            requires workers { All (AreOfWorkers (length ended.now)) groups.items }
            requires kept { All AreKeeping groups.items }
            ensures { Pairs (λ before after. Pairs (HasTakenOn schema.entry.now) before.takers.items after.takers.items) groups.items result.items }
        { take_beside(rt, alloc, schema, gate, ended, groups) },
        move || -> Vec<FollowerJob<J>>
            requires sync { IsSync T.row × IsSend J.row × IsSync J.row }
            requires schema { schema.now ≡ J.nodes }
            requires flags { length ended.now ≡ length followers.items }
            requires ready { AllByRecursion (IsReadyToFollow J.nodes J.opening) (map (λ job. record { reader = job.reader; worker = job.worker; boxes = job.outboxes.items; whole = job.whole }) followers.items) }
            ensures { Pairs (IsFollowedBy J.nodes J.opening) (map (λ job. record { reader = job.reader; worker = job.worker; boxes = job.outboxes.items; whole = job.whole }) followers.items) (map (λ job. record { reader = job.reader; worker = job.worker; boxes = job.outboxes.items; whole = job.whole }) result.items) }
        { follow_beside(rt, alloc, schema, stopped, ended, followers) },
    );
    Jobs { followers, groups }
}

/// Runs lanes, workers and receivers beside each other. An error says that the lanes ran out of memory.
pub fn run_all<J: Naming + Send + Sync, T: Threads + Wait + Sync, G: Gate>(
    rt: &T,
    alloc: Global,
    schema: &Schema,
    gate: &G,
    log: &SharedLog<J>,
    stopped: &AtomicBool,
    ended: &[AtomicBool],
    lanes: Vec<LaneJob<J>>,
    jobs: Jobs<J>,
) -> Result<Ran<J>, NoMemory>
    requires schema { schema.now ≡ J.nodes }
    requires every { length lanes.items ≡ J.parts }
    requires lanes { AreToWrite J.nodes J.opening.receivers (map (λ job. job.seat) lanes.items) (map (λ job. job.commands.items) lanes.items) }
    requires flags { length ended.now ≡ length jobs.followers.items }
    requires ready { AllByRecursion (IsReadyToFollow J.nodes J.opening) (map (λ job. record { reader = job.reader; worker = job.worker; boxes = job.outboxes.items; whole = job.whole }) jobs.followers.items) }
    requires workers { All (AreOfWorkers (length jobs.followers.items)) jobs.groups.items }
    requires kept { All AreKeeping jobs.groups.items }
    ensures lanes { IfOk result (λ ran. HaveAll (map (λ job. job.commands.items) lanes.items) ran.finished.seats) }
    ensures follows { IfOk result (λ ran. Pairs (IsFollowedBy J.nodes J.opening) (map (λ job. record { reader = job.reader; worker = job.worker; boxes = job.outboxes.items; whole = job.whole }) jobs.followers.items) (map (λ job. record { reader = job.reader; worker = job.worker; boxes = job.outboxes.items; whole = job.whole }) ran.followers.items)) }
    ensures takes { IfOk result (λ ran. Pairs (λ before after. Pairs (HasTakenOn schema.now) before.takers.items after.takers.items) jobs.groups.items ran.groups.items) }
{
    let (served, finished) = join(
        rt,
        move || -> Jobs<J>
            requires sync { IsSync T.row × IsSend J.row × IsSync J.row }
            requires schema { schema.now ≡ J.nodes }
            requires flags { length ended.now ≡ length jobs.followers.items }
            requires ready { AllByRecursion (IsReadyToFollow J.nodes J.opening) (map (λ job. record { reader = job.reader; worker = job.worker; boxes = job.outboxes.items; whole = job.whole }) jobs.followers.items) }
            requires workers { All (AreOfWorkers (length jobs.followers.items)) jobs.groups.items }
            requires kept { All AreKeeping jobs.groups.items }
            ensures follows { Pairs (IsFollowedBy J.nodes J.opening) (map (λ job. record { reader = job.reader; worker = job.worker; boxes = job.outboxes.items; whole = job.whole }) jobs.followers.items) (map (λ job. record { reader = job.reader; worker = job.worker; boxes = job.outboxes.items; whole = job.whole }) result.followers.items) }
            ensures takes { Pairs (λ before after. Pairs (HasTakenOn schema.entry.now) before.takers.items after.takers.items) jobs.groups.items result.groups.items }
        { serve_beside(rt, alloc, schema, gate, stopped, ended, jobs) },
        move || -> Result<Finished<J>, NoMemory>
            requires sync { IsSync T.row × IsSend J.row × IsSync J.row }
            requires schema { schema.now ≡ J.nodes }
            requires every { length lanes.items ≡ J.parts }
            requires lanes { AreToWrite J.nodes J.opening.receivers (map (λ job. job.seat) lanes.items) (map (λ job. job.commands.items) lanes.items) }
            ensures { IfOk result (λ finished. HaveAll (map (λ job. job.commands.items) lanes.items) finished.seats) }
        { write_beside(rt, alloc, schema, log, gate, stopped, lanes) },
    );
    let Jobs { followers, groups } = served;
    Ok(Ran {
        finished: finished?,
        followers,
        groups,
    })
}

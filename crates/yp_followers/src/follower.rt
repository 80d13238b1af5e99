//! Workers that follow a shared journal beside each other.
ghost use Rattle.std.specs.Prelude.{◌≡◌, ℕ, ◌<◌, List, [], ◌∷◌, length, true, false, All, IfOk, IfSome, OnOk, Ok, slice_index_or};
ghost use Rattle.yp_journal.specs.declared.entry.Entry.{Entry as EntryThere};
ghost use Rattle.yp_journal.specs.declared.receiver.ReceiverInfo.{ReceiverInfo};
ghost use Rattle.yp_journal.specs.History.{IsLegal, MayFollow, first_state, next_state, state_of};
ghost use Rattle.yp_attempt.specs.Tracks.{Attempt};
ghost use Rattle.yp_followers.specs.Followers.{AnswersIf, AreSameOutboxes, IsDone, IsOnSomeWay, IsOnlyAt, IsReady, IsUpToDate, IsUpToSome, KeepsUp, TakesIn};
ghost use Rattle.yp_followers.specs.declared.follower.Step.TheVariants.{Ended};

use crate::outbox::Outbox;
use std::alloc::Global;
use std::sync::Wait;
use std::sync::atomic::{AtomicBool, Ordering};
use std::thread::{self, Threads};
use yp_base::memory::NoMemory;
use yp_journal::entry::Entry;
use yp_journal::laws::{a_journal_goes_on_entry_by_entry, a_journal_goes_on_where_another_ends};
use yp_moment::laws::{entries_of_a_legal_journal_may_follow, one_entry_more_is_one_moment_more};
use yp_published::history::Naming;
use yp_published::reader::{CatchFault, LogReader};
use yp_schema::schema::Schema;
use yp_worker::laws::a_worker_offers_what_its_run_offers;
use yp_worker::offering::Sent;
use yp_worker::worker::Worker;

/// A worker that follows a shared journal: its reader, the worker, what it has for each of its receivers, and whether it
/// followed the journal to its end.
#[derive(Drop)]
pub struct FollowerJob<J: Naming> {
    pub reader: LogReader<J>,
    pub worker: Worker,
    pub outboxes: Vec<Outbox>,
    pub whole: bool,
}

/// What a worker came to by a read of the journal.
enum Step {
    /// It took in some entries, and the journal goes on.
    Further,
    /// Nothing more was published.
    Waiting,
    /// The reader was given no read.
    Missed,
    /// It took in all entries, and the journal has ended.
    Ended,
}

/// The place of the outbox of a receiver; `None` where there is none, or more than one.
fn place_of(outboxes: &[Outbox], receiver: u32) -> Option<usize>
    ensures { IfSome result (IsOnlyAt receiver outboxes.now) }
{
    let mut found = None;
    for (place, outbox) in outboxes.iter().enumerate() {
        if outbox.receiver == receiver {
            if found.is_some() {
                return None;
            }
            found = Some(place);
        }
    }
    found
}

/// Answers the next offer of a worker by the outbox of its receiver, and says whether there was one.
fn answer_next<R: Wait>(
    rt: &R,
    alloc: Global,
    schema: &Schema,
    worker: &mut Worker,
    outboxes: &mut Vec<Outbox>,
) -> Result<bool, NoMemory>
    requires { IsOnSomeWay schema.now worker.old outboxes.old.items }
    ensures goes { IfOk result (λ more. AnswersIf more schema.now worker.old outboxes.old.items worker.new outboxes.new.items) }
    ensures same { AreSameOutboxes outboxes.old.items outboxes.new.items }
{
    a_worker_offers_what_its_run_offers();
    a_journal_goes_on_entry_by_entry();
    match worker.next_offer(alloc, schema)? {
        Some(sent) => {
            let at = worker.state().position();
            let Sent {
                receiver,
                packet,
                notice: _,
            } = sent;
            // That a worker has just one outbox of each of its receivers no contract says, so where it has not, it gives
            // up as for want of memory.
            let place = match place_of(outboxes.as_slice(), receiver) {
                Some(place) => place,
                None => return Err(NoMemory),
            };
            let settled = outboxes[place].offer(rt, alloc, packet, at)?;
            worker.settle(alloc, settled);
            Ok(true)
        }
        None => Ok(false),
    }
}

/// Answers all offers of a worker.
fn answer_all<R: Wait>(
    rt: &R,
    alloc: Global,
    schema: &Schema,
    worker: &mut Worker,
    outboxes: &mut Vec<Outbox>,
) -> Result<(), NoMemory>
    requires { IsOnSomeWay schema.now worker.old outboxes.old.items }
    ensures through { OnOk result (AnswersIf false schema.now worker.old outboxes.old.items worker.new outboxes.new.items) }
    ensures same { AreSameOutboxes outboxes.old.items outboxes.new.items }
{
    for _ in rt.forever() {
        if !answer_next(rt, alloc, schema, worker, outboxes)? {
            return Ok(());
        }
    }
    unreachable!()
}

/// Takes in an entry, and answers all that the worker offers by it.
fn take_in<R: Wait>(
    rt: &R,
    alloc: Global,
    schema: &Schema,
    entry: &Entry,
    worker: &mut Worker,
    outboxes: &mut Vec<Outbox>,
) -> Result<(), NoMemory>
    requires ready { IsUpToSome schema.now worker.old outboxes.old.items }
    requires entry { MayFollow schema.now worker.old.state entry.now }
    ensures taken { OnOk result (TakesIn schema.now (entry.now ∷ []) worker.old outboxes.old.items worker.new outboxes.new.items) }
    ensures state { OnOk result (worker.new.state ≡ next_state schema.now worker.old.state entry.now.command) }
    ensures same { AreSameOutboxes outboxes.old.items outboxes.new.items }
{
    entries_of_a_legal_journal_may_follow();
    one_entry_more_is_one_moment_more();
    a_worker_offers_what_its_run_offers();
    a_journal_goes_on_entry_by_entry();
    if worker.state().position() >= 1 << 62 {
        return Err(NoMemory);
    }
    worker.absorb(alloc, schema, entry)?;
    answer_all(rt, alloc, schema, worker, outboxes)
}

/// Takes in entries, one after another.
fn take_all<R: Wait>(
    rt: &R,
    alloc: Global,
    schema: &Schema,
    fresh: &[Entry],
    worker: &mut Worker,
    outboxes: &mut Vec<Outbox>,
) -> Result<(), NoMemory>
    requires ready { IsUpToSome schema.now worker.old outboxes.old.items }
    requires legal { IsLegal schema.now worker.old.state fresh.now }
    ensures taken { OnOk result (TakesIn schema.now fresh.now worker.old outboxes.old.items worker.new outboxes.new.items) }
    ensures same { AreSameOutboxes outboxes.old.items outboxes.new.items }
{
    for entry in fresh {
        take_in(rt, alloc, schema, entry, worker, outboxes)?;
    }
    Ok(())
}

/// Reads the journal once, and takes in what came.
fn read_once<J: Naming, R: Wait>(
    rt: &R,
    alloc: Global,
    schema: &Schema,
    job: &mut FollowerJob<J>,
) -> Result<Step, NoMemory>
    requires schema { schema.now ≡ J.nodes }
    requires ready { IsReady J.nodes J.opening job.old.reader.got.entries job.old.worker job.old.outboxes.items }
    ensures followed { OnOk result (KeepsUp J.nodes J.opening job.old.reader.got.entries job.old.worker job.old.outboxes.items job.new.reader.got.entries job.new.worker job.new.outboxes.items) }
    ensures ended { result ≡ Ok Ended → job.new.reader.got.ended ≡ true }
    ensures same { AreSameOutboxes job.old.outboxes.items job.new.outboxes.items }
{
    a_journal_goes_on_where_another_ends();
    let mut fresh = Vec::new(alloc);
    match job.reader.catch_up(alloc, &mut fresh) {
        Ok(_) => {
            job.reader.legal();
            let fresh = fresh.as_slice();
            take_all(rt, alloc, schema, fresh, &mut job.worker, &mut job.outboxes)?;
            if job.reader.ended() {
                Ok(Step::Ended)
            } else if fresh.is_empty() {
                Ok(Step::Waiting)
            } else {
                Ok(Step::Further)
            }
        }
        Err(CatchFault::NoRead) => Ok(Step::Missed),
        Err(CatchFault::Memory) => Err(NoMemory),
    }
}

/// Follows the journal until it has ended, or its writers have stopped and nothing more comes. Says whether it has ended.
fn follow<J: Naming, R: Wait>(
    rt: &R,
    alloc: Global,
    schema: &Schema,
    stopped: &AtomicBool,
    job: &mut FollowerJob<J>,
) -> bool
    requires schema { schema.now ≡ J.nodes }
    requires ready { IsReady J.nodes J.opening job.old.reader.got.entries job.old.worker job.old.outboxes.items }
    ensures ended { result ≡ true → job.new.reader.got.ended ≡ true }
    ensures same { AreSameOutboxes job.old.outboxes.items job.new.outboxes.items }
    ensures followed { result ≡ true → KeepsUp J.nodes J.opening job.old.reader.got.entries job.old.worker job.old.outboxes.items job.new.reader.got.entries job.new.worker job.new.outboxes.items }
{
    for _ in rt.forever() {
        let last = stopped.load(Ordering::SeqCst);
        match read_once(rt, alloc, schema, job) {
            Ok(Step::Further) => {}
            Ok(Step::Waiting) => {
                if last {
                    return false;
                }
                thread::yield_now();
            }
            Ok(Step::Missed) => thread::yield_now(),
            Ok(Step::Ended) => return true,
            Err(_) => return false,
        }
    }
    unreachable!()
}

/// Runs a worker, and sets its flag.
fn run_follower<J: Naming, R: Wait>(
    rt: &R,
    alloc: Global,
    schema: &Schema,
    stopped: &AtomicBool,
    ended: &AtomicBool,
    job: &mut FollowerJob<J>,
)
    requires schema { schema.now ≡ J.nodes }
    requires ready { IsReady J.nodes J.opening job.old.reader.got.entries job.old.worker job.old.outboxes.items }
    ensures { IsDone J.nodes J.opening job.old.reader.got job.old.worker job.old.outboxes.items job.new.reader.got job.new.worker job.new.outboxes.items job.new.whole }
{
    job.whole = follow(rt, alloc, schema, stopped, job);
    ended.store(true, Ordering::SeqCst);
}

/// Runs workers beside each other, each by a thread of its own where there is one, and else one after another, until the
/// journal has ended, or its writers have stopped (`stopped`) and nothing more comes. Then the flag of each is set (`ended`,
/// by its place).
///
/// A worker that is whole got all entries of the journal, and has offered all that they make for its receivers.
pub fn run_followers<J: Naming + Send + Sync, T: Threads + Wait + Sync>(
    rt: &T,
    alloc: Global,
    schema: &Schema,
    stopped: &AtomicBool,
    ended: &[AtomicBool],
    jobs: &mut [FollowerJob<J>],
)
    requires schema { schema.now ≡ J.nodes }
    requires flags { length ended.now ≡ length jobs.old }
    requires ready { All (λ job. IsReady J.nodes J.opening job.reader.got.entries job.worker job.outboxes.items) jobs.old }
    ensures ended { (place : ℕ) (none : _) → place < length jobs.old → (slice_index_or jobs.new place none).whole ≡ true → (slice_index_or jobs.new place none).reader.got.ended ≡ true }
    ensures same { (place : ℕ) (none : _) → place < length jobs.old → AreSameOutboxes (slice_index_or jobs.old place none).outboxes.items (slice_index_or jobs.new place none).outboxes.items }
    ensures followed { (place : ℕ) (none : _) → place < length jobs.old → (slice_index_or jobs.new place none).whole ≡ true
        → (start : ℕ) (receivers : List ReceiverInfo) (mine : List ℕ) (before : List EntryThere) (opened : List Attempt) → IsLegal J.nodes (first_state receivers) before → J.opening ≡ state_of J.nodes (first_state receivers) before
        → IsUpToDate J.nodes start receivers mine before (slice_index_or jobs.old place none).reader.got.entries opened (slice_index_or jobs.old place none).worker (slice_index_or jobs.old place none).outboxes.items
        → IsUpToDate J.nodes start receivers mine before (slice_index_or jobs.new place none).reader.got.entries opened (slice_index_or jobs.new place none).worker (slice_index_or jobs.new place none).outboxes.items }
{
    let threads = jobs.len();
    if threads > 0 {
        thread::for_each_mut(
            rt,
            jobs,
            threads,
            &|place: usize, job: &mut FollowerJob<J>|
                requires schema { schema.now ≡ J.nodes }
                requires flag { place < length ended.now }
                requires ready { IsReady J.nodes J.opening job.now.reader.got.entries job.now.worker job.now.outboxes.items }
                ensures { IsDone J.nodes J.opening job.entry.now.reader.got job.entry.now.worker job.entry.now.outboxes.items job.exit.now.reader.got job.exit.now.worker job.exit.now.outboxes.items job.exit.now.whole }
            { run_follower(rt, alloc, schema, stopped, &ended[place], job) },
        );
    }
}

//! Lanes that write, from their seats and commands to the end of the journal.
ghost use Rattle.std.specs.Prelude.{◌≡◌, length, map, true, IfOk};
ghost use Rattle.std.specs.List.{AllByRecursion};
ghost use Rattle.yp_log_share.specs.Seats.{AreOfLanesFrom};
ghost use Rattle.yp_threads.specs.Beside.{AreToWrite, HaveAll};

use std::alloc::Global;
use std::sync::Wait;
use std::sync::atomic::{AtomicBool, Ordering};
use std::thread::Threads;
use yp_base::memory::NoMemory;
use yp_gate::Gate;
use yp_lanes::lane::{LaneJob, run_lanes};
use yp_log_share::finished::Finished;
use yp_log_share::log::SharedLog;
use yp_log_share::seat::LaneSeat;
use yp_published::history::Naming;
use yp_schema::schema::Schema;
use yp_script::script::Lanes;

/// A job for each lane: its seat, and its commands.
pub fn jobs_of<J: Naming>(
    alloc: Global,
    seats: Vec<LaneSeat<J>>,
    lanes: Lanes,
) -> Result<Vec<LaneJob<J>>, NoMemory>
    requires { length seats.items ≡ length lanes }
    ensures seats { IfOk result (λ jobs. map (λ job. job.seat) jobs.items ≡ seats.items) }
    ensures lanes { IfOk result (λ jobs. map (λ job. job.commands.items) jobs.items ≡ lanes) }
{
    let mut jobs = Vec::with_capacity(alloc, seats.len())?;
    let mut lanes = lanes.into_vec(alloc)?.into_iter();
    for seat in seats {
        let commands = match lanes.next() {
            Some(commands) => commands.into_vec(alloc)?,
            None => return Err(NoMemory),
        };
        jobs.push(LaneJob {
            seat,
            commands,
            whole: false,
        })?;
    }
    Ok(jobs)
}

/// The seats of lanes. An error says that one had not all of its commands accepted, or that memory ran out.
fn seats_of<J: Naming>(alloc: Global, jobs: Vec<LaneJob<J>>) -> Result<Vec<LaneSeat<J>>, NoMemory>
    ensures whole { IfOk result (λ _. AllByRecursion (λ whole. whole ≡ true) (map (λ job. job.whole) jobs.items)) }
    ensures seats { IfOk result (λ seats. seats.items ≡ map (λ job. job.seat) jobs.items) }
{
    let mut seats = Vec::with_capacity(alloc, jobs.len())?;
    for job in jobs {
        let LaneJob {
            seat,
            commands: _,
            whole,
        } = job;
        if !whole {
            return Err(NoMemory);
        }
        seats.push(seat)?;
    }
    Ok(seats)
}

/// Ends the journal, where all lanes are whole.
fn finish<J: Naming, W: Wait>(
    rt: &W,
    alloc: Global,
    log: &SharedLog<J>,
    jobs: Vec<LaneJob<J>>,
) -> Result<Finished<J>, NoMemory>
    requires every { length jobs.items ≡ J.parts }
    requires order { AreOfLanesFrom 1 (map (λ job. job.seat) jobs.items) }
    ensures whole { IfOk result (λ _. AllByRecursion (λ whole. whole ≡ true) (map (λ job. job.whole) jobs.items)) }
    ensures seats { IfOk result (λ finished. finished.seats ≡ map (λ job. job.seat) jobs.items) }
{
    let seats = seats_of(alloc, jobs)?;
    match log.finish(rt, seats) {
        Ok(finished) => Ok(finished),
        Err(_) => Err(NoMemory),
    }
}

/// Has lanes write all of their commands beside each other, and ends the journal. Then a flag tells that nothing more comes,
/// whether the journal has ended or memory ran out.
pub fn write_beside<J: Naming + Send + Sync, T: Threads + Wait + Sync, G: Gate>(
    rt: &T,
    alloc: Global,
    schema: &Schema,
    log: &SharedLog<J>,
    gate: &G,
    stopped: &AtomicBool,
    jobs: Vec<LaneJob<J>>,
) -> Result<Finished<J>, NoMemory>
    requires schema { schema.now ≡ J.nodes }
    requires every { length jobs.items ≡ J.parts }
    requires lanes { AreToWrite J.nodes J.opening.receivers (map (λ job. job.seat) jobs.items) (map (λ job. job.commands.items) jobs.items) }
    ensures { IfOk result (λ finished. HaveAll (map (λ job. job.commands.items) jobs.items) finished.seats) }
{
    let mut jobs = jobs;
    run_lanes(rt, alloc, schema, log, gate, jobs.as_mut_slice());
    let finished = finish(rt, alloc, log, jobs);
    stopped.store(true, Ordering::SeqCst);
    finished
}

//! Lanes that write a shared journal beside each other.
ghost use Rattle.std.specs.Prelude.{◌≡◌, ℕ, ◌+◌, ◌<◌, ◌^◌, ◌++◌, length, true, All, slice_index_or};
ghost use Rattle.yp_journal.specs.History.{MayCome};
ghost use Rattle.yp_lanes.specs.Lanes.{commands_of, AreNumberedFrom, HasWritten};

use std::alloc::Global;
use std::sync::Wait;
use std::thread::{self, Threads};
use yp_gate::{Gate, Moment};
use yp_journal::command::Command;
use yp_log_share::log::SharedLog;
use yp_log_share::seat::LaneSeat;
use yp_published::history::Naming;
use yp_schema::schema::Schema;

/// A lane that writes: its seat, its commands, in order, and whether all of them were accepted.
#[derive(Drop)]
pub struct LaneJob<J: Naming> {
    pub seat: LaneSeat<J>,
    pub commands: Vec<Command>,
    pub whole: bool,
}

/// Writes commands of a lane, in order, up to the first for which there is no memory. Says whether all were accepted.
fn write_all<J: Naming, W: Wait, G: Gate>(
    rt: &W,
    alloc: Global,
    schema: &Schema,
    log: &SharedLog<J>,
    gate: &G,
    seat: &mut LaneSeat<J>,
    commands: &[Command],
) -> bool
    requires schema { schema.now ≡ J.nodes }
    requires commands { All (λ command. MayCome J.nodes J.opening.receivers command) commands.now }
    requires few { length seat.old.calls + length commands.now < 2 ^ 32 }
    ensures lane { seat.new.lane ≡ seat.old.lane }
    ensures all { result ≡ true → commands_of seat.new ≡ commands_of seat.old ++ commands.now }
    ensures numbered { AreNumberedFrom 1 seat.old.calls → AreNumberedFrom 1 seat.new.calls }
{
    for command in commands {
        let lane = seat.lane();
        let index = seat.calls().len() as u32 + 1;
        gate.at(Moment::Submit { lane, index });
        if log.submit(rt, alloc, schema, seat, command).is_err() {
            return false;
        }
    }
    true
}

/// Runs a lane.
fn run_lane<J: Naming, W: Wait, G: Gate>(
    rt: &W,
    alloc: Global,
    schema: &Schema,
    log: &SharedLog<J>,
    gate: &G,
    job: &mut LaneJob<J>,
)
    requires schema { schema.now ≡ J.nodes }
    requires commands { All (λ command. MayCome J.nodes J.opening.receivers command) job.old.commands.items }
    requires few { length job.old.seat.calls + length job.old.commands.items < 2 ^ 32 }
    ensures { HasWritten job.old.seat job.old.commands.items job.new.seat job.new.whole }
{
    let LaneJob {
        seat,
        commands,
        whole,
    } = job;
    *whole = write_all(rt, alloc, schema, log, gate, seat, commands.as_slice());
}

/// Runs lanes beside each other, each by a thread of its own where there is one, and else one after another. A lane that
/// is whole had all its commands accepted, in order, after those that it had before. The calls of each are numbered one
/// after another, where they were so before.
pub fn run_lanes<J: Naming + Send + Sync, T: Threads + Wait + Sync, G: Gate>(
    rt: &T,
    alloc: Global,
    schema: &Schema,
    log: &SharedLog<J>,
    gate: &G,
    jobs: &mut [LaneJob<J>],
)
    requires schema { schema.now ≡ J.nodes }
    requires commands { All (λ job. All (λ command. MayCome J.nodes J.opening.receivers command) job.commands.items) jobs.old }
    requires few { All (λ job. length job.seat.calls + length job.commands.items < 2 ^ 32) jobs.old }
    ensures { (place : ℕ) (none : _) → place < length jobs.old → HasWritten (slice_index_or jobs.old place none).seat (slice_index_or jobs.old place none).commands.items (slice_index_or jobs.new place none).seat (slice_index_or jobs.new place none).whole }
{
    let threads = jobs.len();
    if threads > 0 {
        thread::for_each_mut(
            rt,
            jobs,
            threads,
            &|_, job: &mut LaneJob<J>|
                requires schema { schema.now ≡ J.nodes }
                requires commands { All (λ command. MayCome J.nodes J.opening.receivers command) job.now.commands.items }
                requires few { length job.now.seat.calls + length job.now.commands.items < 2 ^ 32 }
                ensures { HasWritten job.entry.now.seat job.entry.now.commands.items job.exit.now.seat job.exit.now.whole }
            { run_lane(rt, alloc, schema, log, gate, job) },
        );
    }
}

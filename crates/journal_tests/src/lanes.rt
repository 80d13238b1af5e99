//! Two lanes that write one journal beside each other.
ghost use Rattle.std.specs.Prelude.{◌≡◌, ◌+◌, ◌<◌, ◌^◌, ◌∷◌, [], length, IfOk};
ghost use Rattle.yp_journal.specs.declared.command.Command.TheVariants.{Tick};

use std::alloc::Global;
use std::marker::Brand;
use std::sync::Wait;
use std::sync::ledger::Blank;
use std::test::Fail;
use std::thread::Threads;
use yp_base::memory::NoMemory;
use yp_gate::NoGate;
use yp_journal::command::Command;
use yp_journal::state::State;
use yp_lanes::lane::{LaneJob, run_lanes};
use yp_log_share::log::SharedLog;
use yp_log_share::opening::{Parts, open};
use yp_log_share::seat::LaneSeat;
use yp_published::history::{Naming, Opened};
use yp_schema::schema::Schema;

// A lane of two ticks.
fn two_ticks<J: Naming>(alloc: Global, seat: LaneSeat<J>) -> Result<LaneJob<J>, NoMemory>
    ensures { IfOk result (λ job. (job.seat ≡ seat) × (job.commands.items ≡ Tick 5 ∷ Tick 7 ∷ [])) }
{
    let mut commands = Vec::with_capacity(alloc, 2)?;
    commands.push(Command::Tick(5))?;
    commands.push(Command::Tick(7))?;
    Ok(LaneJob {
        seat,
        commands,
        whole: false,
    })
}

// What is told of two lanes: whether both are whole, and how many calls each has.
type Written = (bool, usize, usize);

// Whether a lane is whole, and how many calls it made.
fn written_by<J: Naming>(job: &LaneJob<J>) -> (bool, usize) {
    let seat = &job.seat;
    (job.whole, seat.calls().len())
}

// Two lanes without calls go on beside each other.
fn two_lanes<J: Naming + Send + Sync, T: Threads + Wait + Sync>(
    rt: &T,
    alloc: Global,
    schema: &Schema,
    log: &SharedLog<J>,
    seats: Vec<LaneSeat<J>>,
) -> Result<Option<Written>, NoMemory>
    requires schema { schema.now ≡ J.nodes }
{
    let mut seats = seats;
    let (Some(second), Some(first)) = (seats.pop(), seats.pop()) else {
        return Ok(None);
    };
    if first.calls().len() + second.calls().len() > 0 {
        return Ok(None);
    }
    let mut jobs = [two_ticks(alloc, first)?, two_ticks(alloc, second)?];
    run_lanes(rt, alloc, schema, log, &NoGate, &mut jobs);
    let (one, other) = (written_by(&jobs[0]), written_by(&jobs[1]));
    Ok(Some((one.0 && other.0, one.1, other.1)))
}

// Opens a journal that two lanes write, and lets it go.
fn written_by_two<J: Naming + Send + Sync, T: Threads + Wait + Sync>(
    rt: &T,
    alloc: Global,
    opened: Opened,
    blank: Blank,
    schema: &Schema,
    state: State,
) -> Result<Option<Written>, Fail>
    requires book { opened.seen.book ≡ J.book }
    requires name { blank.name ≡ J.name }
    requires parts { (blank.parts ≡ J.parts) × (J.parts ≡ 2) }
    requires schema { schema.now ≡ J.nodes }
    requires opening { J.opening ≡ state }
{
    let Parts {
        mut desk,
        seats,
        readers,
    } = open::<J, T>(rt, alloc, opened, blank, state, 2, 1)?;
    let log = SharedLog::over(&mut desk);
    let written = two_lanes(rt, alloc, schema, &log, seats);
    log.end();
    drop(readers);
    desk.abandon(rt);
    Ok(written?)
}

#[test]
fn two_lanes_write_one_journal(rt: HostRuntime) -> Result<(), Fail> {
    let alloc = rt.alloc();
    let schema = Schema::read(alloc, &[])?;
    let state = State::new(alloc, &schema, &[])?;
    let written = written_by_two::<Brand, HostRuntime>(
        &rt,
        alloc,
        Opened::new(),
        Blank::new(2),
        &schema,
        state,
    )?;
    assert_eq!(rt; written, Some((true, 2, 2)));
    Ok(())
}

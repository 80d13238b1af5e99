//! The life of a journal that threads share, from crews to crews.
ghost use Rattle.std.specs.Prelude.{◌≡◌, ℕ, ◌<◌, ◌^◌, [], List, length, map, true, false, All, IfOk};
ghost use Rattle.std.specs.List.{AllByRecursion};
ghost use Rattle.yp_journal.specs.declared.command.Command.{Command as CommandThere};
ghost use Rattle.yp_journal.specs.declared.receiver.ReceiverInfo.{ReceiverInfo as Declared};
ghost use Rattle.yp_journal.specs.History.{IsLegal, MayCome, state_of};
ghost use Rattle.yp_crews.specs.declared.crew.Crew.{Crew as CrewThere};
ghost use Rattle.yp_crews.specs.Crews.{AreReady};
ghost use Rattle.yp_turns.specs.Journal.{Interleaves, turn_of};
ghost use Rattle.yp_published.specs.Reads.{fresh_reading};
ghost use Rattle.yp_log_share.specs.Seats.{AreOfLanesFrom, count_calls};
ghost use Rattle.yp_handover.specs.Handover.{AreBack, GoesOnByThreads, IsMadeOf, IsOfOneQueue, IsTakenOut, Pairs, Triples};
ghost use Rattle.yp_threads.specs.Beside.{HaveAll};

use crate::beside::Beside;
use crate::lanes::jobs_of;
use crate::running::{Ran, run_all};
use std::alloc::Global;
use std::sync::Wait;
use std::sync::atomic::AtomicBool;
use std::sync::ledger::Blank;
use std::thread::Threads;
use yp_base::memory::NoMemory;
use yp_crews::crew::Crew;
use yp_gate::Gate;
use yp_handover::closing::{Followed, Parted, are_whole, crews_of, take_out};
use yp_handover::group::Group;
use yp_handover::handing::hand_over;
use yp_handover::laws::{
    a_crew_goes_on_by_threads, each_receiver_took_from_its_queue, jobs_of_crews_may_follow,
    workers_that_are_back_got_all,
};
use yp_journal::receiver::ReceiverInfo;
use yp_journal::state::State;
use yp_log_share::close::{Closed, Unclosed};
use yp_log_share::desk::Desk;
use yp_log_share::finished::Finished;
use yp_log_share::log::SharedLog;
use yp_log_share::opening::{Parts, open};
use yp_log_share::seat::LaneSeat;
use yp_published::history::{Naming, Opened};
use yp_published::reader::LogReader;
use yp_schema::schema::Schema;
use yp_script::script::Lanes;

/// What stays the same: the schema, and the receivers, in the order of their declaration.
#[derive(Clone, Copy, Drop)]
pub struct Setting<'a> {
    pub schema: &'a Schema,
    pub receivers: &'a [ReceiverInfo],
}

/// What lanes, workers and receivers hand back: the end of the journal, the readers, workers and outboxes out of their jobs,
/// and the jobs of receivers.
#[derive(Drop)]
struct Back<J: Naming> {
    finished: Finished<J>,
    readers: Vec<LogReader<J>>,
    followed: Vec<Followed>,
    groups: Vec<Group>,
}

/// So many flags, none of which is set.
fn new_flags(alloc: Global, count: usize) -> Result<Vec<AtomicBool>, NoMemory>
    ensures { IfOk result (λ flags. length flags.items ≡ count) }
{
    let mut flags = Vec::with_capacity(alloc, count)?;
    for _ in 0..count {
        flags.push(AtomicBool::new(false))?;
    }
    Ok(flags)
}

/// Takes the jobs of what ran apart. An error says that one is not whole, or that memory ran out.
fn taken_apart<J: Naming>(alloc: Global, ran: Ran<J>) -> Result<Back<J>, NoMemory>
    ensures finished { IfOk result (λ back. back.finished ≡ ran.finished) }
    ensures groups { IfOk result (λ back. back.groups ≡ ran.groups) }
    ensures whole { IfOk result (λ _. AllByRecursion (λ group. AllByRecursion (λ taker. taker.whole ≡ true) group.takers.items) ran.groups.items) }
    ensures out { IfOk result (λ back. Triples IsTakenOut (map (λ job. record { reader = job.reader; worker = job.worker; boxes = job.outboxes.items; whole = job.whole }) ran.followers.items) back.readers.items back.followed.items) }
{
    let Ran {
        finished,
        followers,
        groups,
    } = ran;
    if !are_whole(groups.as_slice()) {
        return Err(NoMemory);
    }
    let Parted { readers, followed } = take_out(alloc, followers)?;
    Ok(Back {
        finished,
        readers,
        followed,
        groups,
    })
}

/// Has the lanes of seats write their commands beside crews that follow them by readers.
fn run_crews<J: Naming + Send + Sync, T: Threads + Wait + Sync, G: Gate>(
    rt: &T,
    alloc: Global,
    setting: &Setting,
    gate: &G,
    log: &SharedLog<J>,
    seats: Vec<LaneSeat<J>>,
    readers: Vec<LogReader<J>>,
    crews: Vec<Crew>,
    lanes: Lanes,
) -> Result<Back<J>, NoMemory>
    requires schema { setting.now.schema.now ≡ J.nodes }
    requires seats { (length seats.items ≡ J.parts) × AreOfLanesFrom 1 seats.items × (count_calls seats.items ≡ 0) }
    requires every { length lanes ≡ J.parts }
    requires short { AllByRecursion (λ lane. length lane < 2 ^ 32) lanes }
    requires commands { AllByRecursion (AllByRecursion (MayCome J.nodes J.opening.receivers)) lanes }
    requires readers { All (λ reader. reader ≡ fresh_reading) readers.items }
    requires ready { AreReady J.nodes J.opening crews.items }
    ensures lanes { IfOk result (λ back. HaveAll lanes back.finished.seats) }
    ensures back { IfOk result (λ back. AreBack J.nodes J.opening setting.now.receivers.now (length crews.items) crews.items back.readers.items back.followed.items back.groups.items) }
{
    jobs_of_crews_may_follow();
    let Setting { schema, receivers } = *setting;
    let ended = new_flags(alloc, crews.len())?;
    let stopped = AtomicBool::new(false);
    let flags = ended.as_slice();
    let lanes = jobs_of(alloc, seats, lanes)?;
    let jobs = hand_over(alloc, receivers, readers, crews)?;
    let ran = run_all(rt, alloc, schema, gate, log, &stopped, flags, lanes, jobs)?;
    taken_apart(alloc, ran)
}

/// The crews again, beside what the journal came to.
fn made_of<W: Wait>(
    rt: &W,
    alloc: Global,
    schema: &Schema,
    closed: Closed,
    followed: Vec<Followed>,
    groups: Vec<Group>,
) -> Result<Beside, NoMemory>
    requires { Pairs (λ one group. Pairs IsOfOneQueue one.outboxes.items group.takers.items) followed.items groups.items }
    ensures entries { IfOk result (λ beside. beside.entries ≡ closed.entries) }
    ensures state { IfOk result (λ beside. beside.state ≡ closed.state) }
    ensures crews { IfOk result (λ beside. Triples (IsMadeOf schema.now) followed.items groups.items beside.crews.items) }
{
    let Closed {
        entries,
        state,
        lanes: _,
    } = closed;
    let crews = crews_of(rt, alloc, schema, followed, groups)?;
    Ok(Beside {
        entries,
        state,
        crews,
    })
}

/// Closes the journal of a desk, and makes crews again.
fn close<J: Naming, W: Wait>(
    rt: &W,
    alloc: Global,
    schema: &Schema,
    desk: Desk<J>,
    back: Back<J>,
) -> Result<Beside, NoMemory>
    requires schema { schema.now ≡ J.nodes }
    requires back { (receivers : List Declared) × (workers : ℕ) × (crews : List CrewThere) × AreBack J.nodes J.opening receivers workers crews back.readers.items back.followed.items back.groups.items }
    ensures legal { IfOk result (λ beside. IsLegal J.nodes J.opening beside.entries.items) }
    ensures state { IfOk result (λ beside. beside.state ≡ state_of J.nodes J.opening beside.entries.items) }
    ensures lanes { IfOk result (λ beside. (lanes : List (List CommandThere)) → length lanes ≡ J.parts → HaveAll lanes back.finished.seats → Interleaves lanes (map turn_of beside.entries.items)) }
    ensures crews { IfOk result (λ beside. (receivers : List Declared) (workers : ℕ) (crews : List CrewThere) → AreBack J.nodes J.opening receivers workers crews back.readers.items back.followed.items back.groups.items
        → Pairs (GoesOnByThreads J.nodes J.opening receivers beside.entries.items) crews beside.crews.items) }
{
    workers_that_are_back_got_all();
    each_receiver_took_from_its_queue();
    a_crew_goes_on_by_threads();
    let Back {
        finished,
        readers,
        followed,
        groups,
    } = back;
    match desk.close(rt, alloc, finished, readers) {
        Ok(closed) => made_of(rt, alloc, schema, closed, followed, groups),
        Err(unclosed) => {
            let Unclosed {
                desk,
                finished: _,
                readers: _,
            } = unclosed;
            desk.abandon(rt);
            Err(NoMemory)
        }
    }
}

/// Opens a journal that goes on from a state, has lanes write it and crews follow it, and closes it.
pub fn live<J: Naming + Send + Sync, T: Threads + Wait + Sync, G: Gate>(
    rt: &T,
    alloc: Global,
    opened: Opened,
    blank: Blank,
    setting: &Setting,
    gate: &G,
    state: State,
    crews: Vec<Crew>,
    lanes: Lanes,
) -> Result<Beside, NoMemory>
    requires book { opened.seen.book ≡ J.book }
    requires name { blank.name ≡ J.name }
    requires parts { (blank.parts ≡ J.parts) × (J.parts ≡ length lanes) }
    requires few { length lanes < 2 ^ 32 }
    requires schema { setting.now.schema.now ≡ J.nodes }
    requires opening { J.opening ≡ state }
    requires short { AllByRecursion (λ lane. length lane < 2 ^ 32) lanes }
    requires commands { AllByRecursion (AllByRecursion (MayCome J.nodes J.opening.receivers)) lanes }
    requires workers { (0 < length crews.items) × (length crews.items < 2 ^ 32) }
    requires ready { AreReady J.nodes J.opening crews.items }
    ensures legal { IfOk result (λ beside. IsLegal J.nodes J.opening beside.entries.items) }
    ensures state { IfOk result (λ beside. beside.state ≡ state_of J.nodes J.opening beside.entries.items) }
    ensures lanes { IfOk result (λ beside. Interleaves lanes (map turn_of beside.entries.items)) }
    ensures crews { IfOk result (λ beside. Pairs (GoesOnByThreads J.nodes J.opening setting.now.receivers.now beside.entries.items) crews.items beside.crews.items) }
{
    let count = lanes.len() as u32;
    let workers = crews.len() as u32;
    let Parts {
        mut desk,
        seats,
        readers,
    } = open::<J, T>(rt, alloc, opened, blank, state, count, workers)?;
    let log = SharedLog::over(&mut desk);
    let readers = readers.readers;
    let back = run_crews(rt, alloc, setting, gate, &log, seats, readers, crews, lanes);
    log.end();
    match back {
        Ok(back) => close(rt, alloc, setting.schema, desk, back),
        Err(_) => {
            desk.abandon(rt);
            Err(NoMemory)
        }
    }
}

//! A worker that follows a journal of one lane to its end.
ghost use Rattle.std.specs.Prelude.{◌≡◌, ◌+◌, ◌<◌, ◌^◌, length, IfOk};
ghost use Rattle.yp_journal.specs.History.{first_state};
ghost use Rattle.yp_terms.specs.Terms.{HasAnchor};
ghost use Rattle.yp_published.specs.Reads.{fresh_reading};
ghost use Rattle.yp_log_share.specs.Seats.{AreOfLanesFrom, count_calls};
ghost use Rattle.yp_followers.specs.Followers.{IsReady};

use std::alloc::Global;
use std::marker::Brand;
use std::sync::Wait;
use std::sync::atomic::{AtomicBool, Ordering};
use std::sync::ledger::Blank;
use std::test::Fail;
use std::thread::Threads;
use yp_base::memory::NoMemory;
use yp_base::notice::{Kinds, Trigger};
use yp_base::txt::text_of;
use yp_followers::follower::{FollowerJob, run_followers};
use yp_followers::outbox::Outbox;
use yp_journal::command::Command;
use yp_journal::receiver::ReceiverInfo;
use yp_journal::state::State;
use yp_log_share::log::SharedLog;
use yp_log_share::opening::{Parts, open};
use yp_log_share::seat::LaneSeat;
use yp_offer_log::logged::Logged;
use yp_published::history::{Naming, Opened};
use yp_published::reader::LogReader;
use yp_queue::packet::PacketKind;
use yp_queue_share::passes::shared;
use yp_schema::schema::Schema;
use yp_terms::ask::{Ask, FilterAsk};
use yp_time::start::Start;
use yp_worker::worker::Worker;

// The full update with which the subscription begins.
const FULL: &str =
    r#"{"ietf-restconf:notification":{"eventTime":"2026-01-01T00:00:00.00Z","ietf-yang-push:push-update":{"datastore-contents":{},"id":2147483648}}}"#;

// The receiver noc with a queue of four places.
fn noc(alloc: Global) -> Result<ReceiverInfo, NoMemory> {
    Ok(ReceiverInfo {
        name: text_of(alloc, "noc")?,
        user: text_of(alloc, "ann")?,
        places: 4,
        auto: false,
    })
}

// Everything in JSON of the operational datastore, on change.
fn everything(alloc: Global) -> Result<Ask, NoMemory>
    ensures { IfOk result (λ ask. HasAnchor ask.trigger) }
{
    Ok(Ask {
        encoding: text_of(alloc, "encode-json")?,
        datastore: text_of(alloc, "ietf-datastores:operational")?,
        filter: FilterAsk::All,
        trigger: Trigger::OnChange {
            dampening: 0,
            sync: true,
            excluded: Kinds {
                create: false,
                delete: false,
                insert: false,
                moved: false,
                replace: false,
            },
        },
    })
}

// The lane subscribes the receiver, and goes on to a tick.
fn submit_both<J: Naming, W: Wait>(
    rt: &W,
    alloc: Global,
    schema: &Schema,
    log: &SharedLog<J>,
    seat: &mut LaneSeat<J>,
) -> Result<(), NoMemory>
    requires schema { schema.now ≡ J.nodes }
    requires some { 0 < length J.opening.receivers }
    requires few { length seat.old.calls + 2 < 2 ^ 32 }
    ensures { seat.new.lane ≡ seat.old.lane }
{
    let ask = everything(alloc)?;
    let establish = Command::Establish { by: 0, ask };
    log.submit(rt, alloc, schema, seat, &establish)?;
    log.submit(rt, alloc, schema, seat, &Command::Tick(5))?;
    Ok(())
}

// The one lane writes, and finishes. Says whether it has.
fn write<J: Naming, W: Wait>(
    rt: &W,
    alloc: Global,
    schema: &Schema,
    log: &SharedLog<J>,
    seats: Vec<LaneSeat<J>>,
) -> Result<bool, NoMemory>
    requires schema { schema.now ≡ J.nodes }
    requires some { 0 < length J.opening.receivers }
    requires one { (length seats.items ≡ J.parts) × (J.parts ≡ 1) }
    requires order { AreOfLanesFrom 1 seats.items }
    requires fresh { count_calls seats.items ≡ 0 }
{
    let mut seats = seats;
    submit_both(rt, alloc, schema, log, &mut seats[0])?;
    Ok(log.finish(rt, seats).is_ok())
}

// The job of the one worker of these receivers, from tick 0 on.
fn job_of<J: Naming>(
    alloc: Global,
    schema: &Schema,
    start: &Start,
    receivers: &[ReceiverInfo],
    reader: LogReader<J>,
) -> Result<FollowerJob<J>, NoMemory>
    requires schema { schema.now ≡ J.nodes }
    requires few { length receivers.now < 2 ^ 32 }
    requires opening { J.opening ≡ first_state receivers.now }
    requires fresh { reader ≡ fresh_reading }
    ensures { IfOk result (λ job. IsReady J.nodes J.opening job.reader.got.entries job.worker job.outboxes.items) }
{
    let worker = Worker::open(alloc, schema, start, receivers, 0, 1)?;
    let (send, _take) = shared(alloc, 4)?;
    let mut outboxes = Vec::with_capacity(alloc, 1)?;
    outboxes.push(Outbox {
        receiver: 0,
        send,
        log: Vec::new(alloc),
    })?;
    Ok(FollowerJob {
        reader,
        worker,
        outboxes,
        whole: false,
    })
}

// Follows the journal by one job.
fn follow<J: Naming + Send + Sync, T: Threads + Wait + Sync>(
    rt: &T,
    alloc: Global,
    schema: &Schema,
    ended: &[AtomicBool],
    job: FollowerJob<J>,
) -> FollowerJob<J>
    requires schema { schema.now ≡ J.nodes }
    requires flags { length ended.now ≡ 1 }
    requires ready { IsReady J.nodes J.opening job.reader.got.entries job.worker job.outboxes.items }
{
    let stopped = AtomicBool::new(true);
    let mut jobs = [job];
    run_followers(rt, alloc, schema, &stopped, ended, &mut jobs);
    let [job] = jobs;
    job
}

// The last outbox of a job that is whole.
fn outbox_of<J: Naming>(job: FollowerJob<J>) -> Option<Outbox> {
    let mut job = job;
    if job.whole { job.outboxes.pop() } else { None }
}

// Follows the journal by one job, whose flag is set then. Gives its outbox where it is whole.
fn followed<J: Naming + Send + Sync, T: Threads + Wait + Sync>(
    rt: &T,
    alloc: Global,
    schema: &Schema,
    job: FollowerJob<J>,
) -> Option<Outbox>
    requires schema { schema.now ≡ J.nodes }
    requires ready { IsReady J.nodes J.opening job.reader.got.entries job.worker job.outboxes.items }
{
    let ended = [AtomicBool::new(false)];
    let job = follow(rt, alloc, schema, &ended, job);
    if ended[0].load(Ordering::SeqCst) {
        outbox_of(job)
    } else {
        None
    }
}

// What the journal goes on from: the state before the first command, the start of the ticks, and the receivers.
#[derive(Clone, Copy, Drop)]
struct Setting<'a> {
    schema: &'a Schema,
    start: &'a Start,
    receivers: &'a [ReceiverInfo],
}

// Opens a journal of one lane, writes it, follows it, and lets it go. Gives the outbox of the follower that is whole.
fn life<J: Naming + Send + Sync, T: Threads + Wait + Sync>(
    rt: &T,
    alloc: Global,
    opened: Opened,
    blank: Blank,
    setting: &Setting,
    state: State,
) -> Result<Option<Outbox>, NoMemory>
    requires book { opened.seen.book ≡ J.book }
    requires name { blank.name ≡ J.name }
    requires parts { (blank.parts ≡ J.parts) × (J.parts ≡ 1) }
    requires schema { setting.now.schema.now ≡ J.nodes }
    requires opening { (J.opening ≡ state) × (state ≡ first_state setting.now.receivers.now) }
    requires few { (0 < length setting.now.receivers.now) × (length setting.now.receivers.now < 2 ^ 32) }
{
    let Setting {
        schema,
        start,
        receivers,
    } = *setting;
    let Parts {
        mut desk,
        seats,
        readers,
    } = open::<J, T>(rt, alloc, opened, blank, state, 1, 1)?;
    let log = SharedLog::over(&mut desk);
    let written = write(rt, alloc, schema, &log, seats);
    log.end();
    let mut readers = readers.readers;
    let outbox = match readers.pop() {
        Some(reader) => match job_of(alloc, schema, start, receivers, reader) {
            Ok(job) => followed(rt, alloc, schema, job),
            Err(_) => None,
        },
        None => None,
    };
    desk.abandon(rt);
    Ok(match written {
        Ok(true) => outbox,
        _ => None,
    })
}

#[test]
fn a_follower_offers_what_a_lane_makes(rt: HostRuntime) -> Result<(), Fail> {
    let alloc = rt.alloc();
    let schema = Schema::read(alloc, &[])?;
    let start = Start::read("2026-01-01T00:00:00Z")?;
    let receivers = [noc(alloc)?];
    let state = State::new(alloc, &schema, &receivers)?;
    let setting = Setting {
        schema: &schema,
        start: &start,
        receivers: &receivers,
    };
    let outbox = life::<Brand, HostRuntime>(
        &rt,
        alloc,
        Opened::new(),
        Blank::new(1),
        &setting,
        state,
    )?;
    let log = outbox.as_ref().map(|outbox| outbox.log.as_slice());
    assert!(rt;
        matches!(log, Some([Logged::Line { kind: PacketKind::Full, line }]) if line.as_str() == FULL)
    );
    Ok(())
}

//! The life of a journal with two lanes and one reader.
ghost use Rattle.std.specs.Prelude.{◌≡◌, ◌+◌, ◌<◌, ◌^◌, length};

use std::alloc::Global;
use std::marker::Brand;
use std::sync::Wait;
use std::sync::ledger::Blank;
use std::test::Fail;
use yp_base::memory::NoMemory;
use yp_journal::command::Command;
use yp_journal::reply::Reply;
use yp_journal::state::State;
use yp_log_share::close::Unclosed;
use yp_log_share::log::SharedLog;
use yp_log_share::opening::{Parts, open};
use yp_log_share::seat::LaneSeat;
use yp_published::history::{Naming, Opened};
use yp_published::reader::LogReader;
use yp_schema::schema::Schema;

// What is told of a call and of the reads around it.
#[derive(Debug, Drop, PartialEq, Eq)]
struct Told {
    position: u64,
    done: bool,
    reads: [u64; 2],
    ended: bool,
}

// The lane goes on to a tick, and the reader reads twice.
fn goes_on<J: Naming, W: Wait>(
    rt: &W,
    alloc: Global,
    schema: &Schema,
    log: &SharedLog<J>,
    seat: &mut LaneSeat<J>,
    reader: &mut LogReader<J>,
) -> Option<Told>
    requires schema { schema.now ≡ J.nodes }
    requires few { length seat.old.calls + 1 < 2 ^ 32 }
    ensures { seat.new.lane ≡ seat.old.lane }
{
    let receipt = log.submit(rt, alloc, schema, seat, &Command::Tick(5)).ok()?;
    let mut entries = Vec::new(alloc);
    let first = reader.catch_up(alloc, &mut entries).ok()?;
    let second = reader.catch_up(alloc, &mut entries).ok()?;
    Some(Told {
        position: receipt.position,
        done: matches!(receipt.reply, Reply::Done),
        reads: [first, second],
        ended: reader.ended(),
    })
}

// What is told of an end.
#[derive(Debug, Drop, PartialEq, Eq)]
struct Ended {
    read: u64,
    ended: bool,
}

// The reader reads after the end.
fn reads_the_end<J: Naming>(alloc: Global, reader: &mut LogReader<J>) -> Option<Ended> {
    let mut entries = Vec::new(alloc);
    let read = reader.catch_up(alloc, &mut entries).ok()?;
    Some(Ended {
        read,
        ended: reader.ended(),
    })
}

// What is told of the whole: the call, the end, how many entries there are, and how many calls the lanes have.
type Life = (Option<Told>, Option<Ended>, usize, usize);

// Opens a journal of two lanes, of which the first has a call, and closes it.
fn life<J: Naming, W: Wait>(
    rt: &W,
    alloc: Global,
    opened: Opened,
    blank: Blank,
    schema: &Schema,
    state: State,
) -> Result<Life, Fail>
    requires book { opened.seen.book ≡ J.book }
    requires name { blank.name ≡ J.name }
    requires parts { (blank.parts ≡ J.parts) × (J.parts ≡ 2) }
    requires schema { schema.now ≡ J.nodes }
    requires opening { J.opening ≡ state }
{
    let Parts {
        mut desk,
        mut seats,
        readers,
    } = open::<J, W>(rt, alloc, opened, blank, state, 2, 1)?;
    let mut readers = readers.readers;
    let log = SharedLog::over(&mut desk);
    let told = goes_on(rt, alloc, schema, &log, &mut seats[0], &mut readers[0]);
    let finished = log.finish(rt, seats);
    let ended = reads_the_end(alloc, &mut readers[0]);
    log.end();
    let finished = match finished {
        Ok(finished) => finished,
        Err(_) => {
            desk.abandon(rt);
            return Err(Fail::from(NoMemory));
        }
    };
    match desk.close(rt, alloc, finished, readers) {
        Ok(closed) => {
            let calls = closed.lanes.iter().map(|lane| lane.calls.len()).sum();
            Ok((told, ended, closed.entries.len(), calls))
        }
        Err(unclosed) => {
            let Unclosed {
                desk,
                finished: _,
                readers: _,
            } = unclosed;
            desk.abandon(rt);
            Err(Fail::from(NoMemory))
        }
    }
}

#[test]
fn a_lane_writes_what_a_reader_reads(rt: HostRuntime) -> Result<(), Fail> {
    let alloc = rt.alloc();
    let schema = Schema::read(alloc, &[])?;
    let state = State::new(alloc, &schema, &[])?;
    let (told, ended, entries, calls) = life::<Brand, HostRuntime>(
        &rt,
        alloc,
        Opened::new(),
        Blank::new(2),
        &schema,
        state,
    )?;
    assert_eq!(rt;
        told,
        Some(Told {
            position: 1,
            done: true,
            reads: [1, 0],
            ended: false
        })
    );
    assert_eq!(rt;
        ended,
        Some(Ended {
            read: 0,
            ended: true
        })
    );
    assert_eq!(rt; (entries, calls), (1, 1));
    Ok(())
}

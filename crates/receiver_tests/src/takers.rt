//! Receivers that take what others send, and hear it.
ghost use Rattle.std.specs.Prelude.{◌≡◌, ◌<◌, [], length};

use crate::ports::ports;
use std::alloc::Global;
use std::sync::Wait;
use std::sync::atomic::{AtomicBool, AtomicU64, Ordering};
use std::test::Fail;
use std::thread::Threads;
use yp_base::memory::NoMemory;
use yp_base::txt::text_of;
use yp_gate::{Gate, Moment};
use yp_queue::packet::{Offered, Packet, PacketKind};
use yp_queue_share::passes::{TakePass, shared};
use yp_receiver::receiver::Receiver;
use yp_schema::schema::Schema;
use yp_takers::taker::{TakerJob, run_takers};

// What the receiver was told before it takes on.
const BEFORE: &str =
    r#"{"ietf-restconf:notification":{"eventTime":"2026-01-01T00:00:00Z","ietf-yang-push:push-update":{"id":8,"datastore-contents":{"acme:port":[{"name":"lo"}]}}}}"#;

const FULL: &str =
    r#"{"ietf-restconf:notification":{"eventTime":"2026-01-01T00:00:00Z","ietf-yang-push:push-update":{"id":9,"datastore-contents":{"acme:port":[{"name":"lo","mtu":65535},{"name":"eth0"}]}}}}"#;

const CHANGES: &str =
    r#"{"ietf-restconf:notification":{"eventTime":"2026-01-01T00:00:00Z","ietf-yang-push:push-change-update":{"id":9,"datastore-changes":{"yang-patch":{"patch-id":"1","edit":[{"edit-id":"1","operation":"delete","target":"/acme:port=eth0"}]}}}}}"#;

// A packet of this line.
fn packet(alloc: Global, line: &str) -> Result<Packet, NoMemory> {
    Ok(Packet {
        sub: 9,
        position: 1,
        kind: PacketKind::Full,
        line: text_of(alloc, line)?,
    })
}

// A receiver that holds this, and took nothing of its queue.
fn taker(alloc: Global, take: TakePass, heard: Receiver) -> TakerJob
    requires { take.taken ≡ [] }
    ensures worker { result.worker ≡ 0 }
    ensures kept { result.taken.items ≡ result.take.taken }
{
    TakerJob {
        receiver: 0,
        worker: 0,
        take,
        taken: Vec::new(alloc),
        heard,
        whole: false,
    }
}

// How often it was called.
#[derive(Drop)]
struct Counting {
    calls: AtomicU64,
}

impl Gate for Counting {
    fn at(&self, _place: Moment) {
        self.calls.fetch_add(1, Ordering::SeqCst);
    }
}

// Runs one receiver until its worker has ended.
fn run_one<T: Threads + Wait + Sync, G: Gate>(
    rt: &T,
    alloc: Global,
    schema: &Schema,
    gate: &G,
    ended: &[AtomicBool],
    job: TakerJob,
) -> TakerJob
    requires worker { job.worker < length ended.now }
    requires kept { job.taken.items ≡ job.take.taken }
{
    let mut jobs = [job];
    run_takers(rt, alloc, schema, gate, ended, &mut jobs);
    let [job] = jobs;
    job
}

#[test]
fn a_receiver_goes_on_from_what_it_holds(rt: HostRuntime) -> Result<(), Fail> {
    let alloc = rt.alloc();
    let schema = ports(alloc)?;
    let mut heard = Receiver::new(alloc);
    heard.take_line(alloc, &schema, BEFORE.as_bytes())?;
    let (mut send, take) = shared(alloc, 4)?;
    for line in [FULL, CHANGES] {
        assert!(rt; matches!(send.offer(&rt, packet(alloc, line)?), Offered::Took));
    }
    let gate = Counting {
        calls: AtomicU64::new(0),
    };
    let ended = [AtomicBool::new(true)];
    let job = taker(alloc, take, heard);
    let job = run_one(&rt, alloc, &schema, &gate, &ended, job);
    assert!(rt; job.whole);
    assert_eq!(rt; job.taken.len(), 2);
    assert_eq!(rt; job.heard.ids(alloc)?.as_slice(), [8, 9].as_slice());
    assert_eq!(rt; gate.calls.load(Ordering::SeqCst), 2);
    Ok(())
}

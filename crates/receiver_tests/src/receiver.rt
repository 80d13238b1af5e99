//! What a receiver holds after lines of each kind, a faulty one among them, and after edits for which memory
//! may run out.
ghost use Rattle.std.specs.Prelude.{◌≡◌, ◌<◌};

use crate::ports::ports;
use std::alloc::{AllocError, Global};
use std::marker::Brand;
use std::sync::ledger::{Blank, Ledger};
use std::test::Fail;
use yp_base::memory::NoMemory;
use yp_base::steps::Steps;
use yp_receiver::receiver::Receiver;
use yp_schema::schema::Schema;

const FULL: &str =
    r#"{"id":9,"datastore-contents":{"acme:port":[{"name":"lo","mtu":65535},{"name":"eth0"}]}}"#;

const CHANGES: &str =
    r#"{"id":9,"datastore-changes":{"yang-patch":{"patch-id":"1","edit":[{"edit-id":"1","operation":"replace","target":"/acme:port=lo","value":{"acme:port":[{"name":"lo"}]}},{"edit-id":"2","operation":"delete","target":"/acme:port=eth0"},{"edit-id":"3","operation":"create","target":"/acme:port=eth1/mtu","value":{"acme:mtu":9000}}]}}}"#;

// A port goes, another loses its mtu, and the first gets its mtu alone.
const SEVERAL: &str =
    r#"{"id":9,"datastore-changes":{"yang-patch":{"patch-id":"1","edit":[{"edit-id":"1","operation":"delete","target":"/acme:port=p0"},{"edit-id":"2","operation":"delete","target":"/acme:port=p1/mtu"},{"edit-id":"3","operation":"create","target":"/acme:port=p0/mtu","value":{"acme:mtu":9000}}]}}}"#;

const FIRST: &str =
    r#"{"id":7,"datastore-changes":{"yang-patch":{"patch-id":"2","edit":[{"edit-id":"1","operation":"create","target":"/acme:port=eth2","value":{"acme:port":[{"name":"eth2","mtu":1500}]}}]}}}"#;

const SMALL: &str = r#"{"id":9,"datastore-contents":{}}"#;

// The line of a notice of this name and body.
fn line_of(alloc: Global, name: &str, body: &str) -> Result<String, AllocError> {
    format!(in alloc;
        "{{\"ietf-restconf:notification\":{{\"eventTime\":\"2026-01-01T00:00:00Z\",\"{name}\":{body}}}}}"
    )
}

// How many rows are held of a subscription, where it had an update.
fn count(alloc: Global, receiver: &Receiver, id: u32) -> Result<Option<usize>, NoMemory> {
    count_by::<Brand>(alloc, receiver, id, Blank::new(1))
}

// The same, with a ledger for the visits.
fn count_by<L: Ledger>(
    alloc: Global,
    receiver: &Receiver,
    id: u32,
    blank: Blank,
) -> Result<Option<usize>, NoMemory>
    requires name { blank.name ≡ L.name }
    requires parts { blank.parts ≡ L.parts }
    requires some { 0 < L.parts }
{
    let mut steps = Steps::<L>::open(blank);
    match receiver.holding(id) {
        Some(holding) => {
            let rows = holding.rows(alloc, &mut steps)?;
            Ok(Some(rows.len()))
        }
        None => Ok(None),
    }
}

#[test]
fn lines_make_the_rows_of_each_subscription(rt: HostRuntime) -> Result<(), Fail> {
    let alloc = rt.alloc();
    let schema = ports(alloc)?;
    let mut receiver = Receiver::new(alloc);
    for (name, body, is_taken, of_nine, of_seven) in [
        (
            "ietf-subscribed-notifications:subscription-started",
            r#"{"id":9}"#,
            true,
            None,
            None,
        ),
        ("ietf-yang-push:push-update", FULL, true, Some(3), None),
        (
            "ietf-yang-push:push-change-update",
            CHANGES,
            true,
            Some(2),
            None,
        ),
        (
            "ietf-yang-push:push-change-update",
            FIRST,
            true,
            Some(2),
            Some(2),
        ),
        ("acme:started", r#"{"id":9}"#, false, Some(2), Some(2)),
        ("ietf-yang-push:push-update", SMALL, true, Some(0), Some(2)),
        (
            "ietf-subscribed-notifications:subscription-resumed",
            r#"{"id":7}"#,
            true,
            Some(0),
            Some(2),
        ),
    ] {
        let line = line_of(alloc, name, body)?;
        let taken = receiver.take_line(alloc, &schema, line.as_bytes());
        assert_eq!(rt; taken.is_ok(), is_taken, "{line}");
        assert_eq!(rt; count(alloc, &receiver, 9)?, of_nine, "{line}");
        assert_eq!(rt; count(alloc, &receiver, 7)?, of_seven, "{line}");
    }
    let ids = receiver.ids(alloc)?;
    assert_eq!(rt; ids.len(), 2);
    for (id, want) in ids.as_slice().iter().zip(&[7, 9]) {
        assert_eq!(rt; *id, *want);
    }
    Ok(())
}

// The body of a full update of so many ports, each with a name and an mtu.
fn full_of(alloc: Global, count: usize) -> Result<String, AllocError> {
    let mut ports = String::new(alloc);
    for number in 0..count {
        let comma = if number == 0 { "" } else { "," };
        write!(ports, "{comma}{{\"name\":\"p{number}\",\"mtu\":1500}}")?;
    }
    let ports = ports.as_str();
    format!(in alloc; "{{\"id\":9,\"datastore-contents\":{{\"acme:port\":[{ports}]}}}}")
}

// Some of the edits never leave as many rows as there were before. Run it by `rt try --test --fail-alloc N`
// too: whichever allocation fails, all edits are made or none, and they can be taken again.
#[test]
fn several_edits_are_made_all_or_none(rt: HostRuntime) -> Result<(), Fail> {
    let alloc = rt.alloc();
    let schema = ports(alloc)?;
    let changes = line_of(alloc, "ietf-yang-push:push-change-update", SEVERAL)?;
    for (number, before, after) in [(2, 4, 2), (40, 80, 78)] {
        let mut receiver = Receiver::new(alloc);
        let body = full_of(alloc, number)?;
        let full = line_of(alloc, "ietf-yang-push:push-update", body.as_str())?;
        receiver.take_line(alloc, &schema, full.as_bytes())?;
        if receiver
            .take_line(alloc, &schema, changes.as_bytes())
            .is_err()
        {
            assert_eq!(rt; count(alloc, &receiver, 9)?, Some(before), "{number} ports");
            receiver.take_line(alloc, &schema, changes.as_bytes())?;
        }
        assert_eq!(rt; count(alloc, &receiver, 9)?, Some(after), "{number} ports");
    }
    Ok(())
}

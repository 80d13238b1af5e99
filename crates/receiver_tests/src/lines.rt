//! What `yp_decode` reads: a line of each kind, one of each fault, and a change update with its edits.
use crate::ports::ports;
use std::alloc::{AllocError, Global};
use std::test::Fail;
use yp_base::notice::{ChangeKind, Notice};
use yp_decode::fault::StreamFault;
use yp_decode::line::{Heard, read_line};
use yp_schema::schema::Schema;

const CHANGES: &str =
    r#"{"id":7,"incomplete-update":[null],"datastore-changes":{"yang-patch":{"patch-id":"18446744073709551615","edit":[{"edit-id":"a","operation":"delete","target":"/acme:port=lo"},{"edit-id":"b","operation":"replace","target":"/acme:port=eth0","value":{"acme:port":[{"name":"eth0","mtu":1500}]}},{"edit-id":"c","operation":"create","target":"/acme:port=eth1/mtu","value":{"acme:mtu":9000}}]}}}"#;

// The line of a notice of this name and body, whose event time stands last.
fn line_of(alloc: Global, name: &str, body: &str) -> Result<String, AllocError> {
    format!(in alloc;
        "{{\"ietf-restconf:notification\":{{\"{name}\":{body},\"eventTime\":\"2026-01-01T00:00:00Z\"}}}}"
    )
}

// The name of what was heard, with the number of its subscription.
fn told(heard: Result<Heard, StreamFault>) -> (&'static str, u32) {
    match heard {
        Ok(heard) => match heard.notice {
            Notice::Full { id, .. } => ("full", id),
            Notice::Changes { id, .. } => ("changes", id),
            Notice::Started { id } => ("started", id),
            Notice::Modified { id } => ("modified", id),
            Notice::Suspended { id } => ("suspended", id),
            Notice::Resumed { id } => ("resumed", id),
            Notice::Terminated { id } => ("terminated", id),
        },
        Err(StreamFault::NotJson) => ("not json", 0),
        Err(StreamFault::Envelope) => ("envelope", 0),
        Err(StreamFault::UnknownNotice) => ("unknown notice", 0),
        Err(StreamFault::Member) => ("member", 0),
        Err(StreamFault::Target(_)) => ("target", 0),
        Err(StreamFault::Data(_)) => ("data", 0),
        Err(StreamFault::Memory) => ("memory", 0),
    }
}

#[test]
fn lines_of_each_kind_and_of_each_fault_are_told(rt: HostRuntime) -> Result<(), Fail> {
    let alloc = rt.alloc();
    let schema = ports(alloc)?;
    for (name, body, want) in [
        (
            "ietf-yang-push:push-update",
            r#"{"datastore-contents":{"acme:port":[{"name":"lo"}]},"id":4294967295}"#,
            ("full", 4294967295),
        ),
        ("ietf-yang-push:push-change-update", CHANGES, ("changes", 7)),
        (
            "ietf-subscribed-notifications:subscription-started",
            r#"{"id":1}"#,
            ("started", 1),
        ),
        (
            "ietf-subscribed-notifications:subscription-modified",
            r#"{"id":2}"#,
            ("modified", 2),
        ),
        (
            "ietf-subscribed-notifications:subscription-suspended",
            r#"{"id":3,"reason":"ietf-subscribed-notifications:unsupportable-volume"}"#,
            ("suspended", 3),
        ),
        (
            "ietf-subscribed-notifications:subscription-resumed",
            r#"{"id":4}"#,
            ("resumed", 4),
        ),
        (
            "ietf-subscribed-notifications:subscription-terminated",
            r#"{"id":5,"reason":"ietf-subscribed-notifications:no-such-subscription"}"#,
            ("terminated", 5),
        ),
        ("acme:started", "{", ("not json", 0)),
        ("acme:started", r#"{},"more":1"#, ("envelope", 0)),
        ("acme:started", r#"{"id":1}"#, ("unknown notice", 0)),
        (
            "ietf-subscribed-notifications:subscription-started",
            r#"{"id":1.0}"#,
            ("member", 0),
        ),
        (
            "ietf-yang-push:push-change-update",
            r#"{"id":1,"datastore-changes":{"yang-patch":{"patch-id":"0","edit":[{"edit-id":"1","operation":"delete","target":"/acme:port=lo/name"}]}}}"#,
            ("target", 0),
        ),
        (
            "ietf-yang-push:push-update",
            r#"{"datastore-contents":[],"id":1}"#,
            ("data", 0),
        ),
    ] {
        let line = line_of(alloc, name, body)?;
        assert_eq!(rt;
            told(read_line(alloc, &schema, line.as_bytes())),
            want,
            "{line}"
        );
    }
    Ok(())
}

#[test]
fn a_change_update_has_its_edits_in_order(rt: HostRuntime) -> Result<(), Fail> {
    let alloc = rt.alloc();
    let schema = ports(alloc)?;
    let line = line_of(alloc, "ietf-yang-push:push-change-update", CHANGES)?;
    let heard = read_line(alloc, &schema, line.as_bytes())?;
    assert_eq!(rt; heard.time.as_str(), "2026-01-01T00:00:00Z");
    match &heard.notice {
        Notice::Changes {
            patch_id,
            changes,
            incomplete,
            ..
        } => {
            assert_eq!(rt; *patch_id, 18446744073709551615);
            assert!(rt; *incomplete);
            assert_eq!(rt; changes.len(), 3);
            for (change, (kind, segments, rows)) in changes.items().iter().zip(&[
                (ChangeKind::Delete, 1, 0),
                (ChangeKind::Replace, 1, 2),
                (ChangeKind::Create, 2, 1),
            ]) {
                assert_eq!(rt; change.kind, *kind);
                assert_eq!(rt; change.target.len(), *segments);
                assert_eq!(rt; change.rows.len(), *rows);
            }
        }
        _ => assert!(rt; false),
    }
    Ok(())
}

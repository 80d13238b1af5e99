//! The trees of streams, and the first fault of each kind.
use std::alloc::{AllocError, Global};
use std::test::Fail;
use yp_replay::fault::ReplayFault;
use yp_replay::replay::replay_text;

// Ports with a name, and with an mtu in a part of its own.
const PORTS: &str =
    r#"{"schema":[{"path":"/acme:port","kind":"list","keys":["name"]},{"path":"/acme:port/name","kind":"leaf","type":"string"}]}"#;

const MTU: &str = r#" {"schema":[{"path":"/acme:port/mtu","kind":"leaf","type":"uint16"}]}"#;

// A subscription of a larger id comes first, and one of them has a leaf below an entry that isn't held.
const FULL: &str =
    r#"{"ietf-restconf:notification":{"eventTime":"2026-01-01T00:00:00.00Z","ietf-yang-push:push-update":{"datastore-contents":{"acme:port":[{"name":"lo","mtu":65535},{"name":"eth0"}]},"id":10}}}"#;

const CHANGES: &str =
    r#"{"ietf-restconf:notification":{"eventTime":"2026-01-01T00:00:00.00Z","ietf-yang-push:push-change-update":{"datastore-changes":{"yang-patch":{"edit":[{"edit-id":"1","operation":"delete","target":"/acme:port=lo"},{"edit-id":"2","operation":"create","target":"/acme:port=eth1/mtu","value":{"acme:mtu":9000}}],"patch-id":"2"}},"id":10}}}"#;

const EMPTY: &str =
    r#"{"ietf-restconf:notification":{"eventTime":"2026-01-01T00:00:00.00Z","ietf-yang-push:push-update":{"datastore-contents":{},"id":9}}}"#;

// It has no trees.
const STARTED: &str =
    r#"{"ietf-restconf:notification":{"eventTime":"2026-01-01T00:00:00.00Z","ietf-subscribed-notifications:subscription-started":{"id":8}}}"#;

const MERGE: &str =
    r#"{"ietf-restconf:notification":{"eventTime":"2026-01-01T00:00:00.00Z","ietf-yang-push:push-change-update":{"datastore-changes":{"yang-patch":{"edit":[{"edit-id":"1","operation":"merge","target":"/port","value":{}}],"patch-id":"2"}},"id":10}}}"#;

const BARE_TARGET: &str =
    r#"{"ietf-restconf:notification":{"eventTime":"2026-01-01T00:00:00.00Z","ietf-yang-push:push-change-update":{"datastore-changes":{"yang-patch":{"edit":[{"edit-id":"1","operation":"create","target":"/acme:port=lo","value":{}},{"edit-id":"2","operation":"delete","target":"/port"}],"patch-id":"2"}},"id":10}}}"#;

const OTHER_DATA: &str =
    r#"{"ietf-restconf:notification":{"eventTime":"2026-01-01T00:00:00.00Z","ietf-yang-push:push-update":{"datastore-contents":{"acme:box":1},"id":9}}}"#;

const UNKNOWN: &str =
    r#"{"ietf-restconf:notification":{"eventTime":"2026-01-01T00:00:00.00Z","acme:started":{"id":-1}}}"#;

// A stream of these lines.
fn stream_of(alloc: Global, lines: &[&str]) -> Result<String, AllocError> {
    let mut text = String::new(alloc);
    for line in lines {
        text.push_str(line)?;
        text.push_str("\n")?;
    }
    Ok(text)
}

// What is told of a stream: by which words, of which line, with which number.
fn told(replayed: Result<String, ReplayFault>) -> (&'static str, u32, u32) {
    match replayed {
        Ok(_) => ("text", 0, 0),
        Err(ReplayFault::Script { line, kind }) => ("script", line, kind.number()),
        Err(ReplayFault::Stream { line, kind }) => ("stream", line, kind.number()),
        Err(ReplayFault::Memory) => ("memory", 0, 0),
    }
}

#[test]
fn a_stream_is_replayed_as_its_trees_by_ascending_ids(rt: HostRuntime) -> Result<(), Fail> {
    let alloc = rt.alloc();
    let lines = ["", PORTS, MTU, "\t \r", FULL, STARTED, EMPTY, CHANGES];
    let stream = stream_of(alloc, &lines)?;
    let text = replay_text(alloc, stream.as_bytes())?;
    assert_eq!(rt;
        text.as_str(),
        "tree 9 {}\ntree 10 {\"acme:port\":[{\"name\":\"eth0\"},{\"mtu\":9000,\"name\":\"eth1\"}]}\nend\n"
    );
    Ok(())
}

#[test]
fn the_first_line_with_a_fault_is_told(rt: HostRuntime) -> Result<(), Fail> {
    let alloc = rt.alloc();
    let start = r#"{"start":"2026-01-01T00:00:00Z"}"#;
    let wrong_start = r#"{"start":7}"#;
    let wrong_part = r#"{"schema":1}"#;
    let more = r#"{"schema":[],"more":1}"#;
    for (one, two, three, four, want) in [
        ("", "", "", "", ("script", 5, 8)),
        ("", PORTS, "", "", ("text", 0, 0)),
        ("", FULL, PORTS, "x", ("script", 2, 3)),
        (start, "", "", "", ("script", 1, 8)),
        (wrong_start, "", "", "", ("script", 1, 4)),
        ("{", PORTS, "", "", ("script", 1, 2)),
        (PORTS, "", MTU, PORTS, ("script", 4, 5)),
        (PORTS, MTU, wrong_part, "x", ("script", 3, 5)),
        (PORTS, more, "", "x", ("stream", 2, 2)),
        (PORTS, STARTED, MTU, "x", ("stream", 3, 2)),
        (PORTS, "", "x", UNKNOWN, ("stream", 3, 1)),
        (PORTS, EMPTY, UNKNOWN, MERGE, ("stream", 3, 3)),
        (PORTS, MTU, FULL, MERGE, ("stream", 4, 4)),
        (PORTS, MTU, FULL, BARE_TARGET, ("stream", 4, 5)),
        (PORTS, OTHER_DATA, "", "", ("stream", 2, 6)),
    ] {
        let stream = stream_of(alloc, &[one, two, three, four])?;
        assert_eq!(rt;
            told(replay_text(alloc, stream.as_bytes())),
            want,
            "{stream}"
        );
    }
    Ok(())
}

#[test]
fn a_line_that_is_no_text_is_no_notification(rt: HostRuntime) -> Result<(), Fail> {
    let alloc = rt.alloc();
    let mut stream = Vec::new(alloc);
    for byte in PORTS.as_bytes() {
        stream.push(*byte)?;
    }
    for byte in [b'\n', 0xff, 0xfe] {
        stream.push(byte)?;
    }
    assert_eq!(rt;
        told(replay_text(alloc, stream.as_slice())),
        ("stream", 2, 1)
    );
    Ok(())
}

#[test]
fn of_several_faults_in_a_line_the_least_is_told(rt: HostRuntime) -> Result<(), Fail> {
    let alloc = rt.alloc();
    for (time, notice, number) in [
        ("now", r#""x:y":{}}"#, 1),
        (
            "now",
            r#""ietf-subscribed-notifications:subscription-started":{"id":"x"}"#,
            2,
        ),
        (
            "2026-01-01T00:00:00Z",
            r#""ietf-yang-push:push-updates":[]"#,
            3,
        ),
        (
            "2026-01-01T00:00:00Z",
            r#""ietf-subscribed-notifications:subscription-started":{"id":4294967296}"#,
            4,
        ),
        (
            "2026-01-01T00:00:00Z",
            r#""ietf-yang-push:push-change-update":{"id":1,"datastore-changes":{"yang-patch":{"patch-id":"0","edit":[{"edit-id":"1","operation":"delete","target":"/acme:nope"},{"edit-id":"1","operation":"delete","target":"/acme:port=lo"}]}}}"#,
            4,
        ),
        (
            "2026-01-01T00:00:00Z",
            r#""ietf-yang-push:push-change-update":{"id":1,"datastore-changes":{"yang-patch":{"patch-id":"007","edit":[{"edit-id":"1","operation":"create","target":"/acme:port=lo","value":{"acme:port":[{"name":"lo","mtu":"x"}]}}]}}}"#,
            4,
        ),
        (
            "2026-01-01T00:00:00Z",
            r#""ietf-yang-push:push-change-update":{"id":1,"datastore-changes":{"yang-patch":{"patch-id":"0","edit":[{"edit-id":"1","operation":"replace","target":"/acme:port=lo","value":{"acme:port":[{"name":"lo","mtu":"x"}]}},{"edit-id":"2","operation":"delete","target":"/acme:port=lo/name"}]}}}"#,
            5,
        ),
        (
            "2026-01-01T00:00:00Z",
            r#""ietf-yang-push:push-change-update":{"id":1,"datastore-changes":{"yang-patch":{"patch-id":"0","edit":[{"edit-id":"1","operation":"create","target":"/acme:port=lo","value":{"acme:port":[{"mtu":1}]}}]}}}"#,
            6,
        ),
    ] {
        let line = format!(in alloc;
            "{{\"ietf-restconf:notification\":{{\"eventTime\":\"{time}\",{notice}}}}}"
        )?;
        let stream = stream_of(alloc, &[PORTS, MTU, line.as_str()])?;
        assert_eq!(rt;
            told(replay_text(alloc, stream.as_bytes())),
            ("stream", 3, number),
            "{line}"
        );
    }
    Ok(())
}

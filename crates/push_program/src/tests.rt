//! What no script shows: the arguments, and sources and sinks that fail at each of their calls in turn.
//! Whole scripts, each with its report, stand in the folder `cases` at the top; the built program runs them.
use crate::top::{Status, push_main};
use std::alloc::Global;
use std::sync::Wait;
use std::test::Fail;
use std::thread::Threads;
use yp_base::memory::NoMemory;
use yp_base::txt::{Txt, text_of};
use yp_command::fault::ScriptKind;
use yp_gate::NoGate;
use yp_io::memory::{MemSink, MemSource};
use yp_io::source::{Got, Source};
use yp_replay::fault::StreamKind;

const START: &str = r#"{"start":"2026-01-01T00:00:00Z"}
"#;

const SCHEMA: &str =
    r#"{"schema":[{"path":"/acme:interfaces","kind":"container"},{"path":"/acme:interfaces/interface","kind":"list","keys":["name"]},{"path":"/acme:interfaces/interface/name","kind":"leaf","type":"string"},{"path":"/acme:interfaces/interface/mtu","kind":"leaf","type":"uint16"},{"path":"/acme:interfaces/interface/enabled","kind":"leaf","type":"boolean"},{"path":"/acme:interfaces/interface/secret","kind":"leaf","type":"string","deny-all":true},{"path":"/acme:interfaces/interface/stats","kind":"container"},{"path":"/acme:interfaces/interface/stats/in","kind":"leaf","type":"uint64"}]}
"#;

const RECEIVER: &str = r#"{"receiver":{"name":"r1","user":"ann","queue":4,"take":"auto"}}
"#;

const ESTABLISH: &str =
    r#"{"establish":{"by":"r1","datastore":"ietf-datastores:operational","on-change":{}}}
"#;

const REPORT: &str = r#"reply 1 0 1 {"id":2147483648}
to r1 {"ietf-restconf:notification":{"eventTime":"2026-01-01T00:00:00.00Z","ietf-yang-push:push-update":{"datastore-contents":{},"id":2147483648}}}
tree r1 2147483648 {}
end
"#;

// Lines one after another.
fn joined(alloc: Global, lines: &[&str]) -> Result<String, NoMemory> {
    let mut text = String::new(alloc);
    for line in lines {
        text.push_str(*line)?;
    }
    Ok(text)
}

// The one argument `run`.
fn run_words(alloc: Global) -> Result<Vec<Txt>, NoMemory> {
    let word = text_of(alloc, "run")?;
    let mut words = Vec::new(alloc);
    words.push(word)?;
    Ok(words)
}

// The text of a script with one subscription.
fn script(alloc: Global) -> Result<Vec<u8>, NoMemory> {
    Ok(joined(alloc, &[START, SCHEMA, RECEIVER, ESTABLISH])?.into_bytes())
}

// How a run ends whose source gives at most so many bytes at a call and fails at a call, and whether
// the whole report was written, or nothing where it fails.
fn reads<T: Threads + Wait + Sync>(
    rt: &T,
    alloc: Global,
    most: usize,
    failing: u64,
    want: Status,
) -> Result<bool, NoMemory> {
    let failing = vec![in alloc; failing]?;
    let mut source = MemSource::new(script(alloc)?, most.max(1), failing);
    let mut sink = MemSink::with_room(alloc, 1000, 1000, Vec::new(alloc))?;
    let words = run_words(alloc)?;
    let status = push_main(rt, alloc, words.as_slice(), &mut source, &mut sink, &NoGate);
    let whole = if want == Status::Done { REPORT } else { "" };
    Ok(status == want && sink.bytes() == whole.as_bytes())
}

#[test]
fn pieces_of_any_length_make_the_same_script(rt: HostRuntime) -> Result<(), Fail> {
    let alloc = rt.alloc();
    for most in [1, 2, 3, 31, 760, 761, 5000] {
        assert!(rt;
            reads(&rt, alloc, most, 10_000, Status::Done)?,
            "{most} bytes at a call"
        );
    }
    Ok(())
}

#[test]
fn a_read_that_fails_is_told_before_the_script_and_nothing_is_written(
    rt: HostRuntime,
) -> Result<(), Fail> {
    let alloc = rt.alloc();
    assert_eq!(rt; script(alloc)?.len(), 761);
    for call in 1..=9 {
        assert!(rt;
            reads(&rt, alloc, 100, call, Status::ReadFault)?,
            "call {call}"
        );
    }
    assert!(rt; reads(&rt, alloc, 100, 10, Status::Done)?);
    assert!(rt; reads(&rt, alloc, 761, 2, Status::ReadFault)?);
    assert!(rt; reads(&rt, alloc, 761, 3, Status::Done)?);
    assert!(rt; reads(&rt, alloc, 1, 762, Status::ReadFault)?);
    assert!(rt; reads(&rt, alloc, 1, 763, Status::Done)?);
    let words = run_words(alloc)?;
    let text = joined(alloc, &["x\n", START])?;
    let mut source = MemSource::new(text.into_bytes(), 4096, vec![in alloc; 2u64]?);
    let mut sink = MemSink::with_room(alloc, 0, 10, Vec::new(alloc))?;
    let status = push_main(
        &rt,
        alloc,
        words.as_slice(),
        &mut source,
        &mut sink,
        &NoGate,
    );
    assert!(rt; status == Status::ReadFault);
    let text = joined(alloc, &[START, "x\n"])?;
    let mut source = MemSource::new(text.into_bytes(), 4096, Vec::new(alloc));
    let status = push_main(
        &rt,
        alloc,
        words.as_slice(),
        &mut source,
        &mut sink,
        &NoGate,
    );
    let kind = ScriptKind::NotJson;
    assert!(rt; status == Status::BadScript { line: 2, kind });
    Ok(())
}

// How a run ends whose sink takes at most so many bytes at a call and fails at a call, and whether so
// many bytes of the report were written.
fn writes<T: Threads + Wait + Sync>(
    rt: &T,
    alloc: Global,
    most: usize,
    failing: u64,
    want: Status,
    written: usize,
) -> Result<bool, NoMemory> {
    let mut source = MemSource::new(script(alloc)?, 4096, Vec::new(alloc));
    let failing = vec![in alloc; failing]?;
    let mut sink = MemSink::with_room(alloc, 1000, most.max(1), failing)?;
    let words = run_words(alloc)?;
    let status = push_main(rt, alloc, words.as_slice(), &mut source, &mut sink, &NoGate);
    let bytes = sink.bytes();
    Ok(status == want && bytes.len() == written && REPORT.as_bytes().starts_with(bytes))
}

// How a run ends whose sink has room for so many bytes.
fn fits<T: Threads + Wait + Sync>(
    rt: &T,
    alloc: Global,
    room: usize,
    want: Status,
) -> Result<bool, NoMemory> {
    let mut source = MemSource::new(script(alloc)?, 4096, Vec::new(alloc));
    let mut sink = MemSink::with_room(alloc, room, 1000, Vec::new(alloc))?;
    let words = run_words(alloc)?;
    let status = push_main(rt, alloc, words.as_slice(), &mut source, &mut sink, &NoGate);
    let bytes = sink.bytes();
    Ok(status == want && bytes.len() == room && REPORT.as_bytes().starts_with(bytes))
}

#[test]
fn a_write_that_fails_or_finds_no_room_is_told_after_a_prefix_of_the_report(
    rt: HostRuntime,
) -> Result<(), Fail> {
    let alloc = rt.alloc();
    assert_eq!(rt; REPORT.len(), 204);
    assert!(rt; writes(&rt, alloc, 40, 3, Status::WriteFault, 80)?);
    for (call, written) in [(1, 0), (2, 40), (3, 80), (4, 120), (5, 160), (6, 200)] {
        assert!(rt;
            writes(&rt, alloc, 40, call, Status::WriteFault, written)?,
            "call {call}"
        );
    }
    assert!(rt; writes(&rt, alloc, 40, 7, Status::Done, 204)?);
    assert!(rt; writes(&rt, alloc, 1, 204, Status::WriteFault, 203)?);
    assert!(rt; writes(&rt, alloc, 1, 205, Status::Done, 204)?);
    assert!(rt; fits(&rt, alloc, 0, Status::WriteFault)?);
    assert!(rt; fits(&rt, alloc, 3, Status::WriteFault)?);
    assert!(rt; fits(&rt, alloc, 203, Status::WriteFault)?);
    assert!(rt; fits(&rt, alloc, 204, Status::Done)?);
    Ok(())
}

// Whether arguments are refused, with nothing read and nothing written.
fn are_bad<T: Threads + Wait + Sync>(
    rt: &T,
    alloc: Global,
    texts: &[&str],
) -> Result<bool, NoMemory> {
    let mut words = Vec::new(alloc);
    for text in texts {
        words.push(text_of(alloc, *text)?)?;
    }
    let mut source = MemSource::new(script(alloc)?, 4096, Vec::new(alloc));
    let mut sink = MemSink::with_room(alloc, 1000, 1000, Vec::new(alloc))?;
    let status = push_main(rt, alloc, words.as_slice(), &mut source, &mut sink, &NoGate);
    let mut first = [0u8; 9];
    let unread = source.read(&mut first) == Got::Bytes(9)
        && first.as_slice() == b"{\"start\":".as_slice();
    Ok(status == Status::BadWords && unread && sink.bytes().is_empty())
}

#[test]
fn other_arguments_are_refused_and_nothing_is_read(rt: HostRuntime) -> Result<(), Fail> {
    let alloc = rt.alloc();
    assert!(rt; are_bad(&rt, alloc, &[])?);
    assert!(rt; are_bad(&rt, alloc, &["run", "--workers", "9"])?);
    assert!(rt; are_bad(&rt, alloc, &["live", "--workers", "0"])?);
    assert!(rt; are_bad(&rt, alloc, &["run", "run"])?);
    assert!(rt; are_bad(&rt, alloc, &["--help"])?);
    assert!(rt; are_bad(&rt, alloc, &["trial", "--size", "0"])?);
    assert!(rt; are_bad(&rt, alloc, &["run", ""])?);
    for word in [
        "", "Run", "RUN", " run", "run ", "runs", "ru", "lives", "start", "--run",
    ] {
        assert!(rt; are_bad(&rt, alloc, &[word])?, "{word}");
    }
    Ok(())
}

// How a run of these words ends on this input, and what it writes.
fn ends<T: Threads + Wait + Sync>(
    rt: &T,
    alloc: Global,
    texts: &[&str],
    input: &[&str],
    want: Status,
    written: &str,
) -> Result<bool, NoMemory> {
    let mut words = Vec::new(alloc);
    for text in texts {
        words.push(text_of(alloc, *text)?)?;
    }
    let bytes = joined(alloc, input)?.into_bytes();
    let mut source = MemSource::new(bytes, 4096, Vec::new(alloc));
    let mut sink = MemSink::with_room(alloc, 10_000, 1000, Vec::new(alloc))?;
    let status = push_main(rt, alloc, words.as_slice(), &mut source, &mut sink, &NoGate);
    Ok(status == want && sink.bytes() == written.as_bytes())
}

const CHANGES: &str =
    r#"{"ietf-restconf:notification":{"eventTime":"2026-01-01T00:00:00.00Z","ietf-yang-push:push-change-update":{"datastore-changes":{"yang-patch":{"edit":[{"edit-id":"1","operation":"create","target":"/acme:interfaces/interface=eth0","value":{"acme:interface":[{"mtu":1500,"name":"eth0"}]}}],"patch-id":"2"}},"id":2147483648}}}
"#;

const MERGE: &str =
    r#"{"ietf-restconf:notification":{"eventTime":"2026-01-01T00:00:00.00Z","ietf-yang-push:push-change-update":{"datastore-changes":{"yang-patch":{"edit":[{"edit-id":"1","operation":"merge","target":"/acme:interfaces/interface=eth0","value":{"acme:interface":[{"mtu":1500,"name":"eth0"}]}}],"patch-id":"2"}},"id":2147483648}}}
"#;

const TREE: &str = r#"tree 2147483648 {"acme:interfaces":{"interface":[{"mtu":1500,"name":"eth0"}]}}
end
"#;

#[test]
fn streams_are_replayed_and_told_their_first_fault(rt: HostRuntime) -> Result<(), Fail> {
    let alloc = rt.alloc();
    let replay = ["replay"];
    assert!(rt; ends(&rt, alloc, &replay, &[SCHEMA, CHANGES], Status::Done, TREE)?);
    assert!(rt; ends(&rt, alloc, &replay, &[SCHEMA], Status::Done, "end\n")?);
    let kind = StreamKind::Member;
    let faulty = Status::BadStream { line: 3, kind };
    assert!(rt; ends(&rt, alloc, &replay, &[SCHEMA, CHANGES, MERGE], faulty, "")?);
    let kind = ScriptKind::Order;
    let unread = Status::BadScript { line: 1, kind };
    assert!(rt; ends(&rt, alloc, &replay, &[START, SCHEMA], unread, "")?);
    Ok(())
}

const TRIAL: &str = "commands 4
refused 0
full-updates 2
change-updates 0
notices 0
fulls 0
tree-rows 0
end
";

#[test]
fn a_trial_reads_nothing_and_comes_to_what_was_worked_out(rt: HostRuntime) -> Result<(), Fail> {
    let alloc = rt.alloc();
    let words = ["--size=1", "trial", "--seed=1"];
    assert!(rt; ends(&rt, alloc, &words, &["x"], Status::Done, TRIAL)?);
    Ok(())
}

#[test]
fn threads_write_the_report_of_a_run(rt: HostRuntime) -> Result<(), Fail> {
    let alloc = rt.alloc();
    let input = [START, SCHEMA, RECEIVER, ESTABLISH];
    for words in [
        &["live"][..],
        &["live", "--workers", "1"],
        &["--workers=8", "live"],
    ] {
        assert!(rt; ends(&rt, alloc, words, &input, Status::Done, REPORT)?);
    }
    Ok(())
}

const BY_COMMAND: &str = r#"{"receiver":{"name":"r2","user":"bob","queue":1,"take":"command"}}
"#;

const LATER: &str = r#"{"receiver":{"name":"r3","user":"ann","queue":1,"take":"command"}}
"#;

// The status that tells a receiver.
fn manual(alloc: Global, name: &str) -> Result<Status, NoMemory> {
    Ok(Status::Manual {
        receiver: text_of(alloc, name)?,
    })
}

#[test]
fn the_first_receiver_that_takes_by_command_is_told_where_threads_were_to_run(
    rt: HostRuntime,
) -> Result<(), Fail> {
    let alloc = rt.alloc();
    let input = [START, SCHEMA, RECEIVER, BY_COMMAND, LATER, ESTABLISH];
    let told = manual(alloc, "r2")?;
    assert!(rt; ends(&rt, alloc, &["live"], &input, told, "")?);
    let told = manual(alloc, "r3")?;
    assert!(rt;
        ends(
            &rt,
            alloc,
            &["live"],
            &[START, SCHEMA, LATER, BY_COMMAND],
            told,
            ""
        )?
    );
    assert!(rt; ends(&rt, alloc, &["run"], &input, Status::Done, REPORT)?);
    let kind = ScriptKind::NotJson;
    let faulty = Status::BadScript { line: 4, kind };
    assert!(rt;
        ends(
            &rt,
            alloc,
            &["live"],
            &[START, SCHEMA, BY_COMMAND, "x\n"],
            faulty,
            ""
        )?
    );
    let text = joined(alloc, &[START, SCHEMA, BY_COMMAND])?;
    let mut source = MemSource::new(text.into_bytes(), 4096, vec![in alloc; 2u64]?);
    let mut sink = MemSink::with_room(alloc, 0, 10, Vec::new(alloc))?;
    let mut words = Vec::new(alloc);
    words.push(text_of(alloc, "live")?)?;
    let status = push_main(
        &rt,
        alloc,
        words.as_slice(),
        &mut source,
        &mut sink,
        &NoGate,
    );
    assert!(rt; status == Status::ReadFault);
    Ok(())
}

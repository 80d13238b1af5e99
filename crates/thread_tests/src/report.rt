//! The report of a script that threads run.
ghost use Rattle.std.specs.Prelude.{◌<◌, ◌≤◌, ◌^◌, length};

use std::alloc::Global;
use std::sync::Wait;
use std::test::Fail;
use std::thread::Threads;
use yp_concurrent::script::report_beside;
use yp_gate::NoGate;
use yp_script::reading::read_script;

const SETTING: &str = r#"{"start":"2026-01-01T00:00:00Z"}
{"schema":[{"path":"/acme:port","kind":"list","keys":["name"]},{"path":"/acme:port/name","kind":"leaf","type":"string"},{"path":"/acme:port/mtu","kind":"leaf","type":"uint16"}]}
{"receiver":{"name":"noc","user":"ann","queue":4,"take":"auto"}}
"#;

// A receiver asks for everything before the lanes, a port is created by the one lane, and then time goes on.
const ONE_LANE: &str =
    r#"{"establish":{"by":"noc","datastore":"ietf-datastores:operational","on-change":{}}}
{"lanes":1}
{"lane":1,"do":{"patch":{"ietf-yang-patch:yang-patch":{"patch-id":"a port","edit":[{"edit-id":"1","operation":"create","target":"/acme:port=eth0","value":{"acme:port":[{"name":"eth0","mtu":1500}]}}]}}}}
{"join":true}
{"tick":5}
"#;

// One lane has one order, so the report is known.
const REPORT: &str = r#"reply 1 0 1 {"id":2147483648}
reply 2 1 1 {"ok":true}
reply 3 0 2 {"ok":true}
to noc {"ietf-restconf:notification":{"eventTime":"2026-01-01T00:00:00.00Z","ietf-yang-push:push-update":{"datastore-contents":{},"id":2147483648}}}
to noc {"ietf-restconf:notification":{"eventTime":"2026-01-01T00:00:00.00Z","ietf-yang-push:push-change-update":{"datastore-changes":{"yang-patch":{"edit":[{"edit-id":"1","operation":"create","target":"/acme:port=eth0","value":{"acme:port":[{"mtu":1500,"name":"eth0"}]}}],"patch-id":"2"}},"id":2147483648}}}
tree noc 2147483648 {"acme:port":[{"mtu":1500,"name":"eth0"}]}
end
"#;

// The report of the setting and of these commands, by so many workers.
fn report_of<T: Threads + Wait + Sync>(
    rt: &T,
    alloc: Global,
    commands: &str,
    workers: u32,
) -> Result<String, Fail>
    requires { (0 < workers) × (workers < 2 ^ 32) }
{
    let mut text = String::from_str(alloc, SETTING)?;
    text.push_str(commands)?;
    let script = read_script(alloc, text.as_str().as_bytes())?;
    Ok(report_beside(rt, alloc, &NoGate, script, workers)?)
}

#[test]
fn one_lane_has_one_report_whatever_the_workers(rt: HostRuntime) -> Result<(), Fail> {
    let alloc = rt.alloc();
    for workers in 1..4u32 {
        let text = report_of(&rt, alloc, ONE_LANE, workers)?;
        assert_eq!(rt; text.as_str(), REPORT);
    }
    Ok(())
}

//! What the tests have in common: a schema, a receiver, and two commands.
ghost use Rattle.std.specs.Prelude.{◌≡◌, IfOk};
ghost use Rattle.yp_journal.specs.History.{IsRead};
ghost use Rattle.yp_terms.specs.Terms.{HasAnchor};

use serde_json::Value as Json;
use std::alloc::Global;
use std::test::Fail;
use yp_base::memory::NoMemory;
use yp_base::notice::{Kinds, Trigger};
use yp_base::txt::text_of;
use yp_journal::receiver::ReceiverInfo;
use yp_offer_log::logged::Logged;
use yp_patch::patch::Patch;
use yp_patch::reading::read_patch;
use yp_queue::packet::PacketKind;
use yp_schema::schema::Schema;
use yp_terms::ask::{Ask, FilterAsk};

// Ports with a name and an mtu.
const PORTS: &str =
    r#"[{"path":"/acme:port","kind":"list","keys":["name"]},{"path":"/acme:port/name","kind":"leaf","type":"string"},{"path":"/acme:port/mtu","kind":"leaf","type":"uint16"}]"#;

const PATCH: &str =
    r#"{"ietf-yang-patch:yang-patch":{"patch-id":"a port","edit":[{"edit-id":"1","operation":"create","target":"/acme:port=eth0","value":{"acme:port":[{"name":"eth0","mtu":1500}]}}]}}"#;

/// The full update with which the subscription begins.
pub const FULL: &str =
    r#"{"ietf-restconf:notification":{"eventTime":"2026-01-01T00:00:00.00Z","ietf-yang-push:push-update":{"datastore-contents":{},"id":2147483648}}}"#;

/// The schema of ports.
pub fn ports(alloc: Global) -> Result<Schema, Fail> {
    let mut parts = Vec::new(alloc);
    parts.push(Json::from_str(alloc, PORTS)?)?;
    Ok(Schema::read(alloc, parts.as_slice())?)
}

/// A receiver of this name, with a queue of one place.
pub fn receiver(alloc: Global, name: &str, auto: bool) -> Result<ReceiverInfo, NoMemory>
    ensures { IfOk result (λ receiver. receiver.places ≡ 1) }
{
    Ok(ReceiverInfo {
        name: text_of(alloc, name)?,
        user: text_of(alloc, "ann")?,
        places: 1,
        auto,
    })
}

// No operation.
fn none_of_all() -> Kinds {
    Kinds {
        create: false,
        delete: false,
        insert: false,
        moved: false,
        replace: false,
    }
}

/// What asks for everything in JSON of the operational datastore, on change.
pub fn everything(alloc: Global) -> Result<Ask, NoMemory>
    ensures { IfOk result (λ ask. HasAnchor ask.trigger) }
{
    Ok(Ask {
        encoding: text_of(alloc, "encode-json")?,
        datastore: text_of(alloc, "ietf-datastores:operational")?,
        filter: FilterAsk::All,
        trigger: Trigger::OnChange {
            dampening: 0,
            sync: true,
            excluded: none_of_all(),
        },
    })
}

/// A patch that creates a port.
pub fn port(alloc: Global) -> Result<Patch, Fail>
    ensures { IfOk result IsRead }
{
    let json = Json::from_str(alloc, PATCH)?;
    Ok(read_patch(alloc, &json)?)
}

/// The kind of a packet that was accepted, and its line.
pub fn told(logged: Option<&Logged>) -> (Option<PacketKind>, &str) {
    match logged {
        Some(Logged::Line { kind, line }) => (Some(*kind), line.as_str()),
        Some(Logged::FullAt { .. }) => (None, ""),
        None => (None, ""),
    }
}

//! A schema of ports.
use serde_json::Value as Json;
use std::alloc::Global;
use std::test::Fail;
use yp_schema::schema::Schema;

// Ports with a name and an mtu.
const PORTS: &str =
    r#"[{"path":"/acme:port","kind":"list","keys":["name"]},{"path":"/acme:port/name","kind":"leaf","type":"string"},{"path":"/acme:port/mtu","kind":"leaf","type":"uint16"}]"#;

/// The schema of ports.
pub fn ports(alloc: Global) -> Result<Schema, Fail> {
    let mut parts = Vec::new(alloc);
    parts.push(Json::from_str(alloc, PORTS)?)?;
    Ok(Schema::read(alloc, parts.as_slice())?)
}

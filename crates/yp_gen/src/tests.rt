//! A short script.
use crate::script::generate;
use std::test::Fail;

// The states of seed 1 are 7806831264735756412 and 9396908728118811419, and their draws 908834774 and
// 1093944153: a removal of entry 22, and a merge of entry 25 with the mtu 576 + 5187.
const SCRIPT: &str = r#"{"start":"2026-01-01T00:00:00Z"}
{"schema":[{"path":"/acme:interfaces","kind":"container"},{"path":"/acme:interfaces/interface","kind":"list","keys":["name"]},{"path":"/acme:interfaces/interface/name","kind":"leaf","type":"string"},{"path":"/acme:interfaces/interface/mtu","kind":"leaf","type":"uint16"},{"path":"/acme:interfaces/interface/enabled","kind":"leaf","type":"boolean"},{"path":"/acme:interfaces/interface/secret","kind":"leaf","type":"string","deny-all":true},{"path":"/acme:interfaces/interface/stats","kind":"container"},{"path":"/acme:interfaces/interface/stats/in","kind":"leaf","type":"uint64"}]}
{"receiver":{"name":"r1","user":"ann","queue":8,"take":"auto"}}
{"receiver":{"name":"r2","user":"bob","queue":8,"take":"auto"}}
{"establish":{"by":"r1","datastore":"ietf-datastores:operational","on-change":{}}}
{"establish":{"by":"r2","datastore":"ietf-datastores:operational","datastore-subtree-filter":{"acme:interfaces":{"interface":[{"enabled":true,"mtu":[null]}]}},"on-change":{"dampening-period":50}}}
{"patch":{"ietf-yang-patch:yang-patch":{"edit":[{"edit-id":"1","operation":"remove","target":"/acme:interfaces/interface=eth22"}],"patch-id":"1"}}}
{"patch":{"ietf-yang-patch:yang-patch":{"edit":[{"edit-id":"1","operation":"merge","target":"/acme:interfaces/interface=eth25","value":{"acme:interface":[{"mtu":5763,"name":"eth25"}]}}],"patch-id":"2"}}}
{"tick":120}
"#;

#[test]
fn a_seed_gives_its_script(rt: HostRuntime) -> Result<(), Fail> {
    let text = generate(rt.alloc(), 1, 2)?;
    assert_eq!(rt; text.as_str(), SCRIPT);
    Ok(())
}

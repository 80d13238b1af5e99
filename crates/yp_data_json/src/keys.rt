//! The keys of a list entry.
ghost use Rattle.std.specs.Prelude.{◌≡◌, ◌<◌, length, All, IfOk, IfErr, IfSome};
ghost use Rattle.serde_json.specs.View.{view, members_view};
ghost use Rattle.serde_json.specs.Find.{get_member};
ghost use Rattle.yp_schema.specs.Nodes.{node_at};
ghost use Rattle.yp_schema.specs.Values.{typed_value, typed_atom};
ghost use Rattle.yp_data_json.specs.Reading.{Gives, valid, at_key, key_in, earliest, keys_in};

use crate::fault::{DataError, DataFault};
use serde_json::{Map, Value as Json};
use std::alloc::Global;
use yp_base::atom::Atom;
use yp_base::keys::Keys;
use yp_base::memory::NoMemory;
use yp_base::row::Value;
use yp_schema::schema::Schema;
use yp_value::members::member_in;
use yp_value::text::TextFault;

/// The value that JSON is read as at a node, or the fault that it is none.
pub fn value_of(alloc: Global, schema: &Schema, node: u32, json: &Json) -> Result<Value, DataError>
    requires { node < length schema.now }
    ensures { Gives result (valid (typed_value (node_at node schema.now).ty (view json.now))) }
{
    match schema.read_value(alloc, node, json) {
        Ok(value) => Ok(value),
        Err(TextFault::BadText) => Err(DataError::invalid(node)),
        Err(TextFault::Memory) => Err(DataError::memory()),
    }
}

/// The value that JSON is read as in a key or a leaf-list, or the fault that it is none.
pub fn atom_of(alloc: Global, schema: &Schema, node: u32, json: &Json) -> Result<Atom, DataError>
    requires { node < length schema.now }
    ensures { Gives result (valid (typed_atom (node_at node schema.now).ty (view json.now))) }
{
    match schema.read_atom(alloc, node, json) {
        Ok(atom) => Ok(atom),
        Err(TextFault::BadText) => Err(DataError::invalid(node)),
        Err(TextFault::Memory) => Err(DataError::memory()),
    }
}

/// A key of an entry, or the fault that is found at it.
#[tactic(auto, using(crate::proofs::Faults::fault_is))]
fn read_key(
    alloc: Global,
    schema: &Schema,
    node: u32,
    members: &Map<String, Json>,
) -> Result<Result<Atom, (u32, DataFault)>, NoMemory>
    requires { node < length schema.now }
    ensures read { IfOk result (λ read. read ≡ at_key node (key_in (node_at node schema.now).ty (get_member (node_at node schema.now).member (members_view members.now.entries)))) }
    ensures within { IfOk result (λ read. IfErr read (λ fault. fault.0 < length schema.now)) }
{
    match member_in(members, schema.member_text(node)) {
        Some(json) => match atom_of(alloc, schema, node, json) {
            Ok(atom) => Ok(Ok(atom)),
            Err(error) => match error.fault {
                DataFault::Memory => Err(NoMemory),
                fault => Ok(Err((node, fault))),
            },
        },
        None => Ok(Err((node, DataFault::MissingKey))),
    }
}

/// The fault at the key whose name comes first in byte order, of the first one so far and another.
fn earliest_fault(
    schema: &Schema,
    first: Option<(u32, DataFault)>,
    other: (u32, DataFault),
) -> (u32, DataFault)
    requires first { IfSome first (λ one. one.0 < length schema.now) }
    requires other { other.0 < length schema.now }
    ensures fault { result ≡ earliest schema.now first other }
    ensures within { result.0 < length schema.now }
{
    match first {
        Some(one) => {
            if schema
                .member_text(other.0)
                .cmp(schema.member_text(one.0))
                .is_lt()
            {
                other
            } else {
                one
            }
        }
        None => other,
    }
}

/// The keys of an entry, in the order of the schema.
#[tactic(auto, using(crate::proofs::KeyLaws::after_key, crate::proofs::KeyLaws::after_fault, crate::proofs::Faults::may_fail))]
pub fn read_keys(
    alloc: Global,
    schema: &Schema,
    nodes: &[u32],
    members: &Map<String, Json>,
) -> Result<Keys, DataError>
    requires { All (λ n. n < length schema.now) nodes.now }
    ensures { Gives result (keys_in schema.now nodes.now (members_view members.now.entries)) }
{
    let mut keys = Vec::with_capacity(alloc, nodes.len())?;
    let mut first: Option<(u32, DataFault)> = None;
    for node in nodes {
        match read_key(alloc, schema, *node, members)? {
            Ok(key) => keys.push(key)?,
            Err(fault) => {
                first = Some(earliest_fault(schema, first, fault));
            }
        }
    }
    match first {
        Some((node, fault)) => Err(DataError::at(fault, node)),
        None => {
            let keys = Keys::from_vec(alloc, keys)?;
            Ok(keys)
        }
    }
}

//! What an edit names: its target, and the rows of its value.
ghost use Rattle.std.specs.Prelude.{◌≡◌, ◌<◌, length, true, IfOk, option_map};
ghost use Rattle.yp_base.specs.Paths.{last_node};
ghost use Rattle.yp_schema.specs.Datastore.{ends_in_key, is_key_at, is_key_node, is_place, is_path_of};
ghost use Rattle.yp_edit.specs.Answers.{Says};
ghost use Rattle.yp_edit.specs.Patches.{path_tag, no_key, target_of, value_rows};

use crate::fault::Tag;
use crate::halt::{Halt, Refusal, refused};
use std::alloc::Global;
use yp_base::path::Path;
use yp_base::row::Rows;
use yp_base::txt::Txt;
use yp_data_json::at_path::read_payload;
use yp_data_json::fault::DataFault;
use yp_path::fault::PathFault;
use yp_path::target::{read_target, write_target};
use yp_schema::schema::Schema;
use yp_value::payload::Payload;

/// The node that a path ends in.
pub fn end_of(path: &Path) -> Option<u32>
    ensures { result ≡ last_node path.now }
{
    match path.items().split_last() {
        Some((last, _)) => Some(last.node),
        None => None,
    }
}

/// Whether a node is a key of the node above.
fn is_key(schema: &Schema, node: u32) -> bool
    requires { node < length schema.now }
    ensures { result ≡ is_key_node schema.now node }
{
    let _count = schema.count();
    schema.is_key(node, schema.parent(node))
}

/// Whether a path ends in a key leaf.
fn ends_in_key(schema: &Schema, path: &Path) -> bool
    requires { is_path_of schema.now path.now ≡ true }
    ensures { result ≡ ends_in_key schema.now path.now }
{
    match end_of(path) {
        Some(node) => is_key(schema, node),
        None => false,
    }
}

/// The path that a text is; it ends in no key leaf.
#[tactic(auto, using(crate::proofs::Ends::may_stand))]
pub fn read_path(alloc: Global, schema: &Schema, text: &Txt) -> Result<Path, Halt>
    ensures read { Says result (target_of schema.now text.now) }
    ensures path { IfOk result (λ path. is_path_of schema.now path ≡ true) }
    ensures place { IfOk result (λ path. is_place schema.now path ≡ true) }
{
    match read_target(alloc, schema, text.as_str()) {
        Ok(path) => {
            if ends_in_key(schema, &path) {
                return Err(Halt::Refused(Refusal {
                    tag: Tag::InvalidValue,
                    path: Some(write_target(alloc, schema, &path)?),
                }));
            }
            Ok(path)
        }
        Err(error) => match error.fault {
            PathFault::Syntax => Err(refused(Tag::InvalidValue)),
            PathFault::UnknownNode => Err(refused(Tag::UnknownElement)),
            PathFault::KeyCount => Err(refused(Tag::InvalidValue)),
            PathFault::KeyValue => Err(refused(Tag::InvalidValue)),
            PathFault::Memory => Err(Halt::Memory),
        },
    }
}

/// The rows of a value at a target.
pub fn read_value(
    alloc: Global,
    schema: &Schema,
    target: &Path,
    value: &Option<Payload>,
) -> Result<Rows, Halt>
    requires { is_place schema.now target.now ≡ true }
    ensures { Says result (value_rows schema.now target.now value.now) }
{
    match value {
        Some(value) => match read_payload(alloc, schema, target, value) {
            Ok(rows) => Ok(rows),
            Err(error) => match error.fault {
                DataFault::UnknownElement => Err(refused(Tag::UnknownElement)),
                DataFault::InvalidValue => Err(refused(Tag::InvalidValue)),
                DataFault::MissingKey => Err(refused(Tag::InvalidValue)),
                DataFault::RepeatedKey => Err(refused(Tag::InvalidValue)),
                DataFault::Memory => Err(Halt::Memory),
            },
        },
        None => Err(refused(Tag::InvalidValue)),
    }
}

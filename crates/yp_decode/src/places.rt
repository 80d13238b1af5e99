//! The places at which edits are made.
ghost use Rattle.std.specs.Prelude.{◌≡◌, true, All, IfOk};
ghost use Rattle.yp_schema.specs.Datastore.{is_path_of, is_place};
ghost use Rattle.yp_decode.specs.Grammar.{place_in, edits_placed};
ghost use Rattle.yp_decode.specs.Readings.{Gives, Shows, seen_edits, seen_places};

use crate::edits::{EditBody, Operation};
use crate::fault::{StreamFault, TargetFault};
use serde_json::Value as Json;
use std::alloc::Global;
use yp_base::path::Path;
use yp_path::fault::PathFault;
use yp_path::target::read_target;
use yp_schema::schema::Schema;

/// An edit at its place.
#[derive(Drop)]
pub struct PlacedEdit<'a> {
    pub target: Path,
    pub operation: Operation<&'a Json>,
}

/// The place that the text of a target names (RFC 8040 section 3.5.3); it ends in no key leaf.
fn read_place(alloc: Global, schema: &Schema, text: &str) -> Result<Path, StreamFault>
    ensures read { Gives result (place_in schema.now text.now) }
    ensures path { IfOk result (λ path. is_path_of schema.now path ≡ true) }
    ensures place { IfOk result (λ path. is_place schema.now path ≡ true) }
{
    match read_target(alloc, schema, text) {
        Ok(path) => {
            if schema.ends_in_key(&path) {
                Err(StreamFault::Target(TargetFault::KeyLeaf))
            } else {
                Ok(path)
            }
        }
        Err(error) => match error.fault {
            PathFault::Memory => Err(StreamFault::Memory),
            PathFault::Syntax => Err(StreamFault::Target(TargetFault::Path(PathFault::Syntax))),
            PathFault::UnknownNode => Err(StreamFault::Target(TargetFault::Path(
                PathFault::UnknownNode,
            ))),
            PathFault::KeyCount => Err(StreamFault::Target(TargetFault::Path(PathFault::KeyCount))),
            PathFault::KeyValue => Err(StreamFault::Target(TargetFault::Path(PathFault::KeyValue))),
        },
    }
}

/// The edits at their places.
pub fn read_places<'a>(
    alloc: Global,
    schema: &Schema,
    edits: &[EditBody<'a>],
) -> Result<Vec<PlacedEdit<'a>>, StreamFault>
    ensures read { Shows (λ edits. seen_places edits.items) result (edits_placed schema.now (seen_edits edits.now)) }
    ensures path { IfOk result (λ edits. All (λ edit. is_path_of schema.now edit.target ≡ true) edits.items) }
    ensures place { IfOk result (λ edits. All (λ edit. is_place schema.now edit.target ≡ true) edits.items) }
{
    let mut places = Vec::with_capacity(alloc, edits.len())?;
    for edit in edits {
        let target = read_place(alloc, schema, edit.target)?;
        places.push(PlacedEdit {
            target,
            operation: edit.operation,
        })?;
    }
    Ok(places)
}

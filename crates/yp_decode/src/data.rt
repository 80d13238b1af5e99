//! The rows that a notice's data hold, and the changes that edits make of them.
ghost use Rattle.std.specs.Prelude.{◌≡◌, true, [], All, IfOk};
ghost use Rattle.std.specs.List.{AllByRecursion};
ghost use Rattle.serde_json.specs.View.{view};
ghost use Rattle.yp_schema.specs.Datastore.{is_path_of, is_place, AreWhole, IsDatastore};
ghost use Rattle.yp_decode.specs.Grammar.{rows_in, heard_change, edit_heard, edits_heard};
ghost use Rattle.yp_decode.specs.Sound.{IsSoundChange};
ghost use Rattle.yp_decode.specs.Readings.{Gives, seen_operation, seen_places};

use crate::edits::Operation;
use crate::fault::StreamFault;
use crate::places::PlacedEdit;
use serde_json::Value as Json;
use std::alloc::Global;
use yp_base::memory::Duplicate;
use yp_base::notice::{Change, ChangeKind, Changes};
use yp_base::path::Path;
use yp_base::row::Rows;
use yp_base::series::Series;
use yp_data_json::at_path;
use yp_data_json::fault::DataFault;
use yp_schema::schema::Schema;

/// The rows that data at a place hold.
fn read_rows(alloc: Global, schema: &Schema, at: &Path, json: &Json) -> Result<Rows, StreamFault>
    requires { is_place schema.now at.now ≡ true }
    ensures read { Gives result (rows_in schema.now at.now (view json.now)) }
    ensures rows { IfOk result (λ rows. AreWhole schema.now at.now rows) }
{
    match at_path::read_rows(alloc, schema, at, json) {
        Ok(rows) => Ok(rows),
        Err(error) => match error.fault {
            DataFault::Memory => Err(StreamFault::Memory),
            DataFault::UnknownElement => Err(StreamFault::Data(DataFault::UnknownElement)),
            DataFault::InvalidValue => Err(StreamFault::Data(DataFault::InvalidValue)),
            DataFault::MissingKey => Err(StreamFault::Data(DataFault::MissingKey)),
            DataFault::RepeatedKey => Err(StreamFault::Data(DataFault::RepeatedKey)),
        },
    }
}

/// The rows that the data of a datastore hold.
pub fn read_contents(alloc: Global, schema: &Schema, json: &Json) -> Result<Rows, StreamFault>
    ensures read { Gives result (rows_in schema.now [] (view json.now)) }
    ensures rows { IfOk result (λ rows. IsDatastore schema.now rows) }
{
    let top = Path::top(alloc)?;
    read_rows(alloc, schema, &top, json)
}

/// A change at a place.
fn heard_change(kind: ChangeKind, target: Path, rows: Rows) -> Change
    ensures { result ≡ heard_change kind target rows }
{
    Change {
        kind,
        target,
        rows,
        after: None,
    }
}

/// The change that an edit makes.
fn read_change(alloc: Global, schema: &Schema, edit: &PlacedEdit) -> Result<Change, StreamFault>
    requires path { is_path_of schema.now edit.now.target ≡ true }
    requires place { is_place schema.now edit.now.target ≡ true }
    ensures read { Gives result (edit_heard schema.now edit.now.target (seen_operation edit.now.operation)) }
    ensures change { IfOk result (λ change. IsSoundChange schema.now change) }
{
    let target = edit.target.copy(alloc)?;
    match edit.operation {
        Operation::Create(value) => {
            let rows = read_rows(alloc, schema, &edit.target, value)?;
            Ok(heard_change(ChangeKind::Create, target, rows))
        }
        Operation::Delete => Ok(heard_change(
            ChangeKind::Delete,
            target,
            Series::from_vec(Vec::new(alloc)),
        )),
        Operation::Replace(value) => {
            let rows = read_rows(alloc, schema, &edit.target, value)?;
            Ok(heard_change(ChangeKind::Replace, target, rows))
        }
    }
}

/// The changes that edits make.
pub fn read_changes(
    alloc: Global,
    schema: &Schema,
    edits: &[PlacedEdit],
) -> Result<Changes, StreamFault>
    requires path { All (λ edit. is_path_of schema.now edit.target ≡ true) edits.now }
    requires place { All (λ edit. is_place schema.now edit.target ≡ true) edits.now }
    ensures read { Gives result (edits_heard schema.now (seen_places edits.now)) }
    ensures changes { IfOk result (λ changes. AllByRecursion (IsSoundChange schema.now) changes) }
{
    let mut changes = Vec::with_capacity(alloc, edits.len())?;
    for edit in edits {
        changes.push(read_change(alloc, schema, edit)?)?;
    }
    Ok(Series::from_vec(changes))
}

//! Calls of `yp_patch` and `yp_edit`: patches, and what they do to a datastore.
ghost use Rattle.std.specs.Prelude.{◌≡◌, ◌<◌, ◌^◌, [], IfOk, length};
ghost use Rattle.yp_schema.specs.Datastore.{IsDatastore, AreWritable};

use case_frame::fault::{CaseFault, OrFault, or_bad};
use case_frame::given::part;
use case_frame::shown::{Answer, Told, quoted};
use serde_json::Value as Json;
use std::alloc::Global;
use std::marker::Brand;
use std::sync::ledger::{Blank, Ledger};
use yp_base::memory::Duplicate;
use yp_base::path::{Path, Seg};
use yp_base::row::{Rows, Value};
use yp_base::series::Series;
use yp_base::steps::Steps;
use yp_changes::changed::{Changed, ChangedRow};
use yp_data_json::at_path::read_rows;
use yp_data_json::writing::push_rows;
use yp_edit::applying::apply;
use yp_edit::fault::EditFault;
use yp_patch::fault::PatchFault;
use yp_patch::patch::{Edit, EditOp, Patch, Place};
use yp_patch::reading::read_patch;
use yp_schema::schema::Schema;
use yp_tree::tree::Tree;

pub fn answer(alloc: Global, schema: &Schema, call: &str, arguments: &Json) -> Answer {
    Ok(Some(match call {
        "read_patch" => read(alloc, arguments)?,
        "apply" => applied(alloc, schema, arguments)?,
        _ => return Ok(None),
    }))
}

/// The patch that JSON is, of which a copy is shown.
fn read(alloc: Global, json: &Json) -> OrFault<String> {
    match read_patch(alloc, json) {
        Ok(patch) => shown(alloc, &patch.copy(alloc)?),
        Err(error) => match error.fault {
            PatchFault::Shape => quoted(alloc, "shape"),
            PatchFault::Memory => Err(CaseFault::Memory),
        },
    }
}

/// A patch: a line for each edit, and its id.
fn shown(alloc: Global, patch: &Patch) -> OrFault<String> {
    let mut told = Told::new(alloc);
    told.push("{\"edits\":[");
    for edit in patch.edits.items() {
        told.comma();
        told.quoted(edit_line(alloc, edit)?.as_str());
    }
    told.push("],\"id\":");
    told.quoted(patch.id.as_str());
    told.push("}");
    told.done()
}

/// An edit: its id, its operation, its target, and what more it has.
fn edit_line(alloc: Global, edit: &Edit) -> OrFault<String> {
    let id = edit.id.as_str();
    let operation = operation_word(edit.op);
    let target = edit.target.as_str();
    let place = place_word(edit.place);
    let mut line = Told::new(alloc);
    line.put(format!(in alloc; "{id} {operation} {target}{place}"));
    if let Some(point) = &edit.point {
        line.push(" ");
        line.push(point.as_str());
    }
    if let Some(value) = &edit.value {
        line.push(" ");
        line.push(value.json(alloc)?.to_string(alloc)?.as_str());
    }
    line.done()
}

fn operation_word(op: EditOp) -> &'static str {
    match op {
        EditOp::Create => "create",
        EditOp::Delete => "delete",
        EditOp::Insert => "insert",
        EditOp::Merge => "merge",
        EditOp::Move => "move",
        EditOp::Replace => "replace",
        EditOp::Remove => "remove",
    }
}

fn place_word(place: Option<Place>) -> &'static str {
    match place {
        Some(Place::Before) => " before",
        Some(Place::After) => " after",
        Some(Place::First) => " first",
        Some(Place::Last) => " last",
        None => "",
    }
}

/// The tree of a datastore's rows.
#[tactic(auto, using(yp_base::specs::RowLaws::put_to_none, crate::proofs::Datastores::whole_is_datastore))]
pub fn tree_of(alloc: Global, schema: &Schema, data: &Json) -> OrFault<Tree>
    ensures { IfOk result (λ tree. IsDatastore schema.now tree) }
{
    let top = Path::top(alloc)?;
    let rows = or_bad(read_rows(alloc, schema, &top, data))?;
    let mut tree = Tree::new(alloc);
    tree.renew(alloc, &top, &rows)?;
    Ok(tree)
}

/// Applies a patch with a count of steps of its own.
fn apply_counted<L: Ledger>(
    alloc: Global,
    schema: &Schema,
    tree: &mut Tree,
    patch: &Patch,
    blank: Blank,
) -> Result<Changed, EditFault>
    requires name { blank.name ≡ L.name }
    requires parts { blank.parts ≡ L.parts }
    requires some { 0 < L.parts }
    requires few { length patch.now.edits < 2 ^ 32 }
    requires datastore { IsDatastore schema.now tree.old }
    ensures datastore { IfOk result (λ _. IsDatastore schema.now tree.new) }
{
    let mut steps = Steps::<L>::open(blank);
    apply(alloc, schema, tree, patch, &mut steps)
}

/// What a patch does to a datastore.
fn applied(alloc: Global, schema: &Schema, arguments: &Json) -> OrFault<String> {
    let patch = or_bad(read_patch(alloc, part(arguments, "patch")?))?;
    let mut tree = tree_of(alloc, schema, part(arguments, "on")?)?;
    match apply_counted::<Brand>(alloc, schema, &mut tree, &patch, Blank::new(1)) {
        Ok(changed) => outcome(alloc, schema, &changed.copy(alloc)?, tree),
        Err(fault) => refusal(alloc, fault),
    }
}

/// The number of a refused edit, its error and, as may be, its path.
fn refusal(alloc: Global, fault: EditFault) -> OrFault<String> {
    match fault {
        EditFault::Refused {
            edit,
            tag,
            path: Some(path),
        } => {
            let path = path.as_str();
            quoted(alloc, format!(in alloc; "{edit} {tag:?} {path}")?.as_str())
        }
        EditFault::Refused {
            edit,
            tag,
            path: None,
        } => { quoted(alloc, format!(in alloc; "{edit} {tag:?}")?.as_str()) }
        EditFault::Memory => Err(CaseFault::Memory),
    }
}

/// The rows that a patch changed, and the data after it.
#[tactic(auto, using(crate::proofs::Datastores::datastore_is_writable))]
fn outcome(alloc: Global, schema: &Schema, changed: &Changed, tree: Tree) -> OrFault<String>
    requires { IsDatastore schema.now tree }
{
    let mut told = Told::new(alloc);
    told.push("{\"changed\":[");
    for row in changed.items() {
        told.comma();
        told.quoted(change_line(alloc, schema, row)?.as_str());
    }
    told.push("],\"data\":");
    told.push(data_of(alloc, schema, &tree.into_rows(alloc)?)?.as_str());
    told.push("}");
    told.done()
}

/// The data of rows.
pub fn data_of(alloc: Global, schema: &Schema, rows: &Rows) -> OrFault<String>
    requires { AreWritable schema.now [] rows.now }
{
    let top = Path::top(alloc)?;
    let mut text = String::new(alloc);
    push_rows(alloc, schema, &mut text, &top, rows)?;
    Ok(text)
}

/// A row that changed: its path, with what it held before and after.
fn change_line(alloc: Global, schema: &Schema, row: &ChangedRow) -> OrFault<String> {
    let mut line = Told::new(alloc);
    for segment in row.path.items() {
        tell_segment(schema, &mut line, segment);
    }
    tell_held(&mut line, &row.old);
    tell_held(&mut line, &row.new);
    line.done()
}

/// Appends a segment: its name, and its keys as they are.
fn tell_segment(schema: &Schema, line: &mut Told, segment: &Seg) {
    line.push("/");
    if segment.node < schema.count() {
        line.push(schema.member_text(segment.node));
    }
    let mut mark = "=";
    for key in segment.keys.items() {
        line.push(mark);
        line.plain_atom(key);
        mark = ",";
    }
}

/// Appends what a row holds, or that it isn't there.
fn tell_held(line: &mut Told, held: &Option<Value>) {
    line.push(" ");
    match held {
        Some(held) => line.plain_value(held),
        None => line.push("none"),
    }
}

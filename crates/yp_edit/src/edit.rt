//! Edits of rows under change.
ghost use Rattle.std.specs.Prelude.{◌≡◌, ◌<◌, ◌++◌, ◌∷◌, [], length, true, Some, IfOk, IfSome, OnOk};
ghost use Rattle.yp_base.specs.Rows.{put_rows};
ghost use Rattle.yp_base.specs.Paths.{last_node};
ghost use Rattle.yp_schema.specs.Datastore.{is_entry_kind, is_path_of, is_place};
ghost use Rattle.yp_edit.specs.Drafts.{Drafted};
ghost use Rattle.yp_edit.specs.Answers.{Says, Leaves};
ghost use Rattle.yp_edit.specs.Patches.{created, deleted, has_its_row, stand_above, new_rows, performed, edited};

use crate::fault::Tag;
use crate::halt::{Halt, refused};
use crate::target::{read_path, read_value};
use crate::trial::Trial;
use std::alloc::Global;
use std::sync::ledger::Ledger;
use yp_base::memory::{Duplicate, NoMemory};
use yp_base::path::{Path, Seg};
use yp_base::row::Rows;
use yp_base::steps::Steps;
use yp_patch::patch::{Edit, EditOp};
use yp_schema::schema::{Kind, Schema};
use yp_value::payload::Payload;

/// The most rows that a datastore has.
const MOST_ROWS: usize = 20000;

/// Whether a node of this kind has a row of its own above others.
fn is_entry(kind: Kind) -> bool
    ensures { result ≡ is_entry_kind kind }
{
    matches!(kind, Kind::Presence | Kind::List)
}

/// Whether there is to be a row of a path, where it ends in a list entry or a presence container.
fn has_its_row<L: Ledger>(
    schema: &Schema,
    trial: &Trial,
    node: u32,
    path: &Path,
    steps: &mut Steps<L>,
) -> bool
    requires last { last_node path.now ≡ Some node }
    requires within { node < length schema.now }
    ensures { result ≡ has_its_row schema.now trial.now.after path.now }
{
    if !is_entry(schema.kind(node)) {
        return true;
    }
    trial.has(path, steps)
}

/// Whether each list entry and presence container above a target is to have its row.
fn stands_above<L: Ledger>(
    schema: &Schema,
    trial: &Trial,
    target: &Path,
    steps: &mut Steps<L>,
) -> Result<bool, NoMemory>
    requires { is_path_of schema.now target.now ≡ true }
    ensures { IfOk result (λ stands. stands ≡ stand_above schema.now target.now trial.now.after) }
{
    let mut above = target.first(0)?;
    let mut rest = target.items();
    while let Some((segment, more)) = rest.split_first() {
        if more.is_empty() {
            return Ok(true);
        }
        let longer = target.first(target.len() - more.len())?;
        if !has_its_row(schema, trial, segment.node, &longer, steps) {
            return Ok(false);
        }
        above = longer;
        rest = more;
    }
    Ok(true)
}

/// Puts rows, one after another.
fn put_all<L: Ledger>(
    alloc: Global,
    trial: &mut Trial,
    rows: Rows,
    steps: &mut Steps<L>,
) -> Result<(), NoMemory>
    ensures { OnOk result (trial.new ≡ record trial.old { after = put_rows rows trial.old.after }) }
{
    for row in rows.into_vec(alloc)? {
        trial.put(alloc, row, steps)?;
    }
    Ok(())
}

/// The rows that an edit brings to a target.
fn new_rows<L: Ledger>(
    alloc: Global,
    schema: &Schema,
    trial: &Trial,
    target: &Path,
    value: &Option<Payload>,
    steps: &mut Steps<L>,
) -> Result<Rows, Halt>
    requires path { is_path_of schema.now target.now ≡ true }
    requires place { is_place schema.now target.now ≡ true }
    ensures { Says result (new_rows schema.now target.now value.now trial.now.after) }
{
    let rows = read_value(alloc, schema, target, value)?;
    if !stands_above(schema, trial, target, steps)? {
        return Err(refused(Tag::DataMissing));
    }
    Ok(rows)
}

/// Puts rows at a target where there are none.
fn create<L: Ledger>(
    alloc: Global,
    trial: &mut Trial,
    target: &Path,
    rows: Rows,
    steps: &mut Steps<L>,
) -> Result<(), Halt>
    ensures rows { Leaves result trial.new.after (created target.now rows trial.old.after) }
    ensures before { OnOk result (trial.new.before ≡ trial.old.before) }
{
    if trial.has_within(alloc, target, steps)? {
        return Err(refused(Tag::DataExists));
    }
    put_all(alloc, trial, rows, steps)?;
    Ok(())
}

/// Takes out the rows at a target where there are some.
fn delete<L: Ledger>(
    alloc: Global,
    trial: &mut Trial,
    target: &Path,
    steps: &mut Steps<L>,
) -> Result<(), Halt>
    ensures rows { Leaves result trial.new.after (deleted target.now trial.old.after) }
    ensures before { OnOk result (trial.new.before ≡ trial.old.before) }
{
    if !trial.has_within(alloc, target, steps)? {
        return Err(refused(Tag::DataMissing));
    }
    trial.cut(alloc, target, steps)?;
    Ok(())
}

/// Makes the change of an operation at a target.
fn change<L: Ledger>(
    alloc: Global,
    schema: &Schema,
    trial: &mut Trial,
    op: EditOp,
    target: &Path,
    value: &Option<Payload>,
    steps: &mut Steps<L>,
) -> Result<(), Halt>
    requires path { is_path_of schema.now target.now ≡ true }
    requires place { is_place schema.now target.now ≡ true }
    ensures rows { Leaves result trial.new.after (performed op schema.now target.now value.now trial.old.after) }
    ensures before { OnOk result (trial.new.before ≡ trial.old.before) }
{
    match op {
        EditOp::Create => {
            let rows = new_rows(alloc, schema, trial, target, value, steps)?;
            create(alloc, trial, target, rows, steps)
        }
        EditOp::Merge => {
            let rows = new_rows(alloc, schema, trial, target, value, steps)?;
            Ok(put_all(alloc, trial, rows, steps)?)
        }
        EditOp::Replace => {
            let rows = new_rows(alloc, schema, trial, target, value, steps)?;
            trial.cut(alloc, target, steps)?;
            Ok(put_all(alloc, trial, rows, steps)?)
        }
        EditOp::Delete => delete(alloc, trial, target, steps),
        EditOp::Remove => Ok(trial.cut(alloc, target, steps)?),
        EditOp::Insert | EditOp::Move => Err(refused(Tag::InvalidValue)),
    }
}

/// Makes an edit.
pub fn make<L: Ledger>(
    alloc: Global,
    schema: &Schema,
    trial: &mut Trial,
    edit: &Edit,
    steps: &mut Steps<L>,
) -> Result<(), Halt>
    ensures rows { Leaves result trial.new.after (edited schema.now trial.old.after edit.now) }
    ensures before { OnOk result (trial.new.before ≡ trial.old.before) }
{
    let target = read_path(alloc, schema, &edit.target)?;
    change(alloc, schema, trial, edit.op, &target, &edit.value, steps)?;
    if trial.exceeds(alloc, MOST_ROWS, steps)? {
        return Err(refused(Tag::TooBig));
    }
    Ok(())
}

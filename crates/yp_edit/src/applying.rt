//! Applying patches.
ghost use Rattle.std.specs.Prelude.{◌≡◌, ◌^◌, ◌<◌, [], length, IfOk, OnOk, OnErr};
ghost use Rattle.yp_schema.specs.Datastore.{IsDatastore};
ghost use Rattle.yp_changes.specs.Changes.{changed_rows};
ghost use Rattle.yp_edit.specs.Answers.{SaysAll, LeavesAll, NamesOneOf};
ghost use Rattle.yp_edit.specs.Patches.{of_edit, edited, all_edited, changes_by, applied};

use crate::edit::make;
use crate::fault::EditFault;
use crate::halt::{Halt, Refusal};
use crate::laws::a_patch_keeps_a_datastore;
use crate::trial::Trial;
use std::alloc::Global;
use std::sync::ledger::Ledger;
use yp_base::steps::Steps;
use yp_changes::changed::Changed;
use yp_changes::commit::commit;
use yp_patch::patch::{Edit, Edits, Patch};
use yp_schema::schema::Schema;
use yp_tree::tree::Tree;

/// Makes an edit of this number.
fn make_numbered<L: Ledger>(
    alloc: Global,
    schema: &Schema,
    trial: &mut Trial,
    number: u32,
    edit: &Edit,
    steps: &mut Steps<L>,
) -> Result<(), EditFault>
    ensures rows { LeavesAll result trial.new.after (of_edit number (edited schema.now trial.old.after edit.now)) }
    ensures before { OnOk result (trial.new.before ≡ trial.old.before) }
{
    match make(alloc, schema, trial, edit, steps) {
        Ok(()) => Ok(()),
        Err(Halt::Refused(refusal)) => {
            let Refusal { tag, path } = refusal;
            Err(EditFault::Refused {
                edit: number,
                tag,
                path,
            })
        }
        Err(Halt::Memory) => Err(EditFault::Memory),
    }
}

/// Makes edits in order, until one is refused.
fn make_all<L: Ledger>(
    alloc: Global,
    schema: &Schema,
    trial: &mut Trial,
    edits: &Edits,
    steps: &mut Steps<L>,
) -> Result<(), EditFault>
    requires { length edits.now < 2 ^ 32 }
    ensures rows { LeavesAll result trial.new.after (all_edited schema.now 0 trial.old.after edits.now) }
    ensures before { OnOk result (trial.new.before ≡ trial.old.before) }
{
    let mut number = 0;
    for edit in edits.items() {
        make_numbered(alloc, schema, trial, number, edit, steps)?;
        number += 1;
    }
    Ok(())
}

/// The rows that a patch changes in a tree, which stays as it is.
fn changes_of<L: Ledger>(
    alloc: Global,
    schema: &Schema,
    tree: &Tree,
    patch: &Patch,
    steps: &mut Steps<L>,
) -> Result<Changed, EditFault>
    requires { length patch.now.edits < 2 ^ 32 }
    ensures { SaysAll result (changes_by schema.now tree.now patch.now) }
{
    let mut trial = Trial::new(alloc, tree);
    make_all(alloc, schema, &mut trial, &patch.edits, steps)?;
    Ok(trial.changes(alloc, steps)?)
}

/// Applies a patch (RFC 8072): its edits in order, all of them or none. It gives the rows that differ
/// between the tree before the patch and after it, in the order of their paths, once each; edits that
/// undo each other leave none. `Refused` names the first edit that is refused, counted from 0, with the
/// error of the first of these steps that it meets: the target's path, a key leaf as the target, an
/// insert or a move, the value, what must stand above the target, what must or mustn't stand at it, and
/// how many rows there are. After a refusal, and where memory ran out, the tree is as it was. A datastore of the
/// schema stays one.
pub fn apply<L: Ledger>(
    alloc: Global,
    schema: &Schema,
    tree: &mut Tree,
    patch: &Patch,
    steps: &mut Steps<L>,
) -> Result<Changed, EditFault>
    requires { length patch.now.edits < 2 ^ 32 }
    ensures applied { LeavesAll result tree.new (applied schema.now tree.old patch.now) }
    ensures changed { IfOk result (λ changed. changed ≡ changed_rows tree.old tree.new) }
    ensures quiet { IfOk result (λ changed. tree.new ≡ tree.old → changed ≡ []) }
    ensures number { NamesOneOf result (length patch.now.edits) }
    ensures unchanged { OnErr result (tree.new ≡ tree.old) }
    ensures datastore { IsDatastore schema.now tree.old → OnOk result (IsDatastore schema.now tree.new) }
{
    a_patch_keeps_a_datastore();
    let _rows = tree.len();
    let changed = changes_of(alloc, schema, tree, patch, steps)?;
    commit(alloc, tree, &changed, steps)?;
    Ok(changed)
}

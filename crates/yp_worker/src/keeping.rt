//! What a worker keeps besides its state from entry to entry: a second tree, for the feeds that send on change
//! what a filter selects, and what classes select.
ghost use Rattle.std.specs.Prelude.{◌≡◌, ◌<◌, List, None, true, false, is_some, IfSome, OnOk};
ghost use Rattle.yp_base.specs.declared.row.Row.{Row};
ghost use Rattle.yp_base.specs.Rows.{AreInOrder};
ghost use Rattle.yp_schema.specs.declared.schema.SchemaNode.{SchemaNode};
ghost use Rattle.yp_patch.specs.declared.patch.Patch.{Patch};
ghost use Rattle.yp_changes.specs.Changes.{changed_rows};
ghost use Rattle.yp_journal.specs.declared.command.Command.TheVariants.{Edit};
ghost use Rattle.yp_journal.specs.History.{JournalState, next_state};
ghost use Rattle.yp_slot.specs.Classes.{look_back};
ghost use Rattle.yp_worker.specs.declared.contents.Selected.{Selected as SelectedThere};
ghost use Rattle.yp_worker.specs.Contents.{AreSelected};
ghost use Rattle.yp_worker.specs.Workers.{IsFormer};

use crate::contents::Selected;
use std::alloc::Global;
use std::sync::ledger::{Blank, Ledger};
use yp_base::memory::NoMemory;
use yp_base::steps::Steps;
use yp_changes::changed::Changed;
use yp_changes::former::{follow, former};
use yp_journal::command::Command;
use yp_roster::roster::Roster;
use yp_tree::tree::Tree;

/// Whether a command is a patch.
fn is_patch(command: &Command) -> bool
    ensures { (patch : Patch) → command.now ≡ Edit patch → result ≡ true }
{
    matches!(command, Command::Edit(_))
}

/// Makes a tree of the rows that a patch found, where a class sends on change what a filter selects and there
/// is none yet; and lets the one that there is go where no class does. It counts no step of it.
pub(crate) fn find_former<L: Ledger>(
    alloc: Global,
    command: &Command,
    roster: &Roster,
    tree: &Tree,
    changed: &Changed,
    kept: &mut Option<Tree>,
    blank: Blank,
) -> Result<(), NoMemory>
    requires name { blank.name ≡ L.name }
    requires parts { blank.parts ≡ L.parts }
    requires some { 0 < L.parts }
    requires changed { (before : List Row) × AreInOrder before × (changed.now ≡ changed_rows before tree.now) }
    ensures former { OnOk result ((before : List Row) → AreInOrder before → changed.now ≡ changed_rows before tree.now → IsFormer before kept.old → IsFormer before kept.new) }
    ensures there { OnOk result ((patch : Patch) → command.now ≡ Edit patch → look_back roster.now.classes.all.items ≡ true → is_some kept.new ≡ true) }
    ensures spare { OnOk result ((patch : Patch) → command.now ≡ Edit patch → look_back roster.now.classes.all.items ≡ false → kept.new ≡ None) }
{
    if !is_patch(command) {
        return Ok(());
    }
    if !roster.looks_back() {
        *kept = None;
        return Ok(());
    }
    if kept.is_none() {
        let mut steps = Steps::<L>::open(blank);
        *kept = Some(former(alloc, tree, changed, &mut steps)?);
    }
    Ok(())
}

/// The tree that is kept, where one is.
pub(crate) fn tree_of(kept: &Option<Tree>) -> Option<&Tree>
    ensures rows { (rows : List Row) → IsFormer rows kept.now → IfSome result (λ tree. tree.now ≡ rows) }
    ensures there { is_some result ≡ is_some kept.now }
{
    match kept {
        Some(tree) => Some(tree),
        None => None,
    }
}

/// Makes the changes of an entry in the tree that is kept, where one is: it is as the rows were before. It
/// counts no step of it.
pub(crate) fn follow_with<L: Ledger>(
    alloc: Global,
    kept: &mut Option<Tree>,
    changed: &Changed,
    blank: Blank,
) -> Result<(), NoMemory>
    requires name { blank.name ≡ L.name }
    requires parts { blank.parts ≡ L.parts }
    requires some { 0 < L.parts }
    requires changed { (before : List Row) × (after : List Row) × AreInOrder after × (changed.now ≡ changed_rows before after) × IsFormer before kept.old }
    ensures { OnOk result ((before after : List Row) → AreInOrder after → changed.now ≡ changed_rows before after → IsFormer before kept.old → IsFormer after kept.new) }
{
    if let Some(mut tree) = kept.take() {
        let mut steps = Steps::<L>::open(blank);
        follow(alloc, &mut tree, changed, &mut steps)?;
        *kept = Some(tree);
    }
    Ok(())
}

/// Whether all that is selected is kept past an entry: users read alike, and no row is changed. What is no
/// longer asked for is let go where subscriptions are modified or end.
fn keeps_selections(command: &Command, changed: &Changed) -> bool
    ensures { result ≡ true → (nodes : List SchemaNode) (before after : JournalState) (contents : List SelectedThere)
        → AreInOrder before.rows → AreInOrder after.rows → after ≡ next_state nodes before command.now → changed.now ≡ changed_rows before.rows after.rows
        → AreSelected nodes before contents → AreSelected nodes after contents }
{
    match command {
        Command::Rules(_) => false,
        Command::Edit(_) => changed.items().is_empty(),
        Command::Tick(_) => true,
        Command::Establish { .. } => true,
        Command::Configure { .. } => true,
        Command::Resync { .. } => true,
        Command::Take { .. } => true,
        Command::Modify { .. } => false,
        Command::Reconfigure { .. } => false,
        Command::Delete { .. } => false,
        Command::Kill { .. } => false,
        Command::Unconfigure { .. } => false,
    }
}

/// Lets what was selected go where an entry may have changed it.
pub(crate) fn let_go(
    alloc: Global,
    command: &Command,
    changed: &Changed,
    contents: &mut Vec<Selected>,
)
    ensures { (nodes : List SchemaNode) (before after : JournalState)
        → AreInOrder before.rows → AreInOrder after.rows → after ≡ next_state nodes before command.now → changed.now ≡ changed_rows before.rows after.rows
        → AreSelected nodes before contents.old.items → AreSelected nodes after contents.new.items }
{
    if !keeps_selections(command, changed) {
        *contents = Vec::new(alloc);
    }
}

//! Change updates, of which a tree takes all edits or none.
ghost use Rattle.std.specs.Prelude.{◌≡◌, ◌++◌, ◌<◌, [], List, OnOk, OnErr, IfOk};
ghost use Rattle.yp_base.specs.declared.path.Seg.{Seg};
ghost use Rattle.yp_base.specs.Rows.{AreInOrder, put_rows, rows_within, rows_without, changed_by};
ghost use Rattle.yp_receiver.specs.Gone.{AreGone, is_below_one, is_targeted, lost_paths, without_paths};

use crate::finder::Finder;
use std::alloc::Global;
use std::marker::Brand;
use std::sync::ledger::{Blank, Ledger};
use yp_base::memory::{Duplicate, NoMemory};
use yp_base::notice::Change;
use yp_base::path::{Path, is_covered};
use yp_base::row::{Row, Rows};
use yp_base::steps::Steps;
use yp_tree::rising::Rising;
use yp_tree::tree::Tree;

/// Makes one edit: it takes away the rows at or below its target, and puts its own. After `NoMemory` the
/// tree is as it was.
fn hear_change(alloc: Global, change: &Change, tree: &mut Tree) -> Result<(), NoMemory>
    ensures heard { OnOk result (tree.new ≡ put_rows change.now.rows (rows_without change.now.target tree.old)) }
    ensures unchanged { OnErr result (tree.new ≡ tree.old) }
{
    tree.renew(alloc, &change.target, &change.rows)
}

/// Makes one edit of rows that are put. After `NoMemory` part of it may be made.
fn put_edit(alloc: Global, change: &Change, rows: &mut Rising) -> Result<(), NoMemory>
    ensures { OnOk result (rows.new ≡ put_rows change.now.rows (rows_without change.now.target rows.old)) }
{
    rows.cut(alloc, &change.target)?;
    for row in change.rows.items() {
        rows.put(alloc, row.copy(alloc)?)?;
    }
    Ok(())
}

/// The rows that edits, one after another, make of none, in the order of their paths.
pub fn changed_from_none(alloc: Global, changes: &[Change]) -> Result<Rows, NoMemory>
    ensures rows { IfOk result (λ rows. rows ≡ changed_by changes.now []) }
    ensures order { IfOk result (λ rows. AreInOrder rows) }
{
    let mut rows = Rising::new(alloc);
    for change in changes {
        put_edit(alloc, change, &mut rows)?;
    }
    let _count = rows.len();
    rows.into_rows(alloc)
}

/// The targets of edits, in order.
fn targets_of<'a>(alloc: Global, changes: &'a [Change]) -> Result<Vec<&'a Path>, NoMemory>
    ensures { IfOk result (λ targets. (path : List Seg) → is_below_one targets.items path ≡ is_targeted changes.entry.now path) }
{
    let mut targets = Vec::with_capacity(alloc, changes.len())?;
    for change in changes {
        targets.push(&change.target)?;
    }
    targets.sort()?;
    Ok(targets)
}

/// The rows of a tree, and the rows that edits put over them.
#[derive(Drop)]
struct Layers<'a> {
    rows: &'a Tree,
    news: Finder<'a>,
}

impl<'a> Layers<'a> {
    fn new(rows: &'a Tree, news: &'a [Row]) -> Layers<'a>
        requires { AreInOrder news.now }
        ensures rows { result.rows.now ≡ rows.now }
        ensures news { result.news ≡ news.now }
    {
        Layers {
            rows,
            news: Finder::new(news),
        }
    }

    /// Adds copies of the paths of the rows at or below a target that have no new row.
    fn add_lost<L: Ledger>(
        &mut self,
        alloc: Global,
        target: &Path,
        gone: &mut Vec<Path>,
        steps: &mut Steps<L>,
    ) -> Result<(), NoMemory>
        ensures lost { OnOk result (gone.new.items ≡ gone.old.items ++ lost_paths self.old.news (rows_within target.now self.old.rows.now)) }
        ensures same { self.new ≡ self.old }
    {
        for (path, _value) in self.rows.within(alloc, target, steps)? {
            if !self.news.has(path) {
                gone.push(path.copy(alloc)?)?;
            }
        }
        Ok(())
    }

    /// Copies of the paths of the rows that edits take away. What is at or below a target is looked at
    /// once, whatever other targets it has.
    fn gone<L: Ledger>(
        &mut self,
        alloc: Global,
        changes: &[Change],
        steps: &mut Steps<L>,
    ) -> Result<Vec<Path>, NoMemory>
        ensures { IfOk result (λ gone. AreGone changes.now self.old.news self.old.rows.now gone.items) }
    {
        let targets = targets_of(alloc, changes)?;
        let mut gone = Vec::new(alloc);
        let mut swept = None;
        for target in targets.as_slice() {
            if !is_covered(swept, target) {
                self.add_lost(alloc, target, &mut gone, steps)?;
                swept = Some(*target);
            }
        }
        Ok(gone)
    }
}

/// Takes out the rows of these paths. It takes no memory.
fn take_out(tree: &mut Tree, paths: &[Path])
    ensures { tree.new ≡ without_paths paths.now tree.old }
{
    for path in paths {
        let _value = tree.remove(path);
    }
}

/// Makes several edits. What they come to is made first, beside the tree; then all new rows are put in the
/// place of those at or below the first target; and what is to go below the others is taken out at last,
/// which takes no memory. So after `NoMemory` the tree is as it was.
fn hear_several<L: Ledger>(
    alloc: Global,
    changes: &[Change],
    tree: &mut Tree,
    blank: Blank,
) -> Result<(), NoMemory>
    requires name { blank.name ≡ L.name }
    requires parts { blank.parts ≡ L.parts }
    requires some { 0 < L.parts }
    ensures heard { OnOk result (tree.new ≡ changed_by changes.now tree.old) }
    ensures unchanged { OnErr result (tree.new ≡ tree.old) }
{
    let Some((first, later)) = changes.split_first() else {
        return Ok(());
    };
    let _count = tree.len();
    let news = changed_from_none(alloc, changes)?;
    let mut steps = Steps::<L>::open(blank);
    let mut layers = Layers::new(tree, news.items());
    let gone = layers.gone(alloc, later, &mut steps)?;
    tree.renew(alloc, &first.target, &news)?;
    take_out(tree, gone.as_slice());
    Ok(())
}

/// Makes the edits of a change update, in order: each takes away the rows at or below its target, and puts
/// its own. After `NoMemory` the tree is as it was.
pub fn hear_changes(alloc: Global, changes: &[Change], tree: &mut Tree) -> Result<(), NoMemory>
    ensures heard { OnOk result (tree.new ≡ changed_by changes.now tree.old) }
    ensures unchanged { OnErr result (tree.new ≡ tree.old) }
{
    match changes {
        [change] => hear_change(alloc, change, tree),
        _ => hear_several::<Brand>(alloc, changes, tree, Blank::new(1)),
    }
}

//! Changes that a tree takes, all or none.
ghost use Rattle.std.specs.Prelude.{◌≡◌, List, IfOk, OnOk, OnErr};
ghost use Rattle.std.specs.List.{filter_map};
ghost use Rattle.yp_base.specs.declared.row.Row.{Row};
ghost use Rattle.yp_base.specs.Rows.{put_rows};
ghost use Rattle.yp_changes.specs.Commits.{added_row, given_row, given_value, set_rows, without_missing, Differ, KeepsOthers};

use crate::changed::Changed;
use crate::renewal::renewed;
use std::alloc::Global;
use std::sync::ledger::Ledger;
use yp_base::memory::{Duplicate, NoMemory};
use yp_base::path::Path;
use yp_base::row::{Row, Rows, Value};
use yp_base::series::Series;
use yp_base::steps::Steps;
use yp_tree::tree::Tree;

// Where the rows of a tree are at most so many times the changes, the tree is made again; else its rows are
// changed one by one, each found by some forty comparisons of paths. The more keys a path has, the longer
// a comparison takes beside a copy of a row: for each so many keys the tree is made again at one time more rows, up to
// some times.
const SHARE: usize = 4;

const KEYS_A_SHARE: usize = 12;

const MOST_SHARES: usize = 32;

/// Copies of the new rows of the paths that had none.
fn added_rows(alloc: Global, changed: &Changed) -> Result<Rows, NoMemory>
    ensures { IfOk result (λ rows. rows ≡ filter_map added_row changed.now) }
{
    let mut rows = Vec::new(alloc);
    for change in changed.items() {
        if let (None, Some(value)) = (&change.old, &change.new) {
            rows.push(Row {
                path: change.path.copy(alloc)?,
                value: value.copy(alloc)?,
            })?;
        }
    }
    Ok(Series::from_vec(rows))
}

/// Copies of the new values of the paths that had a row.
fn given_values(alloc: Global, changed: &Changed) -> Result<Vec<Value>, NoMemory>
    ensures { IfOk result (λ values. values.items ≡ filter_map given_value changed.now) }
{
    let mut values = Vec::new(alloc);
    for change in changed.items() {
        if let (Some(_), Some(value)) = (&change.old, &change.new) {
            values.push(value.copy(alloc)?)?;
        }
    }
    Ok(values)
}

/// Puts rows, until memory runs out.
fn put_all(alloc: Global, tree: &mut Tree, rows: Rows) -> Result<(), NoMemory>
    ensures rows { OnOk result (tree.new ≡ put_rows rows tree.old) }
    ensures others { KeepsOthers rows tree.old tree.new }
{
    for row in rows.into_vec(alloc)? {
        tree.put(alloc, row)?;
    }
    Ok(())
}

/// Takes out again what was put at paths that had no row.
fn take_back(tree: &mut Tree, changed: &Changed)
    ensures { tree.new ≡ without_missing (λ change. change.old) changed.now tree.old }
{
    for change in changed.items() {
        if change.old.is_none() {
            let _row = tree.remove(&change.path);
        }
    }
}

/// Gives the rows of the paths that had one these new values, in order.
fn give(tree: &mut Tree, changed: &Changed, values: Vec<Value>)
    requires { values.items ≡ filter_map given_value changed.now }
    ensures { tree.new ≡ set_rows (filter_map given_row changed.now) tree.old }
{
    let mut rest = values.into_iter();
    for change in changed.items() {
        if change.old.is_some() && change.new.is_some() {
            if let Some(value) = rest.next() {
                tree.set(&change.path, value);
            }
        }
    }
}

/// Takes out the rows of paths that are to have none.
fn take_out(tree: &mut Tree, changed: &Changed)
    ensures { tree.new ≡ without_missing (λ change. change.new) changed.now tree.old }
{
    for change in changed.items() {
        if change.new.is_none() {
            let _row = tree.remove(&change.path);
        }
    }
}

/// Makes changes of a tree's rows, path by path. What takes memory comes first: the rows of new paths and
/// the new values of the others are copied, and then the rows are put, and taken out again where it runs
/// out. After `NoMemory` the tree is as it was.
fn change_rows(alloc: Global, tree: &mut Tree, changed: &Changed) -> Result<(), NoMemory>
    requires { (after : List Row) × Differ changed.now tree.old after }
    ensures made { OnOk result (Differ changed.now tree.old tree.new) }
    ensures unchanged { OnErr result (tree.new ≡ tree.old) }
{
    let _rows = tree.len();
    let added = added_rows(alloc, changed)?;
    let given = given_values(alloc, changed)?;
    if let Err(fault) = put_all(alloc, tree, added) {
        let _left = tree.len();
        take_back(tree, changed);
        return Err(fault);
    }
    give(tree, changed, given);
    take_out(tree, changed);
    Ok(())
}

/// How many keys a path has.
fn count_keys(path: &Path) -> usize {
    let mut count: usize = 0;
    for segment in path.items() {
        count = count.saturating_add(segment.keys.len());
    }
    count
}

/// How many times the changes the rows of a tree may be where it is made again, by the keys of the first change's path.
fn share_of(changed: &Changed) -> usize {
    match changed.items().first() {
        Some(change) => (SHARE + count_keys(&change.path) / KEYS_A_SHARE).min(MOST_SHARES),
        None => SHARE,
    }
}

/// Makes changes of a tree's rows. After `NoMemory` the tree is as it was.
pub fn commit<L: Ledger>(
    alloc: Global,
    tree: &mut Tree,
    changed: &Changed,
    steps: &mut Steps<L>,
) -> Result<(), NoMemory>
    requires { (after : List Row) × Differ changed.now tree.old after }
    ensures made { OnOk result (Differ changed.now tree.old tree.new) }
    ensures unchanged { OnErr result (tree.new ≡ tree.old) }
{
    if tree.len() <= changed.len().saturating_mul(share_of(changed)) {
        *tree = renewed(alloc, tree, changed, steps)?;
        return Ok(());
    }
    change_rows(alloc, tree, changed)
}

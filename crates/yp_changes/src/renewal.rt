//! The tree that many changes make of another.
ghost use Rattle.std.specs.Prelude.{◌≡◌, [], List, IfOk, IfSome, IfNone, OnOk, option_map};
ghost use Rattle.yp_base.specs.declared.row.Row.{Row};
ghost use Rattle.yp_base.specs.Rows.{AreInOrder, row_of};
ghost use Rattle.yp_changes.specs.ChangeLaws.{AreSorted};
ghost use Rattle.yp_changes.specs.Commits.{Differ};
ghost use Rattle.yp_changes.specs.Renewals.{new_row, made, with_row, Begins};

use crate::changed::{Changed, ChangedRow};
use std::alloc::Global;
use std::cmp::Ordering;
use std::sync::ledger::Ledger;
use yp_base::memory::{Duplicate, NoMemory};
use yp_base::path::Path;
use yp_base::row::{Row, Value};
use yp_base::steps::Steps;
use yp_tree::rising::Rising;
use yp_tree::tree::Tree;

/// The first path of rows and of changes, with the row that it is to have, and what is past it.
#[derive(Drop)]
struct Next<'a> {
    row: Option<(&'a Path, &'a Value)>,
    rows: &'a [Row],
    changes: &'a [ChangedRow],
}

/// The row that a change leaves at its path.
fn row_after(change: &ChangedRow) -> Option<(&Path, &Value)>
    ensures { option_map (λ row. row_of (row.0.now, row.1.now)) result ≡ new_row change.now }
{
    match &change.new {
        Some(value) => Some((&change.path, value)),
        None => None,
    }
}

/// The first path of rows and of changes, and `None` where there are neither.
fn first_of<'a>(rows: &'a [Row], changes: &'a [ChangedRow]) -> Option<Next<'a>>
    requires rows { AreInOrder rows.now }
    requires changes { AreSorted changes.now }
    ensures none { IfNone result (made changes.entry.now rows.entry.now ≡ []) }
    ensures some { IfSome result (λ next. Begins rows.entry.now changes.entry.now (option_map (λ row. row_of (row.0.now, row.1.now)) next.row) next.rows.now next.changes.now) }
{
    match (rows.split_first(), changes.split_first()) {
        (Some((row, rows_left)), Some((change, changes_left))) => {
            Some(match row.path.cmp(&change.path) {
                Ordering::Less => Next {
                    row: Some((&row.path, &row.value)),
                    rows: rows_left,
                    changes,
                },
                Ordering::Equal => Next {
                    row: row_after(change),
                    rows: rows_left,
                    changes: changes_left,
                },
                Ordering::Greater => Next {
                    row: row_after(change),
                    rows,
                    changes: changes_left,
                },
            })
        }
        (Some((row, rows_left)), None) => Some(Next {
            row: Some((&row.path, &row.value)),
            rows: rows_left,
            changes,
        }),
        (None, Some((change, changes_left))) => Some(Next {
            row: row_after(change),
            rows,
            changes: changes_left,
        }),
        (None, None) => None,
    }
}

/// Puts a copy of a row, where there is one.
fn put_copy(alloc: Global, news: &mut Rising, row: Option<(&Path, &Value)>) -> Result<(), NoMemory>
    ensures { OnOk result (news.new ≡ with_row (option_map (λ row. row_of (row.0.now, row.1.now)) row.entry) news.old) }
{
    if let Some((path, value)) = row {
        let row = Row {
            path: path.copy(alloc)?,
            value: value.copy(alloc)?,
        };
        news.put(alloc, row)?;
    }
    Ok(())
}

/// A tree of what changes make of rows, all in the order of their paths. Each is compared with one or two
/// others.
fn merged(alloc: Global, rows: &[Row], changes: &[ChangedRow]) -> Result<Tree, NoMemory>
    requires rows { AreInOrder rows.now }
    requires changes { AreSorted changes.now }
    ensures { IfOk result (λ tree. tree ≡ made changes.now rows.now) }
{
    let mut news = Rising::new(alloc);
    let mut rest = (rows, changes);
    while let Some(next) = first_of(rest.0, rest.1) {
        put_copy(alloc, &mut news, next.row)?;
        rest = (next.rows, next.changes);
    }
    news.into_tree(alloc)
}

/// The tree that changes make of another, which stays as it is.
pub fn renewed<L: Ledger>(
    alloc: Global,
    tree: &Tree,
    changed: &Changed,
    steps: &mut Steps<L>,
) -> Result<Tree, NoMemory>
    requires { (after : List Row) × Differ changed.now tree.now after }
    ensures { IfOk result (λ new. Differ changed.now tree.now new) }
{
    let _rows = tree.len();
    let top = Path::top(alloc)?;
    let rows = tree.rows_within(alloc, &top, steps)?;
    merged(alloc, rows.items(), changed.items())
}

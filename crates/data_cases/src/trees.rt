//! Calls of `yp_tree`: steps on one tree, each with its answer.
ghost use Rattle.std.specs.Prelude.{◌≡◌, ◌<◌};

use case_frame::fault::{CaseFault, OrFault};
use case_frame::given;
use case_frame::shown::{self, Answer, Told};
use serde_json::Value as Json;
use std::alloc::Global;
use std::marker::Brand;
use std::sync::ledger::{Blank, Ledger};
use yp_base::memory::Duplicate;
use yp_base::path::Path;
use yp_base::row::{Row, Value};
use yp_base::steps::Steps;
use yp_tree::tree::Tree;

/// A tree, a copy of it that was kept, and the visits that its calls count.
#[derive(Drop)]
struct Trees<L: Ledger> {
    tree: Tree,
    kept: Tree,
    visits: Steps<L>,
}

pub fn answer(alloc: Global, call: &str, arguments: &Json) -> Answer {
    match call {
        "tree" => Ok(Some(steps(alloc, given::items(arguments)?)?)),
        _ => Ok(None),
    }
}

fn steps(alloc: Global, steps: &[Json]) -> OrFault<String> {
    taken::<Brand>(alloc, steps, Blank::new(1))
}

/// The answers of steps, from a tree without rows on.
fn taken<L: Ledger>(alloc: Global, steps: &[Json], blank: Blank) -> OrFault<String>
    requires name { blank.name ≡ L.name }
    requires parts { blank.parts ≡ L.parts }
    requires some { 0 < L.parts }
{
    let mut trees = Trees::<L> {
        tree: Tree::new(alloc),
        kept: Tree::new(alloc),
        visits: Steps::open(blank),
    };
    let mut told = Told::new(alloc);
    told.push("[");
    for each in steps {
        told.comma();
        told.push(step(alloc, &mut trees, given::items(each)?)?.as_str());
    }
    told.push("]");
    told.done()
}

/// The answer of a step: its name, and its arguments.
fn step<L: Ledger>(alloc: Global, trees: &mut Trees<L>, items: &[Json]) -> OrFault<String> {
    let (name, arguments) = items.split_first().ok_or(CaseFault::BadArgument)?;
    let name = given::text(name)?;
    match arguments {
        [] => whole_step(alloc, trees, name),
        [one] => path_step(alloc, trees, name, &given::path(alloc, one)?),
        [one, other] => pair_step(alloc, trees, name, &given::path(alloc, one)?, other),
        _ => Err(CaseFault::BadArgument),
    }
}

/// A step on the whole tree.
fn whole_step<L: Ledger>(alloc: Global, trees: &mut Trees<L>, name: &str) -> OrFault<String> {
    match name {
        "len" => length(alloc, &trees.tree),
        "rows" => rows(alloc, &trees.tree),
        "kept" => rows(alloc, &trees.kept),
        "keep" => keep(alloc, trees),
        _ => Err(CaseFault::BadArgument),
    }
}

fn length(alloc: Global, tree: &Tree) -> OrFault<String> {
    let length = tree.len();
    Ok(format!(in alloc; "{length}")?)
}

/// All rows of a copy, given away.
fn rows(alloc: Global, tree: &Tree) -> OrFault<String> {
    shown::rows(alloc, &tree.copy(alloc)?.into_rows(alloc)?)
}

fn keep<L: Ledger>(alloc: Global, trees: &mut Trees<L>) -> OrFault<String> {
    trees.kept = trees.tree.copy(alloc)?;
    length(alloc, &trees.kept)
}

/// A step at one path.
fn path_step<L: Ledger>(
    alloc: Global,
    trees: &mut Trees<L>,
    name: &str,
    path: &Path,
) -> OrFault<String> {
    match name {
        "get" => get(alloc, trees, path),
        "remove" => optional_value(alloc, trees.tree.remove(path).as_ref()),
        "cut" => shown::rows(alloc, &trees.tree.cut(alloc, path)?),
        "within" => within(alloc, trees, path),
        "rows_within" => copied_within(alloc, trees, path),
        "first_within" => first_within(alloc, trees, path),
        _ => Err(CaseFault::BadArgument),
    }
}

fn optional_value(alloc: Global, value: Option<&Value>) -> OrFault<String> {
    match value {
        Some(value) => shown::value(alloc, value),
        None => shown::plain(alloc, "null"),
    }
}

fn optional_row(alloc: Global, row: Option<(&Path, &Value)>) -> OrFault<String> {
    let mut told = Told::new(alloc);
    match row {
        Some((path, value)) => told.row(path, value),
        None => told.push("null"),
    }
    told.done()
}

fn get<L: Ledger>(alloc: Global, trees: &mut Trees<L>, path: &Path) -> OrFault<String> {
    optional_value(alloc, trees.tree.get(path, &mut trees.visits))
}

fn first_within<L: Ledger>(alloc: Global, trees: &mut Trees<L>, path: &Path) -> OrFault<String> {
    optional_row(alloc, trees.tree.first_within(path, &mut trees.visits))
}

fn copied_within<L: Ledger>(alloc: Global, trees: &mut Trees<L>, path: &Path) -> OrFault<String> {
    shown::rows(
        alloc,
        &trees.tree.rows_within(alloc, path, &mut trees.visits)?,
    )
}

fn within<L: Ledger>(alloc: Global, trees: &mut Trees<L>, path: &Path) -> OrFault<String> {
    let mut told = Told::new(alloc);
    told.push("[");
    for row in trees
        .tree
        .within(alloc, path, &mut trees.visits)?
        .as_slice()
    {
        told.comma();
        told.row(row.0, row.1);
    }
    told.push("]");
    told.done()
}

/// A step at a path, with a path, a value or rows beside it.
fn pair_step<L: Ledger>(
    alloc: Global,
    trees: &mut Trees<L>,
    name: &str,
    path: &Path,
    other: &Json,
) -> OrFault<String> {
    match name {
        "next" => next(alloc, trees, path, &given::path(alloc, other)?),
        "put" => put(alloc, &mut trees.tree, path, other),
        "replace" => replace(alloc, &mut trees.tree, path, other),
        "set" => set(alloc, &mut trees.tree, path, other),
        "renew" => renew(alloc, &mut trees.tree, path, other),
        _ => Err(CaseFault::BadArgument),
    }
}

fn next<L: Ledger>(
    alloc: Global,
    trees: &mut Trees<L>,
    after: &Path,
    under: &Path,
) -> OrFault<String> {
    optional_row(alloc, trees.tree.next(after, under, &mut trees.visits))
}

fn put(alloc: Global, tree: &mut Tree, path: &Path, value: &Json) -> OrFault<String> {
    let path = path.copy(alloc)?;
    let value = given::value(alloc, value)?;
    tree.put(alloc, Row { path, value })?;
    shown::truth(alloc, true)
}

/// The value that the row had.
fn replace(alloc: Global, tree: &mut Tree, path: &Path, value: &Json) -> OrFault<String> {
    let path = path.copy(alloc)?;
    let value = given::value(alloc, value)?;
    let before = tree.replace(alloc, Row { path, value })?;
    optional_value(alloc, before.as_ref())
}

fn set(alloc: Global, tree: &mut Tree, path: &Path, value: &Json) -> OrFault<String> {
    tree.set(path, given::value(alloc, value)?);
    shown::truth(alloc, true)
}

fn renew(alloc: Global, tree: &mut Tree, under: &Path, rows: &Json) -> OrFault<String> {
    tree.renew(alloc, under, &given::rows(alloc, rows)?)?;
    shown::truth(alloc, true)
}

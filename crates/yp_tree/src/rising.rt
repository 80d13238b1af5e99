//! Rows while they are put, mostly in the order of their paths.
ghost use Rattle.std.specs.Prelude.{◌≡◌, ◌<◌, ◌^◌, ◌++◌, [], true, false, is_some, length, None, OnOk, OnErr, IfOk, IfErr, IfSome};
ghost use Rattle.yp_base.specs.Rows.{AreInOrder, has_within, put_row, put_rows, rows_without, value_at};
ghost use Rattle.yp_tree.specs.Risen.{is_past, kept_rows, starts_past};

use crate::tree::Tree;
use std::alloc::Global;
use std::cmp::Ordering;
use std::marker::Model;
use std::mem::replace;
use std::sync::ledger::Ledger;
use yp_base::memory::NoMemory;
use yp_base::path::Path;
use yp_base::row::{Row, Rows, Value};
use yp_base::series::Series;
use yp_base::steps::Steps;

/// How rows are kept.
#[derive(Drop)]
enum Kept {
    Appended(Vec<Row>),
    Sorted(Tree),
}

/// Rows while they are put. As long as each comes past those before it, it is appended, and its path is
/// compared with one other; from the first that doesn't on, they are found by path in a tree.
///
/// Contracts see the list of the rows, in the order of their paths and with no path twice.
#[derive(Drop)]
pub struct Rising {
    kept: Kept,
}

impl Model for Rising {
    ghost use Rattle.std.specs.Prelude.{List};
    ghost use Rattle.yp_base.specs.declared.row.Row.{Row};
    ghost use Rattle.yp_base.specs.Rows.{AreInOrder};
    ghost use Rattle.yp_tree.specs.Risen.{kept_rows};

    ghost Value = { List Row };

    ghost view = { λ r. kept_rows r.kept };

    ghost invariant = { λ r. AreInOrder (kept_rows r.kept) };
}

/// Whether a path comes past those of rows in order.
pub(crate) fn is_past(path: &Path, rows: &[Row]) -> bool
    ensures { result ≡ is_past path.now rows.now }
{
    match rows.split_last() {
        Some((last, _)) => last.path.cmp(path).is_lt(),
        None => true,
    }
}

/// Whether rows in order come past others.
fn starts_past(news: &[Row], rows: &[Row]) -> bool
    ensures { result ≡ starts_past news.now rows.now }
{
    match news.split_first() {
        Some((first, _)) => is_past(&first.path, rows),
        None => true,
    }
}

/// Rows and those behind them.
fn joined(rows: Vec<Row>, news: Vec<Row>) -> Result<Vec<Row>, NoMemory>
    ensures { IfOk result (λ all. all.items ≡ rows.items ++ news.items) }
{
    if rows.is_empty() {
        return Ok(news);
    }
    let mut all = rows;
    for row in news {
        all.push(row)?;
    }
    Ok(all)
}

/// Puts rows into a tree, one after another.
fn put_each(alloc: Global, tree: &mut Tree, news: Vec<Row>) -> Result<(), NoMemory>
    ensures { OnOk result (tree.new ≡ put_rows news.items tree.old) }
{
    for row in news {
        tree.put(alloc, row)?;
    }
    Ok(())
}

/// Whether one of rows in order has this path. Half of them are left out at each step.
fn has_path(rows: &[Row], path: &Path) -> bool
    requires { AreInOrder rows.now }
    ensures { result ≡ is_some (value_at path.now rows.now) }
{
    let mut rest = rows;
    loop {
        let (before, after) = rest.split_at(rest.len() / 2);
        match after.split_first() {
            Some((middle, later)) => match path.cmp(&middle.path) {
                Ordering::Equal => return true,
                Ordering::Less => rest = before,
                Ordering::Greater => rest = later,
            },
            None => return false,
        }
    }
}

impl Kept {
    /// The rows as a tree.
    fn into_tree(self, alloc: Global) -> Result<Tree, NoMemory>
        requires { AreInOrder (kept_rows self) }
        ensures { IfOk result (λ tree. tree ≡ kept_rows self) }
    {
        match self {
            Kept::Appended(rows) => tree_of(alloc, rows),
            Kept::Sorted(tree) => Ok(tree),
        }
    }

    /// The rows, and others in order that are put.
    fn with_all(self, alloc: Global, news: Vec<Row>) -> Result<Kept, NoMemory>
        requires order { AreInOrder (kept_rows self) }
        requires news { AreInOrder news.items }
        ensures { IfOk result (λ kept. kept_rows kept ≡ put_rows news.items (kept_rows self)) }
    {
        let mut tree = match self {
            Kept::Appended(rows) => {
                if starts_past(news.as_slice(), rows.as_slice()) {
                    return Ok(Kept::Appended(joined(rows, news)?));
                }
                tree_of(alloc, rows)?
            }
            Kept::Sorted(tree) => tree,
        };
        put_each(alloc, &mut tree, news)?;
        Ok(Kept::Sorted(tree))
    }
}

/// A tree of rows in order.
#[tactic(auto, using(yp_base::specs::RowLaws::put_to_none))]
fn tree_of(alloc: Global, rows: Vec<Row>) -> Result<Tree, NoMemory>
    requires { AreInOrder rows.items }
    ensures { IfOk result (λ tree. tree ≡ rows.items) }
{
    let mut entries = Vec::with_capacity(alloc, rows.len())?;
    for row in rows {
        let Row { path, value } = row;
        entries.push((path, value))?;
    }
    Tree::of_entries(alloc, entries)
}

impl Rising {
    /// No rows. It takes no memory.
    pub fn new(alloc: Global) -> Rising
        ensures { result ≡ [] }
    {
        Rising {
            kept: Kept::Appended(Vec::new(alloc)),
        }
    }

    /// Adds the row, or gives its value to the row that has its path. After `NoMemory` the rows are as
    /// they were.
    pub fn put(&mut self, alloc: Global, row: Row) -> Result<(), NoMemory>
        ensures rows { OnOk result (self.new ≡ put_row row self.old) }
        ensures unchanged { OnErr result (self.new ≡ self.old) }
    {
        self.replace(alloc, row)?;
        Ok(())
    }

    /// Adds rows in order, or gives their values to the rows that have their paths. Where the first of them comes past all
    /// that were appended, the others' paths are not compared. After `NoMemory` the rows may be gone.
    pub fn put_all(&mut self, alloc: Global, news: Rows) -> Result<(), NoMemory>
        requires { AreInOrder news }
        ensures { OnOk result (self.new ≡ put_rows news self.old) }
    {
        let news = news.into_vec(alloc)?;
        let Rising { kept } = replace(self, Rising::new(alloc));
        self.kept = kept.with_all(alloc, news)?;
        Ok(())
    }

    /// How many rows there are. They are in order, with no path twice.
    pub fn len(&self) -> usize
        ensures count { result ≡ length self.now }
        ensures small { result < 2 ^ 63 }
        ensures order { AreInOrder self.now }
    {
        match &self.kept {
            Kept::Appended(rows) => rows.len(),
            Kept::Sorted(tree) => tree.len(),
        }
    }

    /// Whether there is a row of this path.
    pub fn has(&self, path: &Path) -> bool
        ensures { result ≡ is_some (value_at path.now self.now) }
    {
        match &self.kept {
            Kept::Appended(rows) => {
                !is_past(path, rows.as_slice()) && has_path(rows.as_slice(), path)
            }
            Kept::Sorted(tree) => tree.has(path),
        }
    }

    /// Whether there are rows at or below a path. The rows stay as they are.
    pub fn has_within<L: Ledger>(
        &mut self,
        alloc: Global,
        under: &Path,
        steps: &mut Steps<L>,
    ) -> Result<bool, NoMemory>
        ensures found { IfOk result (λ found. found ≡ has_within under.now self.old) }
        ensures same { self.new ≡ self.old }
    {
        if self.is_before(under) {
            return Ok(false);
        }
        let tree = self.take_tree(alloc)?;
        let found = tree.first_within(under, steps).is_some();
        self.keep(tree);
        Ok(found)
    }

    /// Adds the row, or gives its value to the row that has its path. It gives back the value that this
    /// row had before, and `None` exactly where there was no such row. After `NoMemory` the rows are as
    /// they were.
    pub fn replace(&mut self, alloc: Global, row: Row) -> Result<Option<Value>, NoMemory>
        ensures rows { OnOk result (self.new ≡ put_row row self.old) }
        ensures before { IfOk result (λ before. before ≡ value_at row.path self.old) }
        ensures unchanged { OnErr result (self.new ≡ self.old) }
    {
        let row = match self.append(row)? {
            Ok(()) => return Ok(None),
            Err(row) => row,
        };
        let mut tree = self.take_tree(alloc)?;
        let before = tree.replace(alloc, row);
        self.keep(tree);
        before
    }

    /// Adds the row where each of the rows was appended and it comes past them; else it gives the row back,
    /// and the rows are as they were, as after `NoMemory`.
    pub(crate) fn append(&mut self, row: Row) -> Result<Result<(), Row>, NoMemory>
        ensures rows { IfOk result (λ appended. OnOk appended (self.new ≡ put_row row self.old)) }
        ensures absent { IfOk result (λ appended. OnOk appended (value_at row.path self.old ≡ None)) }
        ensures back { IfOk result (λ appended. IfErr appended (λ back. back ≡ row)) }
        ensures refused { IfOk result (λ appended. OnErr appended (self.new ≡ self.old)) }
        ensures unchanged { OnErr result (self.new ≡ self.old) }
    {
        if let Kept::Appended(rows) = &mut self.kept {
            if is_past(&row.path, rows.as_slice()) {
                rows.push(row)?;
                return Ok(Ok(()));
            }
        }
        Ok(Err(row))
    }

    /// Takes out the rows at or below a path. After `NoMemory` the rows are as they were.
    pub fn cut(&mut self, alloc: Global, path: &Path) -> Result<(), NoMemory>
        ensures rest { OnOk result (self.new ≡ rows_without path.now self.old) }
        ensures unchanged { OnErr result (self.new ≡ self.old) }
    {
        if self.is_before(path) {
            return Ok(());
        }
        let mut tree = self.take_tree(alloc)?;
        let cut = tree.cut(alloc, path);
        self.keep(tree);
        cut?;
        Ok(())
    }

    /// The rows of a tree.
    pub(crate) fn of_tree(tree: Tree) -> Rising
        ensures { result ≡ tree }
    {
        let _rows = tree.len();
        Rising {
            kept: Kept::Sorted(tree),
        }
    }

    /// The rows, where all of them were appended and this path doesn't come past them.
    pub(crate) fn not_before(&self, path: &Path) -> Option<&[Row]>
        ensures rows { IfSome result (λ rows. rows.now ≡ self.now) }
        ensures order { IfSome result (λ rows. AreInOrder rows.now) }
    {
        match &self.kept {
            Kept::Appended(rows) if !is_past(path, rows.as_slice()) => Some(rows.as_slice()),
            _ => None,
        }
    }

    // Whether all rows are appended ones that come before this path.
    fn is_before(&self, path: &Path) -> bool
        ensures none { result ≡ true → has_within path.now self.now ≡ false }
        ensures all { result ≡ true → rows_without path.now self.now ≡ self.now }
    {
        match &self.kept {
            Kept::Appended(rows) => is_past(path, rows.as_slice()),
            Kept::Sorted(_) => false,
        }
    }

    // The rows as a tree, which is to be given back. After `NoMemory` they are as they were.
    fn take_tree(&mut self, alloc: Global) -> Result<Tree, NoMemory>
        ensures rows { IfOk result (λ tree. tree ≡ self.old) }
        ensures unchanged { OnErr result (self.new ≡ self.old) }
    {
        match replace(&mut self.kept, Kept::Appended(Vec::new(alloc))) {
            Kept::Sorted(tree) => Ok(tree),
            Kept::Appended(rows) => {
                let tree = Tree::of_slice(alloc, rows.as_slice());
                if tree.is_err() {
                    self.kept = Kept::Appended(rows);
                }
                tree
            }
        }
    }

    // Has the rows of a tree from now on.
    fn keep(&mut self, tree: Tree)
        ensures { self.new ≡ tree }
    {
        let _rows = tree.len();
        self.kept = Kept::Sorted(tree);
    }

    /// The rows as a tree, given away.
    pub fn into_tree(self, alloc: Global) -> Result<Tree, NoMemory>
        ensures { IfOk result (λ tree. tree ≡ self) }
    {
        let Rising { kept } = self;
        kept.into_tree(alloc)
    }

    /// The rows, in order, given away.
    pub fn into_rows(self, alloc: Global) -> Result<Rows, NoMemory>
        ensures { IfOk result (λ rows. rows ≡ self) }
    {
        let Rising { kept } = self;
        match kept {
            Kept::Appended(rows) => Ok(Series::from_vec(rows)),
            Kept::Sorted(tree) => tree.into_rows(alloc),
        }
    }
}

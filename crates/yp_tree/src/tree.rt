//! Rows in an ordered map.
ghost use Rattle.std.specs.Prelude.{◌≡◌, ◌+◌, ◌^◌, ◌<◌, ◌≤◌, ◌++◌, ◌∷◌, [], true, Some, is_some, length, slice_get, map, take, option_map, option_copied, OnOk, OnErr, IfOk, IfSome};
ghost use Rattle.std.specs.Bound.{bound_map};
ghost use Rattle.yp_base.specs.Rows.{path_of, value_at, put_row, put_rows, next_row, has_within, rows_within, rows_without, AreInOrder, row_of, rows_of};
ghost use Rattle.yp_tree.specs.Begins.{Begins};
ghost use Rattle.yp_tree.specs.Gaps.{rows_from};
ghost use Rattle.yp_tree.specs.Listed.{given_back, set_row, undone, without_others, without_row};

use std::alloc::Global;
use std::collections::BTreeMap;
use std::marker::Model;
use std::ops::Bound;
use std::sync::ledger::Ledger;
use yp_base::memory::{Duplicate, NoMemory};
use yp_base::path::{Path, is_prefix};
use yp_base::row::{Row, Rows, Value};
use yp_base::series::Series;
use yp_base::steps::Steps;

// Where the rows of a tree are at most so many times the new ones, `renew` makes the tree again; else it
// changes it in place.
const SHARE: usize = 4;

/// The rows of a datastore, found by path.
#[derive(Drop)]
pub struct Tree {
    kept: BTreeMap<Path, Value>,
}

impl Model for Tree {
    ghost use Rattle.std.specs.Prelude.{List};
    ghost use Rattle.yp_base.specs.declared.row.Row.{Row};
    ghost use Rattle.yp_base.specs.Rows.{AreInOrder, rows_of};

    ghost Value = { List Row };

    ghost view = { λ t. rows_of t.kept.entries };

    ghost invariant = { λ t. AreInOrder (rows_of t.kept.entries) };
}

impl Tree {
    /// A tree without rows. It keeps the allocator, and takes no memory.
    pub fn new(alloc: Global) -> Tree
        ensures { result ≡ [] }
    {
        Tree {
            kept: BTreeMap::new(alloc),
        }
    }

    /// How many rows it has. They are in order, with no path twice.
    pub fn len(&self) -> usize
        ensures count { result ≡ length self.now }
        ensures small { result < 2 ^ 63 }
        ensures order { AreInOrder self.now }
    {
        self.kept.len()
    }

    /// The value of the row that has this path, and `None` exactly where there is no such row. It
    /// counts one visit.
    pub fn get<L: Ledger>(&self, path: &Path, steps: &mut Steps<L>) -> Option<&Value>
        ensures found { option_copied result ≡ value_at path.now self.now }
        ensures visits { steps.new ≡ steps.old + 1 }
    {
        steps.tick();
        self.found(path)
    }

    /// The first row past one path that is at or below another, and `None` exactly where there is no
    /// such row. It counts one visit.
    pub fn next<L: Ledger>(
        &self,
        after: &Path,
        under: &Path,
        steps: &mut Steps<L>,
    ) -> Option<(&Path, &Value)>
        ensures found { option_map (λ found. row_of (found.0.now, found.1.now)) result
            ≡ next_row after.now under.now self.now }
        ensures visits { steps.new ≡ steps.old + 1 }
    {
        steps.tick();
        self.next_from(after, under)
    }

    /// The first row at or below a path, and `None` exactly where there is no such row. It counts one
    /// visit.
    pub fn first_within<L: Ledger>(
        &self,
        under: &Path,
        steps: &mut Steps<L>,
    ) -> Option<(&Path, &Value)>
        ensures found { option_map (λ found. row_of (found.0.now, found.1.now)) result
            ≡ slice_get (rows_within under.now self.now) 0 }
        ensures there { is_some result ≡ has_within under.now self.now }
        ensures visits { steps.new ≡ steps.old + 1 }
    {
        steps.tick();
        let mut rows = self.kept.range((Bound::Included(under), Bound::Unbounded));
        match rows.next() {
            Some(row) => {
                if is_prefix(under, row.0) {
                    Some(row)
                } else {
                    None
                }
            }
            None => None,
        }
    }

    /// The first row that has a path or comes past it, and `None` exactly where there is no such row. It counts
    /// one visit.
    pub fn first_from<L: Ledger>(
        &self,
        path: &Path,
        steps: &mut Steps<L>,
    ) -> Option<(&Path, &Value)>
        ensures found { option_map (λ found. row_of (found.0.now, found.1.now)) result
            ≡ slice_get (rows_from path.now self.now) 0 }
        ensures visits { steps.new ≡ steps.old + 1 }
    {
        steps.tick();
        let mut rows = self.kept.range((Bound::Included(path), Bound::Unbounded));
        rows.next()
    }

    /// The rows at or below a path, in order. It counts a visit for each of them, and one more.
    pub fn within<L: Ledger>(
        &self,
        alloc: Global,
        under: &Path,
        steps: &mut Steps<L>,
    ) -> Result<Vec<(&Path, &Value)>, NoMemory>
        ensures rows { IfOk result (λ found. map (λ each. row_of (each.0.now, each.1.now)) found.items
            ≡ rows_within under.now self.now) }
        ensures visits { IfOk result (λ found. steps.new ≤ steps.old + length found.items + 1) }
    {
        let mut found = Vec::new(alloc);
        let mut rows = self.kept.range((Bound::Included(under), Bound::Unbounded));
        while let Some(row) = rows.next() {
            steps.tick();
            if !is_prefix(under, row.0) {
                break;
            }
            found.push(row)?;
        }
        Ok(found)
    }

    /// Copies of the rows at or below a path, in order. It counts a visit for each of them, and one
    /// more.
    pub fn rows_within<L: Ledger>(
        &self,
        alloc: Global,
        under: &Path,
        steps: &mut Steps<L>,
    ) -> Result<Rows, NoMemory>
        ensures rows { IfOk result (λ rows. rows ≡ rows_within under.now self.now) }
        ensures visits { IfOk result (λ rows. steps.new ≤ steps.old + length rows + 1) }
    {
        // The whole tree has just its room.
        let room = if under.len() == 0 { self.len() } else { 0 };
        let mut found = Vec::with_capacity(alloc, room)?;
        let mut rows = self.kept.range((Bound::Included(under), Bound::Unbounded));
        while let Some(row) = rows.next() {
            steps.tick();
            if !is_prefix(under, row.0) {
                break;
            }
            found.push(row_copy(alloc, row.0, row.1)?)?;
        }
        Ok(Series::from_vec(found))
    }

    /// Adds the row, or gives its value to the row that has its path. After `NoMemory` the tree is as
    /// it was, and the row is gone; it comes only where no row has the path.
    pub fn put(&mut self, alloc: Global, row: Row) -> Result<(), NoMemory>
        ensures rows { OnOk result (self.new ≡ put_row row self.old) }
        ensures unchanged { OnErr result (self.new ≡ self.old) }
        ensures room { OnErr result (value_at row.path self.old ≡ None) }
    {
        self.replace(alloc, row)?;
        Ok(())
    }

    /// Adds the row, or gives its value to the row that has its path. It gives back the value that this
    /// row had before, and `None` exactly where there was no such row. After `NoMemory` the tree is as it
    /// was, and the row is gone; it comes only where no row has the path.
    pub fn replace(&mut self, _alloc: Global, row: Row) -> Result<Option<Value>, NoMemory>
        ensures rows { OnOk result (self.new ≡ put_row row self.old) }
        ensures before { IfOk result (λ before. before ≡ value_at row.path self.old) }
        ensures unchanged { OnErr result (self.new ≡ self.old) }
        ensures room { OnErr result (value_at row.path self.old ≡ None) }
    {
        let Row { path, value } = row;
        let before = self.kept.insert(path, value)?;
        Ok(before)
    }

    /// Gives a value to the row that has this path; without such a row the tree stays as it is. It takes
    /// no memory.
    pub fn set(&mut self, path: &Path, value: Value)
        ensures { self.new ≡ set_row (row_of (path.now, value)) self.old }
    {
        if let Some(kept) = self.kept.get_mut(path) {
            *kept = value;
        }
    }

    /// Takes out the rows at or below the path, and gives them in order. After `NoMemory` the tree is
    /// as it was.
    pub fn cut(&mut self, alloc: Global, path: &Path) -> Result<Rows, NoMemory>
        ensures rows { IfOk result (λ rows. rows ≡ rows_within path.now self.old) }
        ensures rest { OnOk result (self.new ≡ rows_without path.now self.old) }
        ensures unchanged { OnErr result (self.new ≡ self.old) }
    {
        let paths = self.paths_within(alloc, path)?;
        let mut rows = Vec::with_capacity(alloc, paths.len())?;
        for each in paths {
            if let Some(row) = self.take_row(each) {
                rows.push(row)?;
            }
        }
        Ok(Series::from_vec(rows))
    }

    /// Puts rows in the place of those at or below a path. After `NoMemory` the tree is as it was.
    pub fn renew(&mut self, alloc: Global, under: &Path, rows: &Rows) -> Result<(), NoMemory>
        ensures rows { OnOk result (self.new ≡ put_rows rows.now (rows_without under.now self.old)) }
        ensures unchanged { OnErr result (self.new ≡ self.old) }
    {
        if let Some(row) = self.successor(under, rows) {
            return self.put(alloc, row.copy(alloc)?);
        }
        if self.len() / SHARE <= rows.len() {
            *self = self.of_others(alloc, under, rows)?;
            return Ok(());
        }
        let paths = self.paths_within(alloc, under)?;
        if paths.is_empty() {
            return self.put_all(alloc, rows);
        }
        let news = Tree::of_rows(alloc, rows)?;
        self.put_all(alloc, rows)?;
        self.leave_out_others(paths.as_slice(), &news);
        Ok(())
    }

    // The only one of these rows, where it has this very path and no row of the tree lies below it: put, it
    // takes the place of all that is at or below the path.
    fn successor<'a>(&self, under: &Path, rows: &'a Rows) -> Option<&'a Row>
        ensures { IfSome result (λ row. put_row row.now self.now ≡ put_rows rows.now (rows_without under.now self.now)) }
    {
        let _count = self.len();
        let (row, more) = rows.items().split_first()?;
        if more.is_empty() && row.path.cmp(under).is_eq() && self.ends_at(under) {
            return Some(row);
        }
        None
    }

    // Whether no row lies below a path.
    fn ends_at(&self, path: &Path) -> bool
        ensures { result ≡ true → rows_without path.now self.now ≡ without_row path.now self.now }
    {
        let mut rows = self.kept.range((Bound::Included(path), Bound::Unbounded));
        match rows.next() {
            Some((first, _value)) => {
                if !path.cmp(first).is_eq() {
                    return !is_prefix(path, first);
                }
                match rows.next() {
                    Some((second, _value)) => !is_prefix(path, second),
                    None => true,
                }
            }
            None => true,
        }
    }

    /// Takes out the row that has this path, and gives its value; `None` where there is no such row. It
    /// takes no memory.
    pub fn remove(&mut self, path: &Path) -> Option<Value>
        ensures value { result ≡ value_at path.now self.old }
        ensures rest { self.new ≡ without_row path.now self.old }
    {
        self.kept.remove(path)
    }

    // Takes out the row that has this path.
    fn take_row(&mut self, path: Path) -> Option<Row>
        ensures path { IfSome result (λ row. row.path ≡ path) }
        ensures value { option_map (λ row. row.value) result ≡ value_at path self.old }
        ensures rest { self.new ≡ without_row path self.old }
    {
        let value = self.remove(&path)?;
        Some(Row { path, value })
    }

    /// Its rows, in order, given away.
    pub fn into_rows(self, alloc: Global) -> Result<Rows, NoMemory>
        ensures { IfOk result (λ rows. rows ≡ self) }
    {
        let mut rows = Vec::with_capacity(alloc, self.kept.len())?;
        for (path, value) in self.kept {
            rows.push(Row { path, value })?;
        }
        Ok(Series::from_vec(rows))
    }

    /// A tree of copies of rows, as they are put one after another.
    pub fn of_rows(alloc: Global, rows: &Rows) -> Result<Tree, NoMemory>
        ensures { IfOk result (λ tree. tree ≡ put_rows rows.now []) }
    {
        Tree::of_slice(alloc, rows.items())
    }

    // The same of a slice of rows.
    pub(crate) fn of_slice(alloc: Global, rows: &[Row]) -> Result<Tree, NoMemory>
        ensures { IfOk result (λ tree. tree ≡ put_rows rows.now []) }
    {
        let mut entries = Vec::with_capacity(alloc, rows.len())?;
        add_copies(alloc, rows, &mut entries)?;
        Tree::of_entries(alloc, entries)
    }

    // A tree of entries, as they are put one after another. Entries in order are compared each with the
    // next alone, and fill the nodes of the tree.
    pub(crate) fn of_entries(alloc: Global, entries: Vec<(Path, Value)>) -> Result<Tree, NoMemory>
        ensures { IfOk result (λ tree. tree ≡ put_rows (rows_of entries.items) []) }
    {
        let kept = entries.into_iter().collect(alloc)?;
        Ok(Tree { kept })
    }

    // A tree of copies of the rows that aren't at or below a path, and of these.
    fn of_others(&self, alloc: Global, under: &Path, rows: &Rows) -> Result<Tree, NoMemory>
        ensures { IfOk result (λ tree. tree ≡ put_rows rows.now (rows_without under.now self.now)) }
    {
        let _count = self.len();
        let mut entries = self.others(alloc, under)?;
        add_copies(alloc, rows.items(), &mut entries)?;
        Tree::of_entries(alloc, entries)
    }

    // Copies of the rows that aren't at or below a path, in order.
    fn others(&self, alloc: Global, under: &Path) -> Result<Vec<(Path, Value)>, NoMemory>
        ensures { IfOk result (λ entries. rows_of entries.items ≡ rows_without under.now self.now) }
    {
        let mut entries = Vec::new(alloc);
        let mut rows = self.kept.iter();
        while let Some((path, value)) = rows.next() {
            if !is_prefix(under, path) {
                entries.push((path.copy(alloc)?, value.copy(alloc)?))?;
            }
        }
        Ok(entries)
    }

    // Puts copies of rows, one after another. After `NoMemory` the tree is as it was.
    fn put_all(&mut self, alloc: Global, rows: &Rows) -> Result<(), NoMemory>
        ensures rows { OnOk result (self.new ≡ put_rows rows.now self.old) }
        ensures unchanged { OnErr result (self.new ≡ self.old) }
    {
        let mut olds = Vec::new(alloc);
        for row in rows.items() {
            match self.put_copy(alloc, row, &mut olds) {
                Ok(()) => {}
                Err(fault) => {
                    self.give_all_back(rows, olds);
                    return Err(fault);
                }
            }
        }
        Ok(())
    }

    // Puts a copy of a row, and adds the value that its path had.
    fn put_copy(
        &mut self,
        alloc: Global,
        row: &Row,
        olds: &mut Vec<Option<Value>>,
    ) -> Result<(), NoMemory>
        ensures rows { OnOk result (self.new ≡ put_row row.now self.old) }
        ensures old { OnOk result (olds.new.items ≡ olds.old.items ++ value_at row.now.path self.old ∷ []) }
        ensures back { OnOk result (given_back (Some row.now) (value_at row.now.path self.old) self.new ≡ self.old) }
        ensures unchanged { OnErr result (self.new ≡ self.old) }
        ensures no_old { OnErr result (olds.new.items ≡ olds.old.items) }
    {
        let _count = self.len();
        olds.reserve(1)?;
        let old = self.replace(alloc, row.copy(alloc)?)?;
        olds.push(old)?;
        Ok(())
    }

    // Gives the paths of the first of these rows the values that they had, the last one first.
    fn give_all_back(&mut self, rows: &Rows, olds: Vec<Option<Value>>)
        ensures { self.new ≡ undone (take (length olds.items) rows.now) olds.items self.old }
    {
        let mut olds = olds;
        while let Some(old) = olds.pop() {
            self.give_back(rows.items().get(olds.len()), old);
        }
    }

    // Gives the path of a row the value that it had, or takes out its row where it had none.
    fn give_back(&mut self, row: Option<&Row>, old: Option<Value>)
        ensures { self.new ≡ given_back (option_copied row.entry) old self.old }
    {
        if let Some(row) = row {
            match old {
                Some(value) => self.set(&row.path, value),
                None => self.leave_out(&row.path),
            }
        }
    }

    // Takes out the rows of these paths, but for those that have a new row.
    fn leave_out_others(&mut self, paths: &[Path], news: &Tree)
        ensures { self.new ≡ without_others paths.now news.now self.old }
    {
        for path in paths {
            if !news.has(path) {
                self.leave_out(path);
            }
        }
    }

    // Whether there is a row of this path.
    pub(crate) fn has(&self, path: &Path) -> bool
        ensures { result ≡ is_some (value_at path.now self.now) }
    {
        let found = self.found(path);
        found.is_some()
    }

    fn found(&self, path: &Path) -> Option<&Value>
        ensures { option_copied result ≡ value_at path.now self.now }
    {
        self.kept.get(path)
    }

    // Takes out the row that has this path.
    fn leave_out(&mut self, path: &Path)
        ensures { self.new ≡ without_row path.now self.old }
    {
        let _old = self.remove(path);
    }

    // Copies of the paths of the rows at or below a path.
    fn paths_within(&self, alloc: Global, under: &Path) -> Result<Vec<Path>, NoMemory>
        ensures { IfOk result (λ paths. paths.items ≡ map path_of (rows_within under.now self.now)) }
    {
        let mut paths = Vec::new(alloc);
        let mut rows = self.kept.range((Bound::Included(under), Bound::Unbounded));
        while let Some((path, _value)) = rows.next() {
            if !is_prefix(under, path) {
                break;
            }
            paths.push(path.copy(alloc)?)?;
        }
        Ok(paths)
    }

    fn next_from(&self, after: &Path, under: &Path) -> Option<(&Path, &Value)>
        ensures { option_map (λ found. row_of (found.0.now, found.1.now)) result
            ≡ next_row after.now under.now self.now }
    {
        if after.cmp(under).is_lt() {
            self.first_at(Bound::Included(under), after, under)
        } else {
            self.first_at(Bound::Excluded(after), after, under)
        }
    }

    fn first_at(&self, start: Bound<&Path>, after: &Path, under: &Path) -> Option<(&Path, &Value)>
        requires { Begins after.now under.now (bound_map (λ path. path.now) start) }
        ensures { option_map (λ found. row_of (found.0.now, found.1.now)) result
            ≡ next_row after.now under.now self.now }
    {
        let mut rows = self.kept.range((start, Bound::Unbounded));
        match rows.next() {
            Some((path, value)) => {
                if is_prefix(under, path) {
                    Some((path, value))
                } else {
                    None
                }
            }
            None => None,
        }
    }
}

impl Duplicate for Tree {
    fn copy(&self, alloc: Global) -> Result<Tree, NoMemory> {
        let mut entries = Vec::with_capacity(alloc, self.len())?;
        let mut rows = self.kept.iter();
        while let Some((path, value)) = rows.next() {
            entries.push((path.copy(alloc)?, value.copy(alloc)?))?;
        }
        Tree::of_entries(alloc, entries)
    }
}

// Adds copies of rows to entries.
fn add_copies(alloc: Global, rows: &[Row], entries: &mut Vec<(Path, Value)>) -> Result<(), NoMemory>
    ensures { OnOk result (rows_of entries.new.items ≡ rows_of entries.old.items ++ rows.now) }
{
    for row in rows {
        entries.push((row.path.copy(alloc)?, row.value.copy(alloc)?))?;
    }
    Ok(())
}

fn row_copy(alloc: Global, path: &Path, value: &Value) -> Result<Row, NoMemory>
    ensures { IfOk result (λ row. row ≡ row_of (path.now, value.now)) }
{
    Ok(Row {
        path: path.copy(alloc)?,
        value: value.copy(alloc)?,
    })
}

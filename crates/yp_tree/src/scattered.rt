//! Rows in the order in which they are put, with an index of the entries among them.
ghost use Rattle.std.specs.Prelude.{◌≡◌, List, [], ◌∷◌, true, slice_get, Some, IfErr, IfOk, OnErr, OnOk};
ghost use Rattle.yp_base.specs.declared.row.Row.{Row};
ghost use Rattle.yp_base.specs.Rows.{AreInOrder, put_row, put_rows, value_at};
ghost use Rattle.yp_tree.specs.Scattered.{is_entry, is_noted, AreNoted, AreOrdered, rows_at};

use crate::rising::Rising;
use crate::tree::Tree;
use std::alloc::Global;
use std::collections::BTreeMap;
use std::marker::Model;
use std::mem::replace;
use yp_base::memory::{Duplicate, NoMemory};
use yp_base::path::{Path, is_prefix};
use yp_base::row::{Row, Rows, Value};
use yp_base::series::Series;

/// Rows as they are put one after another. A run is the row of an entry and those put next that are
/// within it and no entries; any other row begins a run of its own.
///
/// Contracts see the list of the rows, in the order of their paths and with no path twice.
#[derive(Drop)]
pub(crate) struct Scattered {
    rows: Vec<Row>,
    // where each run begins, by the path of its first row
    starts: BTreeMap<Path, usize>,
    // where the last run begins
    last: usize,
}

impl Model for Scattered {
    ghost use Rattle.std.specs.Prelude.{[], List};
    ghost use Rattle.yp_base.specs.declared.row.Row.{Row};
    ghost use Rattle.yp_base.specs.Rows.{put_rows};
    ghost use Rattle.yp_tree.specs.Scattered.{AreNoted};

    ghost Value = { List Row };

    ghost view = { λ s. put_rows s.rows.items [] };

    ghost invariant = { λ s. AreNoted s.starts s.rows.items };
}

/// Whether a path is that of an entry: its last segment has keys.
fn is_entry(path: &Path) -> bool
    ensures { result ≡ is_entry path.now }
{
    match path.items().split_last() {
        Some((last, _)) => !last.keys.items().is_empty(),
        None => false,
    }
}

/// Gives a path a place, and tells whether it had one before.
fn note(
    alloc: Global,
    path: &Path,
    place: usize,
    starts: &mut BTreeMap<Path, usize>,
) -> Result<bool, NoMemory>
    ensures before { IfOk result (λ before. before ≡ is_noted starts.old path.now) }
    ensures noted { OnOk result (is_noted starts.new path.now ≡ true) }
    ensures others { (rows : List Row) → AreNoted starts.old rows → AreNoted starts.new rows }
{
    let before = starts.insert(path.copy(alloc)?, place)?;
    Ok(before.is_some())
}

/// Where the run begins to which a row of this path goes that is put after these. It begins with the row
/// itself if this is an entry, or not within the first one of the last run; its path is then noted.
fn start_of_run(
    alloc: Global,
    path: &Path,
    last: usize,
    rows: &[Row],
    starts: &mut BTreeMap<Path, usize>,
) -> Result<usize, NoMemory>
    ensures noted { OnOk result (is_entry path.now ≡ true → is_noted starts.new path.now ≡ true) }
    ensures others { (some : List Row) → AreNoted starts.old some → AreNoted starts.new some }
{
    let goes_on = match rows.get(last) {
        Some(head) => is_prefix(&head.path, path),
        None => false,
    };
    if goes_on && !is_entry(path) {
        return Ok(last);
    }
    note(alloc, path, rows.len(), starts)?;
    Ok(rows.len())
}

/// How many rows the run has that begins with the first of these.
fn run_length(rows: &[Row]) -> usize {
    let mut count: usize = 0;
    if let Some((head, rest)) = rows.split_first() {
        count = 1;
        for row in rest {
            if is_entry(&row.path) || !is_prefix(&head.path, &row.path) {
                break;
            }
            count = count.saturating_add(1);
        }
    }
    count
}

/// The rows from a place on; all of them where there is no such place.
fn rows_from(rows: &[Row], start: usize) -> &[Row] {
    match rows.split_at_checked(start) {
        Some((_, rest)) => rest,
        None => rows,
    }
}

/// The places of the rows of runs, in the order of the runs' first rows.
fn places(
    alloc: Global,
    rows: &[Row],
    starts: &BTreeMap<Path, usize>,
) -> Result<Vec<usize>, NoMemory> {
    let mut places = Vec::with_capacity(alloc, rows.len())?;
    let mut starts = starts.iter();
    while let Some((_, start)) = starts.next() {
        let count = run_length(rows_from(rows, *start));
        for place in *start..start.saturating_add(count) {
            places.push(place)?;
        }
    }
    Ok(places)
}

/// Whether rows are in the order of their paths by their places.
fn are_in_order(rows: &[Row], places: &[usize]) -> bool
    ensures { result ≡ true → AreOrdered rows.now places.now }
{
    let (first, later) = match places.split_first() {
        Some(parts) => parts,
        None => return true,
    };
    match rows.get(*first) {
        Some(row) => follow_in_order(rows, *first, row, later),
        None => false,
    }
}

/// The same of a place with its row, and of those after it.
fn follow_in_order(rows: &[Row], first: usize, row: &Row, later: &[usize]) -> bool
    requires { slice_get rows.now first ≡ Some row.now }
    ensures { result ≡ true → AreOrdered rows.now (first ∷ later.now) }
{
    let mut last = row;
    for place in later {
        match rows.get(*place) {
            Some(next) if last.path.cmp(&next.path).is_lt() => last = next,
            _ => return false,
        }
    }
    true
}

/// The rows at these places, given away.
fn taken_at(alloc: Global, rows: &mut Vec<Row>, places: &[usize]) -> Result<Vec<Row>, NoMemory>
    requires { AreOrdered rows.old.items places.now }
    ensures { IfOk result (λ taken. taken.items ≡ rows_at rows.old.items places.now) }
{
    let mut taken = Vec::with_capacity(alloc, places.len())?;
    let top = Path::top(alloc)?;
    for place in places {
        let nothing = Row {
            path: top.copy(alloc)?,
            value: Value::Empty,
        };
        taken.push(replace(&mut rows[*place], nothing))?;
    }
    Ok(taken)
}

/// Rows as they are put one after another, by their runs where these are all of them in order.
fn put_together(
    alloc: Global,
    mut rows: Vec<Row>,
    starts: &BTreeMap<Path, usize>,
) -> Result<Rows, NoMemory>
    ensures { IfOk result (λ put. put ≡ put_rows rows.items []) }
{
    let places = places(alloc, rows.as_slice(), starts)?;
    if places.len() >= rows.len() && are_in_order(rows.as_slice(), places.as_slice()) {
        let taken = taken_at(alloc, &mut rows, places.as_slice())?;
        return Ok(Series::from_vec(taken));
    }
    let tree = Tree::of_slice(alloc, rows.as_slice())?;
    tree.into_rows(alloc)
}

impl Scattered {
    /// No rows. It takes no memory.
    pub(crate) fn new(alloc: Global) -> Scattered
        ensures { result ≡ [] }
    {
        Scattered {
            rows: Vec::new(alloc),
            starts: BTreeMap::new(alloc),
            last: 0,
        }
    }

    /// Copies of rows in order.
    pub(crate) fn of_rows(alloc: Global, rows: &[Row]) -> Result<Scattered, NoMemory>
        requires { AreInOrder rows.now }
        ensures { IfOk result (λ scattered. scattered ≡ rows.now) }
    {
        let mut scattered = Scattered::new(alloc);
        for row in rows {
            scattered.put(alloc, row.copy(alloc)?)?;
        }
        Ok(scattered)
    }

    /// Adds the row, or gives its value to the row that has its path. After `NoMemory` the rows are as
    /// they were.
    pub(crate) fn put(&mut self, alloc: Global, row: Row) -> Result<(), NoMemory>
        ensures rows { OnOk result (self.new ≡ put_row row self.old) }
        ensures unchanged { OnErr result (self.new ≡ self.old) }
    {
        self.last = start_of_run(
            alloc,
            &row.path,
            self.last,
            self.rows.as_slice(),
            &mut self.starts,
        )?;
        self.rows.push(row)?;
        Ok(())
    }

    /// Adds the row of an entry, where no row has its path; else it gives the row back, and the rows are
    /// as they were, as after `NoMemory`.
    pub(crate) fn enter(&mut self, alloc: Global, row: Row) -> Result<Result<(), Row>, NoMemory>
        ensures rows { IfOk result (λ entered. OnOk entered (self.new ≡ put_row row self.old)) }
        ensures absent { IfOk result (λ entered. OnOk entered (value_at row.path self.old ≡ None)) }
        ensures back { IfOk result (λ entered. IfErr entered (λ back. back ≡ row)) }
        ensures refused { IfOk result (λ entered. OnErr entered (self.new ≡ self.old)) }
        ensures unchanged { OnErr result (self.new ≡ self.old) }
    {
        let start = self.rows.len();
        if !is_entry(&row.path) || note(alloc, &row.path, start, &mut self.starts)? {
            return Ok(Err(row));
        }
        self.last = start;
        self.rows.push(row)?;
        Ok(Ok(()))
    }

    /// The rows as a `Rising`, whose rows are found by path.
    pub(crate) fn rising(&self, alloc: Global) -> Result<Rising, NoMemory>
        ensures { IfOk result (λ rising. rising ≡ self.now) }
    {
        let tree = Tree::of_slice(alloc, self.rows.as_slice())?;
        Ok(Rising::of_tree(tree))
    }

    /// The rows, in order, given away.
    pub(crate) fn into_rows(self, alloc: Global) -> Result<Rows, NoMemory>
        ensures { IfOk result (λ rows. rows ≡ self) }
    {
        let Scattered { rows, starts, .. } = self;
        put_together(alloc, rows, &starts)
    }
}

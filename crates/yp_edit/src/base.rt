//! The tree that a patch is applied to, and what its edits touch.
ghost use Rattle.std.specs.Prelude.{◌≡◌, ◌<◌, ◌^◌, [], Some, None, true, false, length, map, slice_get, is_some, option_map, option_copied, IfOk, OnOk, OnErr};
ghost use Rattle.yp_base.specs.Rows.{path_of, value_at, next_row, has_within, rows_within, AreInOrder};
ghost use Rattle.yp_tree.specs.Gaps.{is_before, IsGap};
ghost use Rattle.yp_tree.specs.Listed.{row_of};
ghost use Rattle.yp_base.specs.Paths.{is_covered};
ghost use Rattle.yp_changes.specs.Among.{is_listed};
ghost use Rattle.yp_edit.specs.Bases.{is_in_gap, untouched, Touches, Loses, TouchesWithin, StaysGone, AreTouched};

use std::alloc::Global;
use std::collections::BTreeSet;
use std::marker::Model;
use std::sync::ledger::Ledger;
use yp_base::memory::{Duplicate, NoMemory};
use yp_base::path::{Path, is_prefix};
use yp_base::row::{Row, Rows, Value};
use yp_base::steps::Steps;
use yp_tree::rising::Rising;
use yp_tree::tree::Tree;

/// Paths from one on that a tree has no row of, up to the path of its next row, where there is one.
#[derive(Drop)]
struct Gap {
    from: Path,
    end: Option<Path>,
}

/// A tree, which stays as it is, with those of its rows that edits touch: they count no more. At or below a
/// bare path each row is touched, so that no edit walks over them again. The last path at or below which
/// edits left or found none is swept, and where a row that was put last had no row in the tree there is a gap: no
/// row put there is looked up.
#[derive(Drop)]
pub struct Base<'a> {
    tree: &'a Tree,
    touched: Rising,
    bare: BTreeSet<Path>,
    swept: Option<Path>,
    gap: Option<Gap>,
    count: usize,
}

impl<'a> Model for Base<'a> {
    ghost use Rattle.std.specs.Prelude.{map};
    ghost use Rattle.yp_base.specs.Rows.{path_of};
    ghost use Rattle.yp_edit.specs.Bases.{Touched, IsBase, IsSwept, LeaveGap, KeepsValues, left};

    ghost Value = { Touched };

    ghost view = { λ b. record { rows = b.tree.now; paths = map path_of b.touched } };

    ghost invariant = { λ b. IsBase b.tree.now (map path_of b.touched) b.bare.keys b.count × KeepsValues b.tree.now b.touched × IsSwept b.swept (left (map path_of b.touched) b.tree.now) × LeaveGap b.gap b.tree.now };
}

/// Whether a path is at or below another, where there is one.
pub fn is_covered(above: &Option<Path>, path: &Path) -> bool
    ensures { result ≡ is_covered above.now path.now }
{
    match above {
        Some(above) => is_prefix(above, path),
        None => false,
    }
}

/// Whether a path comes before another, where there is one.
fn is_before(path: &Path, end: &Option<Path>) -> bool
    ensures { result ≡ is_before path.now end.now }
{
    match end {
        Some(end) => path.cmp(end).is_lt(),
        None => true,
    }
}

/// Whether a path lies in a gap, where there is one.
fn is_in_gap(gap: &Option<Gap>, path: &Path) -> bool
    ensures { result ≡ is_in_gap gap.now path.now }
{
    match gap {
        Some(gap) => gap.from.cmp(path).is_le() && is_before(path, &gap.end),
        None => false,
    }
}

impl<'a> Base<'a> {
    /// A tree of which nothing is touched.
    pub fn new(alloc: Global, tree: &'a Tree) -> Base<'a>
        ensures { result ≡ record { rows = tree.now; paths = [] } }
    {
        Base {
            tree,
            touched: Rising::new(alloc),
            bare: BTreeSet::new(alloc),
            swept: None,
            gap: None,
            count: tree.len(),
        }
    }

    /// How many rows aren't touched. The rows are in order.
    pub fn len(&self) -> usize
        ensures count { result ≡ length (untouched self.now) }
        ensures small { result < 2 ^ 63 }
        ensures order { AreInOrder self.now.rows }
    {
        let _rows = self.tree.len();
        self.count
    }

    /// Whether there is an untouched row of this path.
    pub fn has<L: Ledger>(&self, path: &Path, steps: &mut Steps<L>) -> bool
        ensures { result ≡ is_some (value_at path.now (untouched self.now)) }
    {
        if self.touched.has(path) {
            return false;
        }
        self.tree.get(path, steps).is_some()
    }

    /// The first untouched row past one path that is at or below another.
    fn next<L: Ledger>(
        &self,
        after: &Path,
        under: &Path,
        steps: &mut Steps<L>,
    ) -> Option<(&'a Path, &'a Value)>
        ensures { option_map (λ found. row_of (found.0.now, found.1.now)) result ≡ next_row after.now under.now (untouched self.now) }
    {
        let mut last = after;
        while let Some((path, value)) = self.tree.next(last, under, steps) {
            if !self.touched.has(path) {
                return Some((path, value));
            }
            last = path;
        }
        None
    }

    /// Whether an untouched row is found at or below a target, whose first row in the tree has this path.
    fn finds_from<L: Ledger>(&self, first: &Path, target: &Path, steps: &mut Steps<L>) -> bool
        requires { option_map path_of (slice_get (rows_within target.now self.now.rows) 0) ≡ Some first.now }
        ensures { result ≡ has_within target.now (untouched self.now) }
    {
        if !self.touched.has(first) {
            return true;
        }
        self.next(first, target, steps).is_some()
    }

    /// Makes a path the one that is swept.
    fn clear(&mut self, alloc: Global, target: &Path) -> Result<(), NoMemory>
        requires { has_within target.now (untouched self.old) ≡ false }
        ensures same { self.new ≡ self.old }
    {
        self.swept = Some(target.copy(alloc)?);
        Ok(())
    }

    /// Whether there are untouched rows at or below a target. Where the tree's rows there are all touched,
    /// its path is bare; where there are none, it is swept.
    pub fn has_within<L: Ledger>(
        &mut self,
        alloc: Global,
        target: &Path,
        steps: &mut Steps<L>,
    ) -> Result<bool, NoMemory>
        ensures found { IfOk result (λ found. found ≡ has_within target.now (untouched self.old)) }
        ensures same { self.new ≡ self.old }
    {
        if self.bare.contains(target) {
            return Ok(false);
        }
        match self.tree.first_within(target, steps) {
            Some((first, _value)) => {
                if self.finds_from(first, target, steps) {
                    return Ok(true);
                }
                self.bare.insert(target.copy(alloc)?)?;
                Ok(false)
            }
            None => {
                self.clear(alloc, target)?;
                Ok(false)
            }
        }
    }

    /// Touches the path of a row of the tree that isn't touched.
    fn keep(&mut self, alloc: Global, path: &Path, value: &Value) -> Result<(), NoMemory>
        requires untouched { is_listed path.now self.old.paths ≡ false }
        requires there { value_at path.now self.old.rows ≡ Some value.now }
        ensures touched { OnOk result (Touches path.now self.old self.new) }
        ensures unchanged { OnErr result (self.new ≡ self.old) }
    {
        let row = Row {
            path: path.copy(alloc)?,
            value: value.copy(alloc)?,
        };
        self.touched.put(alloc, row)?;
        self.count -= 1;
        Ok(())
    }

    /// Keeps that the tree has no row of a path from one on, up to another where there is one.
    fn keep_gap(&mut self, alloc: Global, from: &Path, end: Option<Path>) -> Result<(), NoMemory>
        requires { IsGap from.now end self.old.rows }
        ensures same { self.new ≡ self.old }
    {
        let from = from.copy(alloc)?;
        self.gap = Some(Gap { from, end });
        Ok(())
    }

    /// The value of the tree's row of a path. Where the tree has none, it has none from the path on up to its next
    /// row.
    fn find<L: Ledger>(
        &mut self,
        alloc: Global,
        path: &Path,
        steps: &mut Steps<L>,
    ) -> Result<Option<&'a Value>, NoMemory>
        ensures found { IfOk result (λ found. option_copied found ≡ value_at path.now self.old.rows) }
        ensures same { self.new ≡ self.old }
    {
        match self.tree.first_from(path, steps) {
            Some((first, value)) => {
                if path.cmp(first).is_eq() {
                    return Ok(Some(value));
                }
                let end = first.copy(alloc)?;
                self.keep_gap(alloc, path, Some(end))?;
                Ok(None)
            }
            None => {
                self.keep_gap(alloc, path, None)?;
                Ok(None)
            }
        }
    }

    /// Whether a path lies at or below the one that is swept, or in the gap.
    fn is_clear(&self, path: &Path) -> bool
        ensures { result ≡ true → value_at path.now (untouched self.now) ≡ None }
    {
        is_covered(&self.swept, path) || is_in_gap(&self.gap, path)
    }

    /// Touches the row of a path, where there is one that isn't touched.
    pub fn touch<L: Ledger>(
        &mut self,
        alloc: Global,
        path: &Path,
        steps: &mut Steps<L>,
    ) -> Result<(), NoMemory>
        ensures lost { OnOk result (Loses path.now self.old self.new) }
        ensures unchanged { OnErr result (self.new ≡ self.old) }
    {
        if self.is_clear(path) {
            return Ok(());
        }
        if self.touched.has(path) {
            return Ok(());
        }
        if let Some(value) = self.find(alloc, path, steps)? {
            self.keep(alloc, path, value)?;
        }
        Ok(())
    }

    /// Touches the path of a row of the tree.
    fn touch_row(&mut self, alloc: Global, path: &Path, value: &Value) -> Result<(), NoMemory>
        requires { value_at path.now self.old.rows ≡ Some value.now }
        ensures touched { OnOk result (Touches path.now self.old self.new) }
        ensures unchanged { OnErr result (self.new ≡ self.old) }
    {
        if self.touched.has(path) {
            return Ok(());
        }
        self.keep(alloc, path, value)
    }

    /// Touches the paths of the tree's rows at or below a target.
    fn touch_rows(
        &mut self,
        alloc: Global,
        target: &Path,
        rows: Vec<(&'a Path, &'a Value)>,
    ) -> Result<(), NoMemory>
        requires { map (λ each. row_of (each.0.now, each.1.now)) rows.items ≡ rows_within target.now self.old.rows }
        ensures touched { OnOk result (TouchesWithin target.now self.old self.new) }
        ensures stay { StaysGone self.old self.new }
    {
        let _rows = self.tree.len();
        for row in rows {
            self.touch_row(alloc, row.0, row.1)?;
        }
        Ok(())
    }

    /// Makes a path bare, and the one that is swept.
    fn sweep(&mut self, alloc: Global, target: &Path) -> Result<(), NoMemory>
        requires { has_within target.now (untouched self.old) ≡ false }
        ensures same { self.new ≡ self.old }
    {
        let swept = target.copy(alloc)?;
        self.bare.insert(target.copy(alloc)?)?;
        self.swept = Some(swept);
        Ok(())
    }

    /// Touches the rows at or below a target, whose path is then swept, and bare where there were several.
    pub fn touch_within<L: Ledger>(
        &mut self,
        alloc: Global,
        target: &Path,
        steps: &mut Steps<L>,
    ) -> Result<(), NoMemory>
        ensures touched { OnOk result (TouchesWithin target.now self.old self.new) }
        ensures stay { StaysGone self.old self.new }
    {
        if self.bare.contains(target) {
            return Ok(());
        }
        let rows = self.tree.within(alloc, target, steps)?;
        let several = 1 < rows.len();
        self.touch_rows(alloc, target, rows)?;
        if several {
            self.sweep(alloc, target)?;
        } else {
            self.clear(alloc, target)?;
        }
        Ok(())
    }

    /// The rows that are touched, in order.
    pub fn into_touched(self, alloc: Global) -> Result<Rows, NoMemory>
        ensures { IfOk result (AreTouched self.entry) }
    {
        let _count = self.touched.len();
        let Base { touched, .. } = self;
        touched.into_rows(alloc)
    }
}

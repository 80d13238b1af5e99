//! Rows in order that are looked up one after another.
ghost use Rattle.std.specs.Prelude.{◌≡◌, is_some, option_copied};
ghost use Rattle.yp_base.specs.Rows.{AreInOrder, value_at};
ghost use Rattle.yp_receiver.specs.Finding.{AreLeft, is_behind};

use std::cmp::Ordering;
use std::marker::Model;
use yp_base::path::Path;
use yp_base::row::Row;

/// Rows in the order of their paths. A look-up begins where the last one ended, unless its path comes
/// before that one's. So look-ups in the order of their paths walk over the rows once, all together.
///
/// Contracts see the list of the rows.
#[derive(Drop)]
pub struct Finder<'a> {
    rows: &'a [Row],
    left: &'a [Row],
    last: Option<&'a Path>,
}

impl<'a> Model for Finder<'a> {
    ghost use Rattle.std.specs.Prelude.{List, option_copied};
    ghost use Rattle.yp_base.specs.declared.row.Row.{Row};
    ghost use Rattle.yp_receiver.specs.Finding.{AreLeftAfter};

    ghost Value = { List Row };

    ghost view = { λ f. f.rows.now };

    ghost invariant = { λ f. AreLeftAfter (option_copied f.last) f.rows.now f.left.now };
}

/// Whether a path comes before another, where there is one.
fn is_behind(path: &Path, last: Option<&Path>) -> bool
    ensures { result ≡ is_behind path.now (option_copied last.entry) }
{
    match last {
        Some(last) => path.cmp(last).is_lt(),
        None => false,
    }
}

/// The rows from the first on that doesn't come before a path, and whether that one has the path.
fn find<'a>(rows: &'a [Row], path: &Path) -> (&'a [Row], bool)
    requires { AreInOrder rows.now }
    ensures left { AreLeft path.now rows.now result.0.now }
    ensures found { result.1 ≡ is_some (value_at path.now rows.now) }
{
    let mut left = rows;
    while let Some((first, later)) = left.split_first() {
        match first.path.cmp(path) {
            Ordering::Less => left = later,
            Ordering::Equal => return (left, true),
            Ordering::Greater => return (left, false),
        }
    }
    (left, false)
}

impl<'a> Finder<'a> {
    pub fn new(rows: &'a [Row]) -> Finder<'a>
        requires { AreInOrder rows.now }
        ensures { result ≡ rows.now }
    {
        Finder {
            rows,
            left: rows,
            last: None,
        }
    }

    /// Whether there is a row of this path.
    pub fn has(&mut self, path: &'a Path) -> bool
        ensures found { result ≡ is_some (value_at path.now self.old) }
        ensures same { self.new ≡ self.old }
    {
        let (left, found) = find(self.left_for(path), path);
        self.left = left;
        self.last = Some(path);
        found
    }

    // Rows among which a path is found where it is among all.
    fn left_for(&self, path: &Path) -> &'a [Row]
        ensures { AreLeft path.now self.now result.now }
    {
        if is_behind(path, self.last) {
            self.rows
        } else {
            self.left
        }
    }
}

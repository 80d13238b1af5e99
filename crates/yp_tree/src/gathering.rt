//! Rows while they are put, entry by entry.
ghost use Rattle.std.specs.Prelude.{◌≡◌, [], None, IfErr, IfOk, OnErr, OnOk};
ghost use Rattle.yp_base.specs.Rows.{put_row, value_at};
ghost use Rattle.yp_tree.specs.Gathered.{gathered_rows};

use crate::rising::Rising;
use crate::scattered::Scattered;
use crate::sharing::share_paths;
use std::alloc::Global;
use std::marker::Model;
use yp_base::memory::NoMemory;
use yp_base::path::Path;
use yp_base::row::{Row, Rows, Value};
use yp_base::series::Series;

/// How rows are kept.
#[derive(Drop)]
enum Gathered {
    Rising(Rising),
    Scattered(Scattered),
}

/// Rows while they are put, entry by entry. As long as each comes past those before it, it is appended.
/// Entries in no order are found by path once each, and their rows go with them; what else comes in no
/// order is found by path row by row.
///
/// Contracts see the list of the rows, in the order of their paths and with no path twice.
#[derive(Drop)]
pub struct Gathering {
    kept: Gathered,
}

impl Model for Gathering {
    ghost use Rattle.std.specs.Prelude.{List};
    ghost use Rattle.yp_base.specs.declared.row.Row.{Row};
    ghost use Rattle.yp_tree.specs.Gathered.{gathered_rows};

    ghost Value = { List Row };

    ghost view = { λ g. gathered_rows g.kept };
}

impl Gathering {
    /// No rows. It takes no memory.
    pub fn new(alloc: Global) -> Gathering
        ensures { result ≡ [] }
    {
        Gathering {
            kept: Gathered::Rising(Rising::new(alloc)),
        }
    }

    /// Adds the row, or gives its value to the row that has its path. After `NoMemory` the rows are as
    /// they were.
    pub fn put(&mut self, alloc: Global, row: Row) -> Result<(), NoMemory>
        ensures rows { OnOk result (self.new ≡ put_row row self.old) }
        ensures unchanged { OnErr result (self.new ≡ self.old) }
    {
        let row = match self.append(row)? {
            Ok(()) => return Ok(()),
            Err(row) => row,
        };
        self.scatter(alloc, &row.path)?;
        match &mut self.kept {
            Gathered::Rising(rows) => rows.put(alloc, row),
            Gathered::Scattered(rows) => rows.put(alloc, row),
        }
    }

    /// Adds the row, or gives its value to the row that has its path. It gives back the value that this
    /// row had before, and `None` exactly where there was no such row. After `NoMemory` the rows are as
    /// they were.
    pub fn replace(&mut self, alloc: Global, row: Row) -> Result<Option<Value>, NoMemory>
        ensures rows { OnOk result (self.new ≡ put_row row self.old) }
        ensures before { IfOk result (λ before. before ≡ value_at row.path self.old) }
        ensures unchanged { OnErr result (self.new ≡ self.old) }
    {
        let row = match self.append(row)? {
            Ok(()) => return Ok(None),
            Err(row) => row,
        };
        self.scatter(alloc, &row.path)?;
        match &mut self.kept {
            Gathered::Rising(rows) => rows.replace(alloc, row),
            Gathered::Scattered(rows) => match rows.enter(alloc, row)? {
                Ok(()) => Ok(None),
                Err(row) => {
                    let mut rising = rows.rising(alloc)?;
                    let before = rising.replace(alloc, row);
                    self.kept = Gathered::Rising(rising);
                    before
                }
            },
        }
    }

    // Adds a row that comes past rows that were all appended; else it gives the row back.
    fn append(&mut self, row: Row) -> Result<Result<(), Row>, NoMemory>
        ensures rows { IfOk result (λ appended. OnOk appended (self.new ≡ put_row row self.old)) }
        ensures absent { IfOk result (λ appended. OnOk appended (value_at row.path self.old ≡ None)) }
        ensures back { IfOk result (λ appended. IfErr appended (λ back. back ≡ row)) }
        ensures refused { IfOk result (λ appended. OnErr appended (self.new ≡ self.old)) }
        ensures unchanged { OnErr result (self.new ≡ self.old) }
    {
        match &mut self.kept {
            Gathered::Rising(rows) => rows.append(row),
            Gathered::Scattered(_) => Ok(Err(row)),
        }
    }

    // Keeps rows that were appended by their entries from now on, where this path doesn't come past them.
    fn scatter(&mut self, alloc: Global, path: &Path) -> Result<(), NoMemory>
        ensures { self.new ≡ self.old }
    {
        if let Gathered::Rising(rows) = &self.kept {
            if let Some(rows) = rows.not_before(path) {
                let scattered = Scattered::of_rows(alloc, rows)?;
                self.kept = Gathered::Scattered(scattered);
            }
        }
        Ok(())
    }

    /// The rows, in order, given away. The path of each shares the segments of the next one, where this lies below it.
    pub fn into_rows(self, alloc: Global) -> Result<Rows, NoMemory>
        ensures { IfOk result (λ rows. rows ≡ self) }
    {
        let Gathering { kept } = self;
        let rows = match kept {
            Gathered::Rising(rows) => rows.into_rows(alloc)?,
            Gathered::Scattered(rows) => rows.into_rows(alloc)?,
        };
        let mut rows = rows.into_vec(alloc)?;
        share_paths(alloc, &mut rows)?;
        Ok(Series::from_vec(rows))
    }
}

//! Lists.
ghost use Rattle.std.specs.Prelude.{◌≡◌, IfOk, length};
ghost use Rattle.std.specs.Cmp.Lexicographic.{pointwise, slice_cmp, slice_partial_cmp, lists_agrees, lists_total, lists_equiv, lists_ties, lists_po, lists_per};

use crate::held::Held;
use crate::memory::{Duplicate, NoMemory};
use std::alloc::Global;
use std::cmp::Ordering;
use std::marker::Model;

/// A list of values, in order. Contracts see the list of its items, and nothing of its spare room. Once
/// it is shared, a copy of it takes no memory.
#[derive(Drop)]
pub struct Series<T> {
    kept: Held<Vec<T>>,
}

impl<T> Model for Series<T> {
    ghost use Rattle.std.specs.Prelude.{List};

    ghost Value = { List T };

    ghost view = { λ s. s.kept.items };
}

impl<T> Series<T> {
    /// The list of these items. It takes no memory.
    pub fn from_vec(items: Vec<T>) -> Series<T>
        ensures { result ≡ items.items }
    {
        Series {
            kept: Held::own(items),
        }
    }

    /// Its items.
    pub fn items(&self) -> &[T]
        ensures { result.now ≡ self.now }
    {
        self.kept.get().as_slice()
    }

    /// How many items it has.
    pub fn len(&self) -> usize
        ensures { result ≡ length self.now }
    {
        self.kept.get().len()
    }
}

impl<T: Duplicate + Drop> Series<T> {
    /// The same list, whose copies share its items.
    pub fn share(self, alloc: Global) -> Result<Series<T>, NoMemory>
        ensures { IfOk result (λ list. list ≡ self) }
    {
        let Series { kept } = self;
        Ok(Series {
            kept: kept.share(alloc)?,
        })
    }

    /// Its items, given back: copies of them where they are shared, and else without memory.
    pub fn into_vec(self, alloc: Global) -> Result<Vec<T>, NoMemory>
        ensures { IfOk result (λ items. items.items ≡ self) }
    {
        let Series { kept } = self;
        match kept.into_own() {
            Ok(items) => Ok(items),
            Err(kept) => copies_of(alloc, kept.get().as_slice(), 0),
        }
    }
}

impl<T: Duplicate + Drop> Duplicate for Series<T> {
    fn copy(&self, alloc: Global) -> Result<Series<T>, NoMemory> {
        match self.kept.shared_copy()? {
            Some(kept) => Ok(Series { kept }),
            None => Ok(Series::from_vec(copies_of(alloc, self.items(), 0)?)),
        }
    }
}

/// Copies of items, with room for so many more.
pub(crate) fn copies_of<T: Duplicate + Drop>(
    alloc: Global,
    items: &[T],
    room: usize,
) -> Result<Vec<T>, NoMemory>
    ensures { IfOk result (λ copies. copies.items ≡ items.now) }
{
    let mut copies = Vec::with_capacity(alloc, items.len().saturating_add(room))?;
    for item in items {
        copies.push(item.copy(alloc)?)?;
    }
    Ok(copies)
}

impl<T: PartialEq> PartialEq for Series<T> {
    ghost eq = { pointwise T.eq };

    ghost laws = { lists_per T.PartialEq.laws };

    fn eq(&self, other: &Series<T>) -> bool {
        self.kept.get() == other.kept.get()
    }
}

impl<T: Eq> Eq for Series<T> {
    ghost laws = { lists_equiv T.Eq.laws };
}

impl<T: PartialOrd> PartialOrd for Series<T> {
    ghost partial_cmp = { slice_partial_cmp T.partial_cmp };

    ghost laws = { lists_po T.PartialOrd.laws };

    fn partial_cmp(&self, other: &Series<T>) -> Option<Ordering> {
        self.kept.get().partial_cmp(other.kept.get())
    }
}

impl<T: Ord> Ord for Series<T> {
    ghost cmp = { slice_cmp T.cmp };

    ghost total = { lists_total T.total };

    ghost matches_partial_cmp = { λ x y. lists_agrees T.matches_partial_cmp x y };

    ghost matches_eq = { λ x y. lists_ties T.cmp T.matches_eq x y };

    fn cmp(&self, other: &Series<T>) -> Ordering {
        self.kept.get().cmp(other.kept.get())
    }
}

//! Values that stand alone.
ghost use Rattle.std.specs.Ordering.{eq_by_cmp, as_partial_cmp};
ghost use Rattle.std.specs.Cmp.{partial_equiv_from_equiv, partial_order_from_total};
ghost use Rattle.std.proofs.lemmas.Cmp.{eq_by_cmp_equiv};
ghost use Rattle.std.proofs.Common.{refl};
ghost use Rattle.yp_base.specs.Order.{atom_cmp};
ghost use Rattle.yp_base.specs.OrderLaws.{atoms_total};

use crate::memory::{Duplicate, NoMemory};
use crate::txt::Txt;
use std::alloc::Global;
use std::cmp::Ordering;

/// A value that stands alone: that of a leaf, a leaf-list entry or a key. A value of an enumeration is
/// its name. `Dec` is a decimal64: `units` times ten to the power of minus `places`.
#[derive(Drop)]
pub enum Atom {
    Bool(bool),
    Int(i64),
    Uint(u64),
    Dec { places: u8, units: i64 },
    Text(Txt),
}

impl Duplicate for Atom {
    fn copy(&self, alloc: Global) -> Result<Atom, NoMemory> {
        Ok(match self {
            Atom::Bool(value) => Atom::Bool(*value),
            Atom::Int(number) => Atom::Int(*number),
            Atom::Uint(number) => Atom::Uint(*number),
            Atom::Dec { units, places } => Atom::Dec {
                units: *units,
                places: *places,
            },
            Atom::Text(text) => Atom::Text(text.copy(alloc)?),
        })
    }
}

impl PartialEq for Atom {
    ghost eq = { eq_by_cmp atom_cmp };

    ghost laws = { partial_equiv_from_equiv (eq_by_cmp_equiv atoms_total) };

    fn eq(&self, other: &Atom) -> bool {
        self.cmp(other).is_eq()
    }
}

impl Eq for Atom {
    ghost laws = { eq_by_cmp_equiv atoms_total };
}

impl PartialOrd for Atom {
    ghost partial_cmp = { as_partial_cmp atom_cmp };

    ghost laws = { partial_order_from_total atoms_total };

    fn partial_cmp(&self, other: &Atom) -> Option<Ordering> {
        Some(self.cmp(other))
    }
}

impl Ord for Atom {
    ghost cmp = { atom_cmp };

    ghost total = { atoms_total };

    ghost matches_partial_cmp = { λ x y. refl };

    ghost matches_eq = { λ x y. refl };

    fn cmp(&self, other: &Atom) -> Ordering {
        match self {
            Atom::Bool(one) => match other {
                Atom::Bool(two) => one.cmp(two),
                _ => Ordering::Less,
            },
            Atom::Int(one) => match other {
                Atom::Bool(_) => Ordering::Greater,
                Atom::Int(two) => one.cmp(two),
                _ => Ordering::Less,
            },
            Atom::Uint(one) => match other {
                Atom::Bool(_) | Atom::Int(_) => Ordering::Greater,
                Atom::Uint(two) => one.cmp(two),
                _ => Ordering::Less,
            },
            Atom::Dec { units, places } => match other {
                Atom::Dec {
                    units: other_units,
                    places: other_places,
                } => units.cmp(other_units).then(places.cmp(other_places)),
                Atom::Text(_) => Ordering::Less,
                _ => Ordering::Greater,
            },
            Atom::Text(one) => match other {
                Atom::Text(two) => one.cmp(two),
                _ => Ordering::Greater,
            },
        }
    }
}

//! The keys of list entries.
ghost use Rattle.std.specs.Prelude.{◌≡◌, ◌∷◌, [], true, IfOk, length};
ghost use Rattle.std.specs.Cmp.Lexicographic.{pointwise, slice_cmp, slice_partial_cmp, lists_agrees, lists_total, lists_equiv, lists_ties, lists_po, lists_per};
ghost use Rattle.std.specs.Cmp.{partial_equiv_from_equiv, partial_order_from_total};
ghost use Rattle.std.specs.Ordering.{eq_by_cmp, as_partial_cmp};
ghost use Rattle.std.specs.declared.cmp.Ordering.TheVariants.{Equal};
ghost use Rattle.std.proofs.Common.{refl};
ghost use Rattle.std.proofs.lemmas.Cmp.{eq_by_cmp_equiv};
ghost use Rattle.yp_base.specs.Order.{atom_cmp};
ghost use Rattle.yp_base.specs.OrderLaws.{atoms_total};

use crate::atom::Atom;
use crate::memory::{Duplicate, NoMemory};
use std::alloc::Global;
use std::cmp::Ordering;
use std::marker::Model;
use std::slice;
use std::sync::Arc;

/// Where keys lie: one that stands alone, in its segment.
#[derive(Drop)]
enum Place {
    Nowhere,
    One(Atom),
    Several(Arc<Vec<Atom>, Global>),
}

/// The keys of a list entry, in the order of the schema, or the one value of a leaf-list entry. Copies share them, and
/// take no memory.
///
/// Contracts see the list of the keys.
#[derive(Drop)]
pub struct Keys {
    place: Place,
}

impl Model for Keys {
    ghost use Rattle.std.specs.Prelude.{List};
    ghost use Rattle.yp_base.specs.Places.{placed_keys};
    ghost use Rattle.yp_base.specs.declared.atom.Atom.{Atom};

    ghost Value = { List Atom };

    ghost view = { λ k. placed_keys k.place };
}

impl Keys {
    /// No keys: those of a step that is no entry.
    pub fn none() -> Keys
        ensures { result ≡ [] }
    {
        Keys {
            place: Place::Nowhere,
        }
    }

    /// One key.
    pub fn one(key: Atom) -> Keys
        ensures { result ≡ key ∷ [] }
    {
        Keys {
            place: Place::One(key),
        }
    }

    /// These keys, to be shared by copies.
    pub fn from_vec(alloc: Global, keys: Vec<Atom>) -> Result<Keys, NoMemory>
        ensures { IfOk result (λ made. made ≡ keys.items) }
    {
        let mut keys = keys;
        match keys.len() {
            0 => Ok(Keys::none()),
            1 => match keys.pop() {
                Some(key) => Ok(Keys::one(key)),
                None => Ok(Keys::none()),
            },
            _ => Ok(Keys {
                place: Place::Several(Arc::new(alloc, keys)?),
            }),
        }
    }

    /// The keys.
    pub fn items(&self) -> &[Atom]
        ensures { result.now ≡ self.now }
    {
        match &self.place {
            Place::Nowhere => &[],
            Place::One(key) => slice::from_ref(key),
            Place::Several(keys) => keys.as_slice(),
        }
    }

    /// The order of keys, key by key.
    #[inline(never)]
    fn order(&self, other: &Keys) -> Ordering
        ensures { result ≡ slice_cmp atom_cmp self.now other.now }
    {
        match &self.place {
            Place::Several(keys) => {
                let (rest, other_rest) = without_same(keys.as_slice(), other.items());
                rest.cmp(other_rest)
            }
            _ => self.items().cmp(other.items()),
        }
    }

    /// How many keys there are.
    pub fn len(&self) -> usize
        ensures { result ≡ length self.now }
    {
        self.items().len()
    }
}

/// The order of two keys. Most keys are texts, so these come first.
#[inline(always)]
fn order_of(one: &Atom, other: &Atom) -> Ordering
    ensures { result ≡ atom_cmp one.now other.now }
{
    match (one, other) {
        (Atom::Text(text), Atom::Text(other_text)) => text.cmp(other_text),
        _ => one.cmp(other),
    }
}

/// Whether two keys are seen at once to be one. `false` leaves it open.
fn is_same(one: &Atom, other: &Atom) -> bool
    ensures { result ≡ true → atom_cmp one.now other.now ≡ Equal }
{
    if let Atom::Uint(one) = one {
        return match other {
            Atom::Uint(other) => one == other,
            _ => false,
        };
    }
    if let Atom::Text(one) = one {
        return match other {
            Atom::Text(other) => one == other,
            _ => false,
        };
    }
    false
}

/// Keys without those at their start that are seen to be the same in both lists.
fn without_same<'a>(one: &'a [Atom], other: &'a [Atom]) -> (&'a [Atom], &'a [Atom])
    ensures { slice_cmp atom_cmp result.0.now result.1.now ≡ slice_cmp atom_cmp one.now other.now }
{
    let mut same = 0;
    while same < one.len() && same < other.len() && is_same(&one[same], &other[same]) {
        same += 1;
    }
    (one.split_at(same).1, other.split_at(same).1)
}

impl Duplicate for Keys {
    fn copy(&self, alloc: Global) -> Result<Keys, NoMemory> {
        let place = match &self.place {
            Place::Nowhere => Place::Nowhere,
            Place::One(key) => Place::One(key.copy(alloc)?),
            Place::Several(keys) => Place::Several(keys.clone()?),
        };
        Ok(Keys { place })
    }
}

impl PartialEq for Keys {
    ghost eq = { pointwise (eq_by_cmp atom_cmp) };

    ghost laws = { lists_per (partial_equiv_from_equiv (eq_by_cmp_equiv atoms_total)) };

    fn eq(&self, other: &Keys) -> bool {
        self.items() == other.items()
    }
}

impl Eq for Keys {
    ghost laws = { lists_equiv (eq_by_cmp_equiv atoms_total) };
}

impl PartialOrd for Keys {
    ghost partial_cmp = { slice_partial_cmp (as_partial_cmp atom_cmp) };

    ghost laws = { lists_po (partial_order_from_total atoms_total) };

    fn partial_cmp(&self, other: &Keys) -> Option<Ordering> {
        self.items().partial_cmp(other.items())
    }
}

impl Ord for Keys {
    ghost cmp = { slice_cmp atom_cmp };

    ghost total = { lists_total atoms_total };

    ghost matches_partial_cmp = { λ x y. lists_agrees (λ a b. refl) x y };

    ghost matches_eq = { λ x y. lists_ties atom_cmp (λ a b. refl) x y };

    #[inline(always)]
    fn cmp(&self, other: &Keys) -> Ordering {
        match (&self.place, &other.place) {
            (Place::Nowhere, Place::Nowhere) => Ordering::Equal,
            (Place::One(one), Place::One(two)) => order_of(one, two),
            _ => self.order(other),
        }
    }
}

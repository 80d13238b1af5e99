//! Paths: the way from the top of a datastore to a node, an entry or a leaf.
ghost use Rattle.std.specs.Prelude.{◌≡◌, ◌↔◌, ◌++◌, ◌∷◌, [], IsTrue, IfOk, length, option_copied, take};
ghost use Rattle.std.specs.Cmp.Lexicographic.{pointwise, slice_partial_cmp, lists_agrees, lists_equiv, lists_ties, lists_po, lists_per};
ghost use Rattle.std.specs.Ordering.{eq_by_cmp, as_partial_cmp};
ghost use Rattle.std.specs.Cmp.{partial_equiv_from_equiv, partial_order_from_total};
ghost use Rattle.std.proofs.lemmas.Cmp.{eq_by_cmp_equiv};
ghost use Rattle.std.proofs.Common.{refl};
ghost use Rattle.yp_base.specs.Order.{IsPrefixOf, is_within, segment_cmp, path_cmp};
ghost use Rattle.yp_base.specs.OrderLaws.{paths_total, segments_total};
ghost use Rattle.yp_base.specs.Paths.{is_covered};

use crate::keys::Keys;
use crate::memory::{Duplicate, NoMemory};
use crate::series::copies_of;
use std::alloc::Global;
use std::cmp::Ordering;
use std::marker::Model;
use std::sync::Arc;

/// A step of a path: a node of the schema, with its keys where it is a list entry, or its value where
/// it is a leaf-list entry (RFC 8040 section 3.5.3).
#[derive(Drop)]
pub struct Seg {
    pub node: u32,
    pub keys: Keys,
}

/// The way from the top to a node, an entry or a leaf. The empty path is the whole datastore. A copy of a path and a path
/// above it share its segments, and take no memory.
///
/// Contracts see the list of its segments.
#[derive(Drop)]
pub struct Path {
    len: usize,
    /// Its segments are the first so many of these.
    segments: Arc<Vec<Seg>, Global>,
}

impl Model for Path {
    ghost use Rattle.std.specs.Arc.{arc_value};
    ghost use Rattle.std.specs.Prelude.{List, take};
    ghost use Rattle.yp_base.specs.declared.path.Seg.{Seg};

    ghost Value = { List Seg };

    ghost view = { λ p. take p.len (arc_value p.segments).items };
}

impl Path {
    /// The path of these segments, to be shared by its copies.
    pub fn from_vec(alloc: Global, segments: Vec<Seg>) -> Result<Path, NoMemory>
        ensures { IfOk result (λ path. path ≡ segments.items) }
    {
        Ok(Path {
            len: segments.len(),
            segments: Arc::new(alloc, segments)?,
        })
    }

    /// The path of the whole datastore.
    pub fn top(alloc: Global) -> Result<Path, NoMemory>
        ensures { IfOk result (λ path. path ≡ []) }
    {
        Path::from_vec(alloc, Vec::new(alloc))
    }

    /// The path of a node or an entry below this one.
    pub fn below(&self, alloc: Global, segment: Seg) -> Result<Path, NoMemory>
        ensures { IfOk result (λ path. path ≡ self.now ++ segment ∷ []) }
    {
        let mut segments = copies_of(alloc, self.items(), 1)?;
        segments.push(segment)?;
        Path::from_vec(alloc, segments)
    }

    /// The path of its first segments, so many or all.
    pub fn first(&self, count: usize) -> Result<Path, NoMemory>
        ensures { IfOk result (λ path. path ≡ take count self.now) }
    {
        Ok(Path {
            len: count.min(self.len),
            segments: self.segments.clone()?,
        })
    }

    /// Its segments.
    pub fn items(&self) -> &[Seg]
        ensures { result.now ≡ self.now }
    {
        match self.segments.get(..self.len) {
            Some(first) => first,
            None => self.segments.as_slice(),
        }
    }

    /// How many segments it has.
    pub fn len(&self) -> usize
        ensures { result ≡ length self.now }
    {
        self.items().len()
    }
}

impl PartialEq for Seg {
    ghost eq = { eq_by_cmp segment_cmp };

    ghost laws = { partial_equiv_from_equiv (eq_by_cmp_equiv segments_total) };

    fn eq(&self, other: &Seg) -> bool {
        self.cmp(other).is_eq()
    }
}

impl Eq for Seg {
    ghost laws = { eq_by_cmp_equiv segments_total };
}

impl PartialOrd for Seg {
    ghost partial_cmp = { as_partial_cmp segment_cmp };

    ghost laws = { partial_order_from_total segments_total };

    fn partial_cmp(&self, other: &Seg) -> Option<Ordering> {
        Some(self.cmp(other))
    }
}

impl Ord for Seg {
    ghost cmp = { segment_cmp };

    ghost total = { segments_total };

    ghost matches_partial_cmp = { λ x y. refl };

    ghost matches_eq = { λ x y. refl };

    #[inline(always)]
    fn cmp(&self, other: &Seg) -> Ordering {
        match self.node.cmp(&other.node) {
            Ordering::Equal => self.keys.cmp(&other.keys),
            unequal => unequal,
        }
    }
}

impl Duplicate for Seg {
    fn copy(&self, alloc: Global) -> Result<Seg, NoMemory> {
        Ok(Seg {
            node: self.node,
            keys: self.keys.copy(alloc)?,
        })
    }
}

impl Duplicate for Path {
    fn copy(&self, _alloc: Global) -> Result<Path, NoMemory> {
        Ok(Path {
            len: self.len,
            segments: self.segments.clone()?,
        })
    }
}

impl PartialEq for Path {
    ghost eq = { pointwise (eq_by_cmp segment_cmp) };

    ghost laws = { lists_per (partial_equiv_from_equiv (eq_by_cmp_equiv segments_total)) };

    fn eq(&self, other: &Path) -> bool {
        self.items() == other.items()
    }
}

impl Eq for Path {
    ghost laws = { lists_equiv (eq_by_cmp_equiv segments_total) };
}

impl PartialOrd for Path {
    ghost partial_cmp = { slice_partial_cmp (as_partial_cmp segment_cmp) };

    ghost laws = { lists_po (partial_order_from_total segments_total) };

    fn partial_cmp(&self, other: &Path) -> Option<Ordering> {
        self.items().partial_cmp(other.items())
    }
}

impl Ord for Path {
    ghost cmp = { path_cmp };

    ghost total = { paths_total };

    ghost matches_partial_cmp = { λ x y. lists_agrees (λ a b. refl) x y };

    ghost matches_eq = { λ x y. lists_ties segment_cmp (λ a b. refl) x y };

    fn cmp(&self, other: &Path) -> Ordering {
        self.items().cmp(other.items())
    }
}

/// Whether one path is another or above it.
pub fn is_prefix(above: &Path, path: &Path) -> bool
    ensures value { result ≡ is_within above.now path.now }
    ensures front { IsTrue result ↔ IsPrefixOf above.now path.now }
{
    path.items().starts_with(above.items())
}

/// Whether a path is another or below it, where there is one.
pub fn is_covered(above: Option<&Path>, path: &Path) -> bool
    ensures { result ≡ is_covered (option_copied above.entry) path.now }
{
    match above {
        Some(above) => is_prefix(above, path),
        None => false,
    }
}

/// The order of paths: segment by segment, by node number and then by keys, a prefix first.
pub fn compare(one: &Path, other: &Path) -> Ordering
    ensures { result ≡ path_cmp one.now other.now }
{
    one.cmp(other)
}

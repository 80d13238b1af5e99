//! Texts.
ghost use Rattle.std.specs.Prelude.{◌≡◌, IfOk, nat_eq, Some};
ghost use Rattle.std.specs.Ordering.{nat_cmp};
ghost use Rattle.std.specs.Cmp.Lexicographic.{pointwise, slice_cmp, nat_list_eq_equiv, nat_list_cmp_total, texts_ties, texts_po};
ghost use Rattle.std.specs.Cmp.{partial_equiv_from_equiv};
ghost use Rattle.std.proofs.Common.{refl};
ghost use Rattle.std.specs.String.{string_bytes};
ghost use Rattle.yp_base.specs.Types.{are_distinct};

use crate::memory::{Duplicate, NoMemory};
use std::alloc::Global;
use std::cmp::Ordering;
use std::collections::BTreeSet;
use std::marker::Model;
use std::sync::Arc;

/// A text in UTF-8, which its copies share: a copy takes no memory. Contracts see its bytes, and nothing of
/// its spare room.
#[derive(Drop)]
pub struct Txt {
    text: Arc<String, Global>,
}

impl Model for Txt {
    ghost use Rattle.std.specs.Prelude.{List, ℕ};
    ghost use Rattle.std.specs.Arc.{arc_value};
    ghost use Rattle.std.specs.String.{string_bytes};

    ghost Value = { List ℕ };

    ghost view = { λ t. string_bytes (arc_value t.text) };
}

impl Txt {
    /// The text of a string, to be shared by its copies.
    pub fn from_string(alloc: Global, text: String) -> Result<Txt, NoMemory>
        ensures { IfOk result (λ made. made ≡ string_bytes text) }
    {
        Ok(Txt {
            text: Arc::new(alloc, text)?,
        })
    }

    /// The text.
    pub fn as_str(&self) -> &str
        ensures { result.now ≡ self.now }
    {
        self.text.as_str()
    }
}

/// The text of a string slice.
pub fn text_of(alloc: Global, text: &str) -> Result<Txt, NoMemory>
    ensures { IfOk result (λ made. made ≡ text.now) }
{
    Txt::from_string(alloc, String::from_str(alloc, text)?)
}

/// Whether no text stands twice.
pub fn are_distinct(alloc: Global, texts: &[Txt]) -> Result<bool, NoMemory>
    ensures { IfOk result (λ distinct. distinct ≡ are_distinct texts.now) }
{
    let mut seen = BTreeSet::new(alloc);
    for text in texts {
        if !seen.insert(text.as_str())? {
            return Ok(false);
        }
    }
    Ok(true)
}

impl Duplicate for Txt {
    fn copy(&self, _alloc: Global) -> Result<Txt, NoMemory> {
        Ok(Txt {
            text: self.text.clone()?,
        })
    }
}

impl PartialEq for Txt {
    ghost eq = { pointwise nat_eq };

    ghost laws = { partial_equiv_from_equiv nat_list_eq_equiv };

    fn eq(&self, other: &Txt) -> bool {
        self.as_str() == other.as_str()
    }
}

impl Eq for Txt {
    ghost laws = { nat_list_eq_equiv };
}

impl PartialOrd for Txt {
    ghost partial_cmp = { λ x y. Some (slice_cmp nat_cmp x y) };

    ghost laws = { texts_po };

    fn partial_cmp(&self, other: &Txt) -> Option<Ordering> {
        Some(self.cmp(other))
    }
}

impl Ord for Txt {
    ghost cmp = { slice_cmp nat_cmp };

    ghost total = { nat_list_cmp_total };

    ghost matches_partial_cmp = { λ x y. refl };

    ghost matches_eq = { λ x y. texts_ties x y };

    fn cmp(&self, other: &Txt) -> Ordering {
        self.as_str().cmp(other.as_str())
    }
}

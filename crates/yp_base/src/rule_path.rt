//! The paths of access control rules (RFC 8341 section 3.3.5): a path whose keys may be left open.
ghost use Rattle.std.specs.Prelude.{◌≡◌, IfOk, length};
ghost use Rattle.std.specs.Cmp.Lexicographic.{pointwise, lists_equiv, options_equiv};
ghost use Rattle.std.specs.Cmp.{partial_equiv_from_equiv};
ghost use Rattle.std.specs.Option.{option_eq};
ghost use Rattle.std.specs.Ordering.{eq_by_cmp};
ghost use Rattle.std.proofs.lemmas.Cmp.{eq_by_cmp_equiv};
ghost use Rattle.yp_base.specs.Order.{atom_cmp};
ghost use Rattle.yp_base.specs.OrderLaws.{atoms_total};

use crate::atom::Atom;
use crate::memory::{Duplicate, NoMemory};
use crate::series::Series;
use std::alloc::Global;
use std::marker::Model;

/// The keys of a step, one for each key of the list, in the order of the schema; `None` stands for all
/// values.
#[derive(Drop)]
pub struct RuleKeys {
    kept: Vec<Option<Atom>>,
}

impl Model for RuleKeys {
    ghost use Rattle.std.specs.Prelude.{List};
    ghost use Rattle.std.specs.Prelude.{Option};
    ghost use Rattle.yp_base.specs.declared.atom.Atom.{Atom};

    ghost Value = { List (Option Atom) };

    ghost view = { λ k. k.kept.items };
}

impl RuleKeys {
    /// These keys. It takes no memory.
    pub fn from_vec(keys: Vec<Option<Atom>>) -> RuleKeys
        ensures { result ≡ keys.items }
    {
        RuleKeys { kept: keys }
    }

    /// The keys.
    pub fn items(&self) -> &[Option<Atom>]
        ensures { result.now ≡ self.now }
    {
        self.kept.as_slice()
    }

    /// How many keys there are.
    pub fn len(&self) -> usize
        ensures { result ≡ length self.now }
    {
        self.kept.len()
    }
}

impl PartialEq for RuleKeys {
    ghost eq = { pointwise (option_eq (eq_by_cmp atom_cmp)) };

    ghost laws = { partial_equiv_from_equiv (lists_equiv (options_equiv (eq_by_cmp_equiv atoms_total))) };

    fn eq(&self, other: &RuleKeys) -> bool {
        self.kept == other.kept
    }
}

impl Eq for RuleKeys {
    ghost laws = { lists_equiv (options_equiv (eq_by_cmp_equiv atoms_total)) };
}

impl Duplicate for RuleKeys {
    fn copy(&self, alloc: Global) -> Result<RuleKeys, NoMemory> {
        let mut copies = Vec::new(alloc);
        for key in self.kept.as_slice() {
            copies.push(key.copy(alloc)?)?;
        }
        Ok(RuleKeys { kept: copies })
    }
}

/// A step of a rule's path: a node of the schema, with its keys where it is a list.
#[derive(Drop, PartialEq, Eq)]
pub struct RuleSeg {
    pub node: u32,
    pub keys: RuleKeys,
}

impl Duplicate for RuleSeg {
    fn copy(&self, alloc: Global) -> Result<RuleSeg, NoMemory> {
        Ok(RuleSeg {
            node: self.node,
            keys: self.keys.copy(alloc)?,
        })
    }
}

/// The way from the top to what a rule is about.
pub type RulePath = Series<RuleSeg>;

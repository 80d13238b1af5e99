//! Names, of which each may be given once.
ghost use Rattle.std.specs.Prelude.{◌≡◌, [], IfOk, OnOk, not};
ghost use Rattle.yp_base.specs.Types.{is_among};
ghost use Rattle.yp_nacm_text.specs.NameSets.{AddsName};

use std::alloc::Global;
use std::collections::BTreeSet;
use std::marker::Model;
use yp_base::memory::NoMemory;

/// The names that are taken. Contracts see them as a list, in no order that matters.
#[derive(Drop)]
pub struct NameSet<'a> {
    taken: BTreeSet<&'a str>,
}

impl<'a> Model for NameSet<'a> {
    ghost use Rattle.std.specs.Prelude.{List, ℕ, map};

    ghost Value = { List (List ℕ) };

    ghost view = { λ s. map (λ key. key.now) s.taken.keys };
}

impl<'a> NameSet<'a> {
    /// No names.
    pub fn new(alloc: Global) -> NameSet<'a>
        ensures { result ≡ [] }
    {
        NameSet {
            taken: BTreeSet::new(alloc),
        }
    }

    /// Takes a name. Whether it was free is the answer.
    pub fn take(&mut self, name: &'a str) -> Result<bool, NoMemory>
        ensures free { IfOk result (λ free. free ≡ not (is_among name.now self.old)) }
        ensures taken { OnOk result (AddsName self.old self.new name.now) }
    {
        Ok(self.taken.insert(name)?)
    }
}

//! What a receiver holds: the fold of its notices (RFC 8641 section 3.7).
ghost use Rattle.std.specs.Prelude.{◌≡◌, [], OnOk, OnErr, IfOk, map, option_copied, unwrap_or};
ghost use Rattle.std.specs.BTreeMap.{insert_entry};
ghost use Rattle.std.specs.Ordering.{nat_cmp};
ghost use Rattle.yp_base.specs.Rows.{put_rows, changed_by};
ghost use Rattle.yp_receiver.specs.Held.{held_of, hears};

use crate::holding::Holding;
use std::alloc::Global;
use std::collections::BTreeMap;
use std::marker::Model;
use yp_base::memory::NoMemory;
use yp_base::notice::{Change, Notice};

/// The rows that a receiver holds of each subscription that it had an update of. Contracts see the list
/// of them, in the order of ids.
#[derive(Drop)]
pub struct Holdings {
    kept: BTreeMap<u32, Holding>,
}

impl Model for Holdings {
    ghost use Rattle.std.specs.Prelude.{ℕ, List};
    ghost use Rattle.yp_base.specs.declared.row.Row.{Row};

    ghost Value = { List (ℕ × List Row) };

    ghost view = { λ h. h.kept.entries };
}

impl Holdings {
    /// Of a receiver that had no update. It takes no memory.
    pub fn new(alloc: Global) -> Holdings
        ensures { result ≡ [] }
    {
        Holdings {
            kept: BTreeMap::new(alloc),
        }
    }

    /// What is held of each subscription.
    pub fn kept(&self) -> &BTreeMap<u32, Holding>
        ensures { result.now.entries ≡ self.now }
    {
        &self.kept
    }

    /// The same, given away.
    pub fn into_kept(self) -> BTreeMap<u32, Holding>
        ensures { result.entries ≡ self }
    {
        let Holdings { kept } = self;
        kept
    }

    /// The ids of the subscriptions that had an update, ascending.
    pub fn ids(&self, alloc: Global) -> Result<Vec<u32>, NoMemory>
        ensures { IfOk result (λ ids. ids.items ≡ map (λ held. held.0) self.now) }
    {
        let mut ids = Vec::with_capacity(alloc, self.kept.len())?;
        for id in self.kept.keys() {
            ids.push(*id)?;
        }
        Ok(ids)
    }

    /// What is held of a subscription, and `None` exactly where it had no update.
    pub fn find(&self, id: u32) -> Option<&Holding>
        ensures { option_copied result ≡ held_of id self.now }
    {
        self.kept.get(&id)
    }

    // Sets the rows of a subscription.
    fn set(&mut self, id: u32, rows: Holding) -> Result<(), NoMemory>
        ensures set { OnOk result (self.new ≡ insert_entry nat_cmp self.old id rows) }
        ensures unchanged { OnErr result (self.new ≡ self.old) }
    {
        self.kept.insert(id, rows)?;
        Ok(())
    }

    // Sets the rows of a subscription to those that its first update, a change update, makes.
    fn hear_first(&mut self, alloc: Global, id: u32, changes: &[Change]) -> Result<(), NoMemory>
        ensures set { OnOk result (self.new ≡ insert_entry nat_cmp self.old id (changed_by changes.now [])) }
        ensures unchanged { OnErr result (self.new ≡ self.old) }
    {
        let rows = Holding::first(alloc, changes)?;
        self.set(id, rows)
    }

    // Changes the rows of a subscription.
    fn hear_update(&mut self, alloc: Global, id: u32, changes: &[Change]) -> Result<(), NoMemory>
        ensures heard { OnOk result (self.new ≡ insert_entry nat_cmp self.old id (changed_by changes.now (unwrap_or (held_of id self.old) []))) }
        ensures unchanged { OnErr result (self.new ≡ self.old) }
    {
        match self.kept.get_mut(&id) {
            Some(rows) => rows.change(alloc, changes),
            None => self.hear_first(alloc, id, changes),
        }
    }

    /// Hears a notification. A full update sets the rows of its subscription, a change update changes
    /// them, and nothing else does. After `NoMemory` all is as it was.
    pub fn hear(&mut self, alloc: Global, notice: Notice) -> Result<(), NoMemory>
        ensures heard { OnOk result (self.new ≡ hears notice self.old) }
        ensures unchanged { OnErr result (self.new ≡ self.old) }
    {
        match notice {
            Notice::Full { id, rows } => self.set(id, Holding::told(rows)),
            Notice::Changes { id, changes, .. } => self.hear_update(alloc, id, changes.items()),
            Notice::Started { .. } => Ok(()),
            Notice::Modified { .. } => Ok(()),
            Notice::Suspended { .. } => Ok(()),
            Notice::Resumed { .. } => Ok(()),
            Notice::Terminated { .. } => Ok(()),
        }
    }
}

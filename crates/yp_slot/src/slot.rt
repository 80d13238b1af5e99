//! What is kept of one feed, and what a look at it finds.
ghost use Rattle.std.specs.Prelude.{◌≡◌, ◌<◌, length, min, true, false, None, Some, IfOk, OnOk};
ghost use Rattle.std.specs.List.{AllByRecursion};
ghost use Rattle.yp_encode.specs.Sendable.{IsSendableChange};
ghost use Rattle.yp_feed.specs.Machine.{freezes, offer_of};
ghost use Rattle.yp_attempt.specs.Tracks.{Track, excluded_kinds, freeze_tried, rebased};
ghost use Rattle.yp_attempt.specs.Workers.{ready};
ghost use Rattle.yp_moment.specs.Windows.{recorded};
ghost use Rattle.yp_slot.specs.Classes.{HasClass, member_of};
ghost use Rattle.yp_slot.specs.Records.{AreTold, IsRecord};
ghost use Rattle.yp_slot.specs.Slots.{IsQuiet, IsPresent, IsKeptAt, IsSlotOf, IsLook, record_at};

use crate::classes::Classes;
use crate::present::Present;
use crate::records::{Record, Told, find, with_text};
use std::alloc::Global;
use std::sync::ledger::Ledger;
use yp_base::memory::{Duplicate, NoMemory};
use yp_base::notice::{Changes, Kinds, Trigger};
use yp_base::steps::Steps;
use yp_feed::feed::Feed;
use yp_feed::item::Item;
use yp_filter::filter::Filter;
use yp_touch::laws::absorbed_roots_are_those_of_the_window;
use yp_touch::touched::Touched;

/// A record that was set aside while the queue was full (RFC 8641 section 3.11.1): the positions from which
/// and at which it was made, the tick, and its edits.
#[derive(Drop)]
pub struct Frozen {
    pub from: u64,
    pub position: u64,
    pub tick: u64,
    pub edits: Changes,
}

/// A feed, the filter of its subscription, the number of its class, the places that changed of what it
/// selects since its base, and the record that was set aside.
#[derive(Drop)]
pub struct Slot {
    pub feed: Feed,
    pub filter: Filter,
    pub class: usize,
    pub touched: Touched,
    pub frozen: Option<Frozen>,
}

/// What a look at a slot finds: the item that it offers, and where this is of changes their record.
#[derive(Drop)]
pub struct Looked {
    pub item: Option<Item>,
    pub changes: Option<Record>,
}

/// The number of places, or the greatest number of 32 bits where there are more.
pub fn count(touched: &Touched) -> u32
    ensures { result ≡ min (length touched.now) 4294967295 }
{
    let roots = touched.roots().len();
    if roots < u32::MAX as usize {
        roots as u32
    } else {
        u32::MAX
    }
}

/// The kinds of edits that a subscription leaves out.
fn excluded_kinds(trigger: &Trigger) -> Kinds
    ensures { result ≡ excluded_kinds trigger.now }
{
    match trigger {
        Trigger::Periodic { .. } => Kinds {
            create: false,
            delete: false,
            insert: false,
            moved: false,
            replace: false,
        },
        Trigger::OnChange { excluded, .. } => *excluded,
    }
}

/// Whether changes are offered.
fn are_changes(item: Option<Item>) -> bool
    ensures yes { result ≡ true → item ≡ Some Item.Changes }
    ensures no { result ≡ false → item ≡ Some Item.Changes → ⊥ }
{
    matches!(item, Some(Item::Changes))
}

impl Slot {
    /// The record of the places that it keeps.
    fn record<L: Ledger>(
        &self,
        alloc: Global,
        present: &Present,
        steps: &mut Steps<L>,
    ) -> Result<Changes, NoMemory>
        requires present { IsPresent present.now.schema.now present.now.state.now present.now.readers.now }
        requires kept { IsKeptAt present.now.schema.now present.now.state.now self.now }
        ensures changes { IfOk result (λ changes. changes ≡ record_at present.now.schema.now present.now.state.now self.now) }
        ensures sendable { IfOk result (λ changes. AllByRecursion (IsSendableChange present.now.schema.now) changes) }
    {
        let rules = present.rules_of(self.feed.receiver() as usize);
        let excluded = excluded_kinds(self.feed.trigger());
        self.touched.record(
            alloc,
            present.schema,
            &self.filter,
            rules,
            present.state.tree(),
            &excluded,
            steps,
        )
    }

    /// The record of the places that it keeps, where it has an edit: the one that its class was told of the
    /// same places, without the same kinds of edits, or else a new one, which is told then.
    fn record_told<L: Ledger>(
        &self,
        alloc: Global,
        present: &Present,
        classes: &mut Classes,
        steps: &mut Steps<L>,
    ) -> Result<Option<Record>, NoMemory>
        requires present { IsPresent present.now.schema.now present.now.state.now present.now.readers.now }
        requires kept { IsKeptAt present.now.schema.now present.now.state.now self.now }
        requires class { HasClass present.now.state.now classes.old.all.items (member_of self.now) }
        requires told { AreTold present.now.schema.now present.now.state.now classes.old.all.items classes.old.told.items }
        ensures record_is { IfOk result (λ told. IsRecord present.now.schema.now present.now.state.now.position (record_at present.now.schema.now present.now.state.now self.now) told) }
        ensures all { classes.new.all ≡ classes.old.all }
        ensures told { OnOk result (AreTold present.now.schema.now present.now.state.now classes.new.all.items classes.new.told.items) }
    {
        let excluded = excluded_kinds(self.feed.trigger());
        let told = &mut classes.told;
        if let Some(place) = find(told.as_slice(), self.class, &excluded, &self.touched) {
            return told[place].made.copy(alloc);
        }
        let changes = self.record(alloc, present, steps)?;
        let record = with_text(alloc, present, changes)?;
        told.push(Told {
            class: self.class,
            excluded,
            touched: self.touched.copy(alloc)?,
            made: record.copy(alloc)?,
        })?;
        Ok(record)
    }

    /// Sets the record aside where the rule for it holds (RFC 8641 section 3.11.1).
    fn freeze<L: Ledger>(
        &mut self,
        alloc: Global,
        present: &Present,
        steps: &mut Steps<L>,
    ) -> Result<(), NoMemory>
        requires present { IsPresent present.now.schema.now present.now.state.now present.now.readers.now }
        requires kept { IsKeptAt present.now.schema.now present.now.state.now self.old }
        ensures slot { OnOk result ((track : Track) → IsSlotOf present.now.schema.now present.now.state.now self.old track
            → IsSlotOf present.now.schema.now present.now.state.now self.new (freeze_tried recorded present.now.state.now.position present.now.state.now.stamp track)) }
        ensures member { OnOk result (member_of self.new ≡ member_of self.old) }
        ensures thawed { OnOk result (freezes self.new.feed (min (length self.new.touched) 4294967295) ≡ false) }
    {
        absorbed_roots_are_those_of_the_window();
        let from = self.feed.base();
        if self.feed.freeze_now(count(&self.touched)) {
            let edits = self.record(alloc, present, steps)?;
            self.frozen = Some(Frozen {
                from,
                position: present.state.position(),
                tick: present.state.stamp(),
                edits,
            });
        }
        Ok(())
    }

    /// Offers the record that is due, or counts changes anew where it has no edit.
    fn offer_changes<L: Ledger>(
        &mut self,
        alloc: Global,
        present: &Present,
        classes: &mut Classes,
        steps: &mut Steps<L>,
    ) -> Result<Looked, NoMemory>
        requires present { IsPresent present.now.schema.now present.now.state.now present.now.readers.now }
        requires kept { IsKeptAt present.now.schema.now present.now.state.now self.old }
        requires class { HasClass present.now.state.now classes.old.all.items (member_of self.old) }
        requires told { AreTold present.now.schema.now present.now.state.now classes.old.all.items classes.old.told.items }
        requires due { offer_of self.old.feed (min (length self.old.touched) 4294967295) 1 present.now.state.now.stamp ≡ Some Item.Changes }
        ensures look { IfOk result (λ looked. IsLook present.now.schema.now present.now.state.now (rebased recorded present.now.state.now.position present.now.state.now.stamp) self.old self.new looked) }
        ensures quiet { IfOk result (λ looked. looked.item ≡ None → IsQuiet present.now.state.now self.new) }
        ensures member { OnOk result (member_of self.new ≡ member_of self.old) }
        ensures all { classes.new.all ≡ classes.old.all }
        ensures told { OnOk result (AreTold present.now.schema.now present.now.state.now classes.new.all.items classes.new.told.items) }
    {
        absorbed_roots_are_those_of_the_window();
        match self.record_told(alloc, present, classes, steps)? {
            Some(record) => Ok(Looked {
                item: Some(Item::Changes),
                changes: Some(record),
            }),
            None => {
                let roots = count(&self.touched);
                let (n, stamp) = (present.state.position(), present.state.stamp());
                let item = self.feed.want_offer(roots, 0, n, stamp);
                self.touched = Touched::new(alloc);
                Ok(Looked {
                    item,
                    changes: None,
                })
            }
        }
    }

    /// What it offers. Only where a record with an edit would be offered is the record made.
    fn offer<L: Ledger>(
        &mut self,
        alloc: Global,
        present: &Present,
        classes: &mut Classes,
        steps: &mut Steps<L>,
    ) -> Result<Looked, NoMemory>
        requires present { IsPresent present.now.schema.now present.now.state.now present.now.readers.now }
        requires kept { IsKeptAt present.now.schema.now present.now.state.now self.old }
        requires thawed { freezes self.old.feed (min (length self.old.touched) 4294967295) ≡ false }
        requires class { HasClass present.now.state.now classes.old.all.items (member_of self.old) }
        requires told { AreTold present.now.schema.now present.now.state.now classes.old.all.items classes.old.told.items }
        ensures look { IfOk result (λ looked. IsLook present.now.schema.now present.now.state.now (rebased recorded present.now.state.now.position present.now.state.now.stamp) self.old self.new looked) }
        ensures quiet { IfOk result (λ looked. looked.item ≡ None → IsQuiet present.now.state.now self.new) }
        ensures member { OnOk result (member_of self.new ≡ member_of self.old) }
        ensures all { classes.new.all ≡ classes.old.all }
        ensures told { OnOk result (AreTold present.now.schema.now present.now.state.now classes.new.all.items classes.new.told.items) }
    {
        absorbed_roots_are_those_of_the_window();
        let roots = count(&self.touched);
        let (n, stamp) = (present.state.position(), present.state.stamp());
        let item = self.feed.want_offer(roots, 1, n, stamp);
        if are_changes(item) {
            return self.offer_changes(alloc, present, classes, steps);
        }
        Ok(Looked {
            item,
            changes: None,
        })
    }

    /// Looks at it: sets the record aside where the rule for it holds, and finds what it offers. Where its
    /// changes are due but make no edit, they are counted anew from here on.
    pub fn look<L: Ledger>(
        &mut self,
        alloc: Global,
        present: &Present,
        classes: &mut Classes,
        steps: &mut Steps<L>,
    ) -> Result<Looked, NoMemory>
        requires present { IsPresent present.now.schema.now present.now.state.now present.now.readers.now }
        requires slot { (track : Track) × IsSlotOf present.now.schema.now present.now.state.now self.old track }
        requires class { HasClass present.now.state.now classes.old.all.items (member_of self.old) }
        requires told { AreTold present.now.schema.now present.now.state.now classes.old.all.items classes.old.told.items }
        ensures look { IfOk result (λ looked. IsLook present.now.schema.now present.now.state.now (ready recorded present.now.state.now.position present.now.state.now.stamp) self.old self.new looked) }
        ensures quiet { IfOk result (λ looked. looked.item ≡ None → IsQuiet present.now.state.now self.new) }
        ensures member { OnOk result (member_of self.new ≡ member_of self.old) }
        ensures all { classes.new.all ≡ classes.old.all }
        ensures told { OnOk result (AreTold present.now.schema.now present.now.state.now classes.new.all.items classes.new.told.items) }
    {
        self.freeze(alloc, present, steps)?;
        self.offer(alloc, present, classes, steps)
    }
}

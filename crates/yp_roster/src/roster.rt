//! The roster: the slots of some receivers, in the order in which they are asked for offers.
ghost use Rattle.std.specs.Prelude.{◌≡◌, ◌+◌, ◌<◌, ◌∷◌, ◌++◌, [], ℕ, List, length, take, None, ◌≤◌, IfOk, OnOk, Option, Some, map, filter};
ghost use Rattle.yp_schema.specs.declared.schema.SchemaNode.{SchemaNode};
ghost use Rattle.yp_schema.specs.WellFormed.{IsSchema};
ghost use Rattle.yp_journal.specs.declared.receiver.ReceiverInfo.{ReceiverInfo};
ghost use Rattle.yp_journal.specs.History.{JournalState};
ghost use Rattle.yp_attempt.specs.Moments.{Moment, MayFollow, is_kept_by};
ghost use Rattle.yp_attempt.specs.Tracks.{Answer, Track};
ghost use Rattle.yp_slot.specs.declared.records.Record.{Record as RecordThere};
ghost use Rattle.yp_roster.specs.Ordered.{AreClassesOf, HaveClasses, AreSlotsOf};
ghost use Rattle.yp_slot.specs.Classes.{look_back, member_of};
ghost use Rattle.yp_slot.specs.Records.{AreTold};
ghost use Rattle.yp_roster.specs.Rosters.{AreQuietTo, IsClassed, IsFoundAt, IsIdleAt, IsLookedTo, IsNextAt, IsRosterAt, IsRosterOf, IsTurnOf};
ghost use Rattle.yp_slot.specs.Slots.{IsPresent};
ghost use Rattle.yp_roster.specs.Passed.{HasTree};
ghost use Rattle.yp_slot.specs.Steps.{IsActOf, IsEntered, LeavesSelections, act_said, answer_of, entered_moment, entered_track};

use crate::passing::{classify, enter_rules, let_go, meet, moves_feeds};
use crate::patching::enter_patch;
use crate::starting::{start, started};
use std::alloc::Global;
use std::sync::ledger::Ledger;
use yp_attempt::laws::{
    a_look_changes_nothing, a_worker_puts_in_the_next_answer, a_worker_takes_the_next_entry,
    an_opened_worker_stands_for_nothing, tracks_are_asked_in_the_order_of_ids,
};
use yp_base::memory::NoMemory;
use yp_base::steps::Steps;
use yp_feed::item::Item;
use yp_journal::command::Command;
use yp_journal::state::State;
use yp_moment::laws::what_feeds_know_of_selections_is_lawful;
use yp_slot::acts::{Act, act_of};
use yp_slot::classes::{Classes, look_back};
use yp_slot::following::Entered;
use yp_slot::laws::{
    a_quiet_slot_was_looked_at, a_record_is_set_aside_once,
    an_entry_that_moves_no_selection_leaves_slots, what_a_patch_makes_of_slots, what_an_act_finds,
};
use yp_slot::present::Present;
use yp_slot::records::Record;
use yp_slot::settling::Settled;
use yp_slot::slot::{Looked, Slot};

/// The slots of the feeds of some receivers, what those of a class share, and how many of the first ones were
/// looked at since the last entry and offer nothing.
#[derive(Drop)]
pub struct Roster {
    pub slots: Vec<Slot>,
    pub classes: Classes,
    pub looked: usize,
}

/// What a roster offers next: the place of the slot that offers it, the item, and the record where it is of
/// changes.
#[derive(Drop)]
pub struct Offer {
    pub place: usize,
    pub item: Item,
    pub changes: Option<Record>,
}

/// Looks at the slot at a place.
fn look_at<L: Ledger>(
    slots: &mut Vec<Slot>,
    place: usize,
    alloc: Global,
    present: &Present,
    classes: &mut Classes,
    steps: &mut Steps<L>,
) -> Result<Looked, NoMemory>
    requires present { IsPresent present.now.schema.now present.now.state.now present.now.readers.now }
    requires place { place < length slots.old.items }
    requires looked { (tracks : List Track) × IsLookedTo present.now.schema.now present.now.state.now tracks place slots.old.items }
    requires classes { HaveClasses present.now.state.now classes.old.all.items slots.old.items }
    requires told { AreTold present.now.schema.now present.now.state.now classes.old.all.items classes.old.told.items }
    ensures count { length slots.new.items ≡ length slots.old.items }
    ensures turn { IfOk result (λ found. (tracks : List Track) → IsLookedTo present.now.schema.now present.now.state.now tracks place slots.old.items
        → IsTurnOf present.now.schema.now present.now.state.now tracks place slots.new.items found) }
    ensures before { OnOk result (take place slots.new.items ≡ take place slots.old.items) }
    ensures quiet { IfOk result (λ found. found.item ≡ None → AreQuietTo present.now.state.now place slots.old.items → AreQuietTo present.now.state.now (place + 1) slots.new.items) }
    ensures members { OnOk result (map member_of slots.new.items ≡ map member_of slots.old.items) }
    ensures all { classes.new.all ≡ classes.old.all }
    ensures told { OnOk result (AreTold present.now.schema.now present.now.state.now classes.new.all.items classes.new.told.items) }
{
    slots[place].look(alloc, present, classes, steps)
}

/// The smaller of two numbers.
fn least(one: usize, other: usize) -> usize
    ensures first { result ≤ one }
    ensures second { result ≤ other }
{
    if one < other { one } else { other }
}

impl Roster {
    /// The roster before the first entry, with no feed. It takes no memory.
    pub fn open(alloc: Global) -> Roster
        ensures stands { (nodes : List SchemaNode) (receivers : List ReceiverInfo) (mine : List ℕ) → IsSchema nodes → IsRosterOf nodes receivers mine [] [] result.slots.items }
        ensures classed { (nodes : List SchemaNode) (state : JournalState) → IsClassed nodes state result }
    {
        an_opened_worker_stands_for_nothing();
        Roster {
            slots: Vec::new(alloc),
            classes: Classes {
                all: Vec::new(alloc),
                told: Vec::new(alloc),
            },
            looked: 0,
        }
    }

    /// Whether a class sends on change what a filter selects, so that a patch needs the rows before it.
    pub fn looks_back(&self) -> bool
        ensures { result ≡ look_back self.now.classes.all.items }
    {
        look_back(self.classes.all.as_slice())
    }

    /// The first offer of its slots, in order. It looks at them one after another until one offers something,
    /// and answers none where none does. It begins where it found the last offer since the last entry. Slots of
    /// one class with the same places share one record.
    pub fn next_offer<L: Ledger>(
        &mut self,
        alloc: Global,
        present: &Present,
        steps: &mut Steps<L>,
    ) -> Result<Option<Offer>, NoMemory>
        requires present { IsPresent present.now.schema.now present.now.state.now present.now.readers.now }
        requires slots { (tracks : List Track) × AreSlotsOf present.now.schema.now present.now.state.now self.old.slots.items tracks }
        requires classed { IsClassed present.now.schema.now present.now.state.now self.old }
        ensures next { IfOk result (λ offer. (mine : List ℕ) (past : List Moment) (answers : List Answer)
            → IsRosterAt present.now.schema.now present.now.state.now mine past answers self.old.slots.items
            → IsNextAt present.now.schema.now present.now.state.now mine past answers offer self.new.slots.items) }
        ensures classed { OnOk result (IsClassed present.now.schema.now present.now.state.now self.new) }
    {
        what_feeds_know_of_selections_is_lawful();
        a_look_changes_nothing();
        a_quiet_slot_was_looked_at();
        for place in self.looked..self.slots.len() {
            let classes = &mut self.classes;
            let found = look_at(&mut self.slots, place, alloc, present, classes, steps)?;
            match found.item {
                Some(item) => {
                    self.looked = place;
                    return Ok(Some(Offer {
                        place,
                        item,
                        changes: found.changes,
                    }))
                }
                None => {}
            }
        }
        self.looked = self.slots.len();
        Ok(None)
    }

    /// Goes on by what an entry does to subscriptions with each slot, where it leaves the rows and what users
    /// may read. Slots are gone over only where it does something to feeds that there are.
    fn meet(&mut self, alloc: Global, entered: &Entered, act: &Act) -> Result<(), NoMemory>
        requires entered { (before : JournalState) × LeavesSelections entered.now before × AreClassesOf entered.now.present.schema.now before self.old.classes.all.items self.old.slots.items × ((tracks : List Track) × AreSlotsOf entered.now.present.schema.now before self.old.slots.items tracks) }
        requires act { IsActOf entered.now act.now }
        ensures slots { OnOk result ((before : JournalState) (tracks : List Track) → LeavesSelections entered.now before → AreSlotsOf entered.now.present.schema.now before self.old.slots.items tracks
            → AreSlotsOf entered.now.present.schema.now entered.now.present.state.now self.new.slots.items (map (entered_track entered.now before) (filter (is_kept_by (act_said act.now)) tracks))) }
        ensures classes { OnOk result (AreClassesOf entered.now.present.schema.now entered.now.present.state.now self.new.classes.all.items self.new.slots.items) }
    {
        what_an_act_finds();
        an_entry_that_moves_no_selection_leaves_slots();
        if !moves_feeds(act) {
            return Ok(());
        }
        let_go(&mut self.slots, act);
        meet(&mut self.slots, alloc, entered, act)?;
        let renumbered = classify(&mut self.slots, alloc, &entered.present)?;
        self.classes.all = renumbered;
        Ok(())
    }

    /// Goes on by an entry with each slot: by a patch, by a policy, or by what it does to subscriptions.
    fn enter<L: Ledger>(
        &mut self,
        alloc: Global,
        entered: &Entered,
        act: &Act,
        steps: &mut Steps<L>,
    ) -> Result<(), NoMemory>
        requires entered { (before : JournalState) × IsEntered entered.now before × AreClassesOf entered.now.present.schema.now before self.old.classes.all.items self.old.slots.items × ((tracks : List Track) × AreSlotsOf entered.now.present.schema.now before self.old.slots.items tracks) }
        requires act { IsActOf entered.now act.now }
        requires tree { HasTree entered.now self.old.classes.all.items }
        ensures slots { OnOk result ((before : JournalState) (tracks : List Track) → IsEntered entered.now before → AreClassesOf entered.now.present.schema.now before self.old.classes.all.items self.old.slots.items
            → AreSlotsOf entered.now.present.schema.now before self.old.slots.items tracks
            → AreSlotsOf entered.now.present.schema.now entered.now.present.state.now self.new.slots.items (map (entered_track entered.now before) (filter (is_kept_by (act_said act.now)) tracks))) }
        ensures classes { OnOk result (AreClassesOf entered.now.present.schema.now entered.now.present.state.now self.new.classes.all.items self.new.slots.items) }
    {
        what_a_patch_makes_of_slots();
        match &entered.entry.command {
            Command::Edit(_) => {
                let classes = self.classes.all.as_slice();
                enter_patch(&mut self.slots, alloc, entered, classes, steps)
            }
            Command::Rules(_) => {
                let anew = enter_rules(&mut self.slots, alloc, entered)?;
                self.classes.all = anew;
                Ok(())
            }
            _ => self.meet(alloc, entered, act),
        }
    }

    /// Goes on by an entry, where nothing is offered: with each slot, and with the slots of the subscription
    /// that starts by it, for those of the receivers of these numbers that it names, which come to their place
    /// by id. By a patch the slots of a class go on together; the slots of a subscription that is dropped go. The
    /// records that were told are those of another position then.
    pub fn absorb<L: Ledger>(
        &mut self,
        alloc: Global,
        mine: &[u32],
        entered: &Entered,
        steps: &mut Steps<L>,
    ) -> Result<(), NoMemory>
        requires entered { (before : JournalState) × IsEntered entered.now before × IsClassed entered.now.present.schema.now before self.old × ((tracks : List Track) × AreSlotsOf entered.now.present.schema.now before self.old.slots.items tracks) }
        requires tree { HasTree entered.now self.old.classes.all.items }
        ensures stands { OnOk result ((before : JournalState) (past : List Moment) (answers : List Answer) → IsEntered entered.now before → IsClassed entered.now.present.schema.now before self.old
            → IsIdleAt entered.now.present.schema.now before mine.now past answers self.old.slots.items → MayFollow past (entered_moment entered.now before)
            → IsRosterAt entered.now.present.schema.now entered.now.present.state.now mine.now (past ++ entered_moment entered.now before ∷ []) answers self.new.slots.items) }
        ensures classed { OnOk result (IsClassed entered.now.present.schema.now entered.now.present.state.now self.new) }
    {
        what_feeds_know_of_selections_is_lawful();
        a_look_changes_nothing();
        a_worker_takes_the_next_entry();
        a_record_is_set_aside_once();
        tracks_are_asked_in_the_order_of_ids();
        what_an_act_finds();
        let live = entered.present.state.registry().live();
        let act = act_of(entered.entry, live);
        self.enter(alloc, entered, &act, steps)?;
        self.classes.told = Vec::new(alloc);
        self.looked = 0;
        match started(&act) {
            Some(terms) => {
                let classes = &mut self.classes.all;
                let present = &entered.present;
                start(&mut self.slots, classes, alloc, present, terms, mine)
            }
            None => Ok(()),
        }
    }

    /// Takes in the answer of the queue to the offer that was found at a place. A slot whose feed has told its
    /// end goes.
    pub fn settle(
        &mut self,
        alloc: Global,
        state: &State,
        place: usize,
        item: Item,
        settled: Settled,
    )
        requires place { place < length self.old.slots.items }
        ensures stands { (nodes : List SchemaNode) (mine : List ℕ) (past : List Moment) (answers : List Answer) (changes : Option RecordThere)
            → IsFoundAt nodes state.now mine past answers (record { place = place; item = item; changes = changes }) self.old.slots.items
            → IsRosterAt nodes state.now mine past (answers ++ answer_of settled ∷ []) self.new.slots.items }
        ensures classed { (nodes : List SchemaNode) → IsClassed nodes state.now self.old → IsClassed nodes state.now self.new }
    {
        what_feeds_know_of_selections_is_lawful();
        a_look_changes_nothing();
        a_worker_puts_in_the_next_answer();
        self.looked = least(self.looked, place);
        let slot = &mut self.slots[place];
        slot.settle(alloc, item, settled, state.position(), state.stamp());
        if slot.feed.ended() {
            drop(self.slots.remove(place));
        }
    }
}

//! What an entry makes of a slot.
ghost use Rattle.std.specs.Prelude.{◌≡◌, ◌<◌, ◌≤◌, ℕ, List, Some, length, not, true, IfOk, OnOk};
ghost use Rattle.yp_schema.specs.declared.schema.SchemaNode.{SchemaNode};
ghost use Rattle.yp_schema.specs.Datastore.{IsDatastore};
ghost use Rattle.yp_changes.specs.declared.changed.ChangedRow.{ChangedRow as ChangedRowThere};
ghost use Rattle.yp_feed.specs.declared.item.Control.TheVariants.{End, Modify, Resync, Rules};
ghost use Rattle.yp_feed.specs.Machine.{HasTerms, controlled, resyncs};
ghost use Rattle.yp_filter.specs.Fits.{filter_fits};
ghost use Rattle.yp_journal.specs.History.{JournalState, rules_at};
ghost use Rattle.yp_nacm.specs.Same.{are_same_rules};
ghost use Rattle.yp_registry.specs.Registry.{live_at};
ghost use Rattle.yp_terms.specs.Terms.{AreTermsOf, Terms as TermsThere};
ghost use Rattle.yp_attempt.specs.Tracks.{Track};
ghost use Rattle.yp_attempt.specs.Moments.{Moment, is_kept_by, new_track, with_control};
ghost use Rattle.yp_moment.specs.Entries.{selected_at};
ghost use Rattle.yp_time.specs.Ticks.{tick_limit};
ghost use Rattle.yp_slot.specs.declared.classes.Class.{Class as ClassThere};
ghost use Rattle.yp_slot.specs.Classes.{AreClasses, HasClass, IsClassOf, KeepNumbers, member_of};
ghost use Rattle.yp_slot.specs.Slots.{HasEnded, IsKeptAt, IsPresent, IsSlotOf};
ghost use Rattle.yp_slot.specs.Steps.{ComesAfter, IsActOf, IsEntered, IsEnteredByRules, IsPatchOf, IsStepOf, LeavesSelections, act_said, entered_track, gone_on, with_next};

use crate::acts::Act;
use crate::classes::{Class, is_on_change, number_of};
use crate::laws::{an_entry_that_moves_no_selection_leaves_slots, what_an_act_finds};
use crate::present::Present;
use crate::readers::Readers;
use crate::settling::resyncs;
use crate::slot::Slot;
use std::alloc::Global;
use yp_base::memory::NoMemory;
use yp_changes::changed::ChangedRow;
use yp_feed::feed::Feed;
use yp_feed::item::{Control, FeedTerms};
use yp_journal::entry::Entry;
use yp_nacm::compile::same_rules;
use yp_nacm::laws::same_rules_are_one;
use yp_select::laws::filtered_selection_is_a_datastore;
use yp_terms::terms::Terms;
use yp_touch::laws::{absorbed_roots_are_those_of_the_window, roots_end_as_rows};
use yp_touch::touched::Touched;
use yp_tree::tree::Tree;

/// An entry of the journal, with what it found and what it left: the rows before it, where they are kept,
/// the own rules of each receiver's user there, and the rows that it changed.
#[derive(Clone, Copy)]
pub struct Entered<'a> {
    pub entry: &'a Entry,
    pub before: Option<&'a Tree>,
    pub rules: &'a Readers,
    pub changed: &'a [ChangedRow],
    pub present: Present<'a>,
}

/// Whether an entry left the own rules of a receiver's user.
fn keeps_rules(entered: &Entered, receiver: u32) -> bool
    requires { (before : JournalState) × IsEntered entered.now before × (receiver < length before.receivers) }
    ensures { (before : JournalState) → IsEntered entered.now before → receiver < length before.receivers
        → result ≡ are_same_rules (rules_at before receiver) (rules_at entered.now.present.state.now receiver) }
{
    let before = entered.rules.rules(receiver as usize);
    same_rules(before, entered.present.rules_of(receiver as usize))
}

impl Slot {
    /// Goes on by a patch, by the roots of the step of what its class selects: the places become those that
    /// changed since the base. Of a periodic feed no places are kept, and of one that owes all that it selects
    /// they aren't told. After `NoMemory` it is as it was.
    pub fn join(&mut self, alloc: Global, step: &Touched) -> Result<(), NoMemory>
        ensures slot { OnOk result ((nodes : List SchemaNode) (before after : JournalState) (those : List ChangedRowThere) (class : ClassThere) → IsPatchOf nodes before after those → IsDatastore nodes after.rows
            → IsClassOf after class (member_of self.old) → IsStepOf nodes before after class step.now
            → (track : Track) → IsSlotOf nodes before self.old track → IsSlotOf nodes after self.new (with_next nodes after track)) }
        ensures member { OnOk result (member_of self.new ≡ member_of self.old) }
    {
        filtered_selection_is_a_datastore();
        absorbed_roots_are_those_of_the_window();
        roots_end_as_rows();
        if !is_on_change(self.feed.trigger()) {
            return Ok(());
        }
        if self.feed.awaits_full() {
            return Ok(());
        }
        self.touched.join(alloc, step)
    }

    /// Tells its feed what happened to it, at a position and a tick: what was set aside goes where it isn't owed
    /// any more, and of a feed that doesn't resync no place is kept.
    fn control(&mut self, alloc: Global, control: Control, n: u64, stamp: u64)
        requires terms { HasTerms control }
        requires stamp { stamp ≤ tick_limit }
        ensures { self.new ≡ gone_on (record self.old { feed = controlled self.old.feed control n stamp }) (not (resyncs (controlled self.old.feed control n stamp).trigger)) }
    {
        self.feed.control(control, n, stamp);
        let moved = !resyncs(self.feed.trigger());
        self.go_on(alloc, moved);
    }

    /// Goes on by an entry that changed the own rules of its receiver's user, at a position and a tick: what
    /// was set aside goes, and changes are counted anew, or all that is selected is owed.
    pub fn renew(&mut self, alloc: Global, n: u64, stamp: u64)
        requires stamp { stamp ≤ tick_limit }
        ensures { (nodes : List SchemaNode) (before after : JournalState) → ComesAfter before after → (track : Track)
            → IsSlotOf nodes before self.old track → IsSlotOf nodes after self.new (with_control n stamp Rules (with_next nodes after track)) }
    {
        self.control(alloc, Control::Rules, n, stamp);
    }

    /// Goes on by an entry that has its subscription synchronised again (RFC 8641 section 4.4.4), at a position
    /// and a tick: all that is selected is owed.
    fn resync(&mut self, alloc: Global, n: u64, stamp: u64)
        requires stamp { stamp ≤ tick_limit }
        ensures { (nodes : List SchemaNode) (before after : JournalState) → ComesAfter before after → (terms : TermsThere) → live_at self.old.feed.sub before.registry.live ≡ Some terms → (track : Track)
            → IsSlotOf nodes before self.old track → IsSlotOf nodes after self.new (with_control n stamp Resync (with_next nodes after track)) }
    {
        self.control(alloc, Control::Resync, n, stamp);
    }

    /// Goes on by an entry that ends its subscription (RFC 8639 sections 2.4.5 and 2.5.4), at a position and a
    /// tick: its end is owed, and nothing else but that it began.
    fn end(&mut self, alloc: Global, n: u64, stamp: u64)
        requires stamp { stamp ≤ tick_limit }
        ensures { (nodes : List SchemaNode) (before after : JournalState) → after.receivers ≡ before.receivers → HasEnded after self.old.feed.sub → (track : Track)
            → IsSlotOf nodes before self.old track → IsSlotOf nodes after self.new (with_control n stamp End (with_next nodes after track)) }
    {
        self.control(alloc, Control::End, n, stamp);
    }

    /// Goes on by an entry that gave its subscription these terms (RFC 8639 sections 2.4.3 and 2.5.3), at a
    /// position and a tick: it has their filter, and changes are counted anew, or all that is selected is owed.
    /// Where `told` is set, so is that it was modified. After `NoMemory` it is as it was.
    fn amend(
        &mut self,
        alloc: Global,
        terms: &Terms,
        told: bool,
        n: u64,
        stamp: u64,
    ) -> Result<(), NoMemory>
        requires terms { (nodes : List SchemaNode) × (count : ℕ) × AreTermsOf nodes count terms.now }
        requires stamp { stamp ≤ tick_limit }
        ensures { OnOk result ((nodes : List SchemaNode) (before after : JournalState) → after.receivers ≡ before.receivers → filter_fits nodes terms.now.asked ≡ true
            → (was : TermsThere) → live_at self.old.feed.sub before.registry.live ≡ Some was → live_at self.old.feed.sub after.registry.live ≡ Some terms.now → (track : Track)
            → IsSlotOf nodes before self.old track → IsSlotOf nodes after self.new (with_control n stamp (Modify terms.now.trigger told) (with_next nodes after track))) }
    {
        self.filter = terms.filter().copy(alloc)?;
        let trigger = *terms.trigger();
        let control = Control::Modify {
            trigger,
            notify: told,
        };
        self.control(alloc, control, n, stamp);
        Ok(())
    }

    /// Goes on by what an entry does to subscriptions, where it leaves the rows and what users may read: its
    /// own subscription goes on by other terms, is synchronised again or ends, or nothing happens to it. A slot
    /// of one that is dropped goes, and is not asked.
    pub fn meet_act(&mut self, alloc: Global, entered: &Entered, act: &Act) -> Result<(), NoMemory>
        requires entered { (before : JournalState) × LeavesSelections entered.now before × ((track : Track) × IsSlotOf entered.now.present.schema.now before self.old track) }
        requires act { IsActOf entered.now act.now }
        ensures slot { OnOk result ((before : JournalState) → LeavesSelections entered.now before → (track : Track) → is_kept_by (act_said act.now) track ≡ true
            → IsSlotOf entered.now.present.schema.now before self.old track → IsSlotOf entered.now.present.schema.now entered.now.present.state.now self.new (entered_track entered.now before track)) }
    {
        same_rules_are_one();
        what_an_act_finds();
        an_entry_that_moves_no_selection_leaves_slots();
        let state = entered.present.state;
        let (n, stamp) = (state.position(), state.stamp());
        let sub = self.feed.sub();
        match act {
            Act::Amends { terms, told } => {
                if terms.id() == sub {
                    return self.amend(alloc, terms, *told, n, stamp);
                }
            }
            Act::Resyncs(id) => {
                if *id == sub {
                    self.resync(alloc, n, stamp);
                }
            }
            Act::Ends(id) => {
                if *id == sub {
                    self.end(alloc, n, stamp);
                }
            }
            Act::Quiet => {}
            Act::Starts(_) => {}
            Act::Drops(_) => {}
        }
        Ok(())
    }

    /// Goes on by a policy.
    fn meet_rules(&mut self, alloc: Global, entered: &Entered)
        requires { (before : JournalState) × IsEnteredByRules entered.now before × IsKeptAt entered.now.present.schema.now before self.old }
        ensures { (before : JournalState) → IsEnteredByRules entered.now before → (track : Track)
            → IsSlotOf entered.now.present.schema.now before self.old track → IsSlotOf entered.now.present.schema.now entered.now.present.state.now self.new (entered_track entered.now before track) }
    {
        same_rules_are_one();
        absorbed_roots_are_those_of_the_window();
        if keeps_rules(entered, self.feed.receiver()) {
            return;
        }
        let state = entered.present.state;
        self.renew(alloc, state.position(), state.stamp());
    }

    /// Gets the number of its class among those of some slots. Where there is no such class, it is a new one.
    pub fn classify(
        &mut self,
        alloc: Global,
        present: &Present,
        classes: &mut Vec<Class>,
    ) -> Result<(), NoMemory>
        requires present { IsPresent present.now.schema.now present.now.state.now present.now.readers.now }
        requires kept { IsKeptAt present.now.schema.now present.now.state.now self.old }
        ensures slot { OnOk result ((track : Track) → IsSlotOf present.now.schema.now present.now.state.now self.old track → IsSlotOf present.now.schema.now present.now.state.now self.new track) }
        ensures class { OnOk result (HasClass present.now.state.now classes.new.items (member_of self.new)) }
        ensures numbers { OnOk result (KeepNumbers classes.old.items classes.new.items) }
        ensures classes { OnOk result (AreClasses present.now.schema.now (length present.now.state.now.receivers) classes.old.items → AreClasses present.now.schema.now (length present.now.state.now.receivers) classes.new.items) }
    {
        let receiver = self.feed.receiver();
        let trigger = self.feed.trigger();
        self.class = number_of(alloc, present, receiver, &self.filter, trigger, classes)?;
        Ok(())
    }

    /// Goes on by a policy, and gets the number of its class by the rules that users have then.
    pub fn enter_rules(
        &mut self,
        alloc: Global,
        entered: &Entered,
        classes: &mut Vec<Class>,
    ) -> Result<(), NoMemory>
        requires { (before : JournalState) × IsEnteredByRules entered.now before × ((track : Track) × IsSlotOf entered.now.present.schema.now before self.old track) }
        ensures slot { OnOk result ((before : JournalState) → IsEnteredByRules entered.now before → (track : Track)
            → IsSlotOf entered.now.present.schema.now before self.old track → IsSlotOf entered.now.present.schema.now entered.now.present.state.now self.new (entered_track entered.now before track)) }
        ensures class { OnOk result (HasClass entered.now.present.state.now classes.new.items (member_of self.new)) }
        ensures numbers { OnOk result (KeepNumbers classes.old.items classes.new.items) }
        ensures classes { OnOk result (AreClasses entered.now.present.schema.now (length entered.now.present.state.now.receivers) classes.old.items → AreClasses entered.now.present.schema.now (length entered.now.present.state.now.receivers) classes.new.items) }
    {
        self.meet_rules(alloc, entered);
        self.classify(alloc, &entered.present, classes)
    }

    /// The slot of a subscription that starts, for one of its receivers, with the number of its class.
    pub fn start(
        alloc: Global,
        present: &Present,
        terms: &Terms,
        receiver: u32,
        class: usize,
    ) -> Result<Slot, NoMemory>
        requires terms { AreTermsOf present.now.schema.now (length present.now.state.now.receivers) terms.now }
        ensures slot { IfOk result (λ slot. live_at terms.now.id present.now.state.now.registry.live ≡ Some terms.now → receiver < length present.now.state.now.receivers
            → (m : Moment) → m.stamp ≡ present.now.state.now.stamp → m.selection terms.now.id receiver ≡ selected_at present.now.schema.now present.now.state.now terms.now.id receiver
            → IsSlotOf present.now.schema.now present.now.state.now slot (new_track m present.now.state.now.position terms.now.id terms.now.trigger terms.now.configured receiver)) }
        ensures member { IfOk result (λ slot. member_of slot ≡ record { class = class; asked = terms.now.asked; receiver = receiver; trigger = terms.now.trigger }) }
    {
        let feed = Feed::start(
            FeedTerms {
                sub: terms.id(),
                receiver,
                configured: terms.configured(),
                trigger: *terms.trigger(),
            },
            present.state.position(),
            present.state.stamp(),
        );
        Ok(Slot {
            feed,
            filter: terms.filter().copy(alloc)?,
            class,
            touched: Touched::new(alloc),
            frozen: None,
        })
    }
}

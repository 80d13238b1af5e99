//! What an entry of the journal makes of a worker.
ghost use Rattle.std.specs.Prelude.{◌≡◌, ◌<◌, ◌≤◌, ◌^◌, ◌++◌, ◌∷◌, [], ℕ, List, true, false, length, map, IfOk, OnOk, OnErr};
ghost use Rattle.yp_changes.specs.Changes.{changed_rows};
ghost use Rattle.yp_journal.specs.declared.entry.Entry.{Entry as EntryThere};
ghost use Rattle.yp_journal.specs.declared.receiver.ReceiverInfo.{ReceiverInfo};
ghost use Rattle.yp_journal.specs.History.{JournalState, MayCome, MayFollow, next_state};
ghost use Rattle.yp_attempt.specs.Moments.{Moment, MayFollow as FollowsMoments};
ghost use Rattle.yp_attempt.specs.Tracks.{Answer, Track};
ghost use Rattle.yp_roster.specs.Rosters.{IsClassed, IsIdleAt, IsRosterAt};
ghost use Rattle.yp_roster.specs.Ordered.{AreSlotsOf};
ghost use Rattle.yp_roster.specs.Passed.{HasTree};
ghost use Rattle.yp_slot.specs.Steps.{IsEntered, entered_moment};
ghost use Rattle.yp_worker.specs.Workers.{IsIdle, IsIdleWorkerOf, IsStateOf, IsTaking, IsWorkerOf, TakesEntry};

use crate::keeping::{find_former, follow_with, let_go, tree_of};
use crate::rules::{readers_left, renew, renewed_readers};
use crate::worker::Worker;
use std::alloc::Global;
use std::marker::Brand;
use std::sync::ledger::{Blank, Ledger};
use yp_base::memory::NoMemory;
use yp_base::steps::Steps;
use yp_changes::changed::{Changed, ChangedRow};
use yp_journal::command::Command;
use yp_journal::entry::Entry;
use yp_journal::laws::{
    a_journal_goes_on_entry_by_entry, a_journal_keeps_users_and_names, a_legal_journal_goes_on,
};
use yp_journal::state::{Outcome, State};
use yp_registry::laws::{ids_rise, ids_rise_after_each_call};
use yp_roster::laws::a_roster_follows_a_journal;
use yp_roster::roster::Roster;
use yp_schema::schema::Schema;
use yp_slot::following::Entered;
use yp_slot::present::Present;
use yp_slot::readers::Readers;
use yp_tree::tree::Tree;

/// Takes a command into a state that a journal of the schema left.
fn accept_into(
    alloc: Global,
    schema: &Schema,
    state: &mut State,
    command: &Command,
) -> Result<Outcome, NoMemory>
    requires command { MayCome schema.now state.old.receivers command.now }
    requires position { state.old.position < 2 ^ 63 }
    requires sound { IsStateOf schema.now state.old }
    ensures state { OnOk result (state.new ≡ next_state schema.now state.old command.now) }
    ensures follows { IfOk result (λ outcome. (lane index : ℕ) → MayFollow schema.now state.old (record { lane = lane; index = index; stamp = outcome.stamp; command = command.now; reply = outcome.reply })) }
    ensures changed { IfOk result (λ outcome. outcome.changed ≡ changed_rows state.old.rows state.new.rows) }
    ensures sound { OnOk result (IsStateOf schema.now state.new) }
{
    ids_rise();
    ids_rise_after_each_call();
    a_journal_keeps_users_and_names();
    let outcome = state.accept(alloc, schema, command)?;
    Ok(outcome)
}

/// An entry with what it found and what it left.
fn entered_with<'a>(
    entry: &'a Entry,
    before: Option<&'a Tree>,
    rules: &'a Readers,
    changed: &'a [ChangedRow],
    present: Present<'a>,
) -> Entered<'a>
    ensures { result ≡ record { entry = entry.entry; before = before.entry; rules = rules.entry; changed = changed.entry; present = present.entry } }
{
    Entered {
        entry,
        before,
        rules,
        changed,
        present,
    }
}

/// Goes on by an entry with a roster, and counts no step of it.
fn enter<L: Ledger>(
    alloc: Global,
    roster: &mut Roster,
    mine: &[u32],
    entered: &Entered,
    blank: Blank,
) -> Result<(), NoMemory>
    requires name { blank.name ≡ L.name }
    requires parts { blank.parts ≡ L.parts }
    requires some { 0 < L.parts }
    requires entered { (before : JournalState) × IsEntered entered.now before × IsClassed entered.now.present.schema.now before roster.old × ((tracks : List Track) × AreSlotsOf entered.now.present.schema.now before roster.old.slots.items tracks) }
    requires tree { HasTree entered.now roster.old.classes.all.items }
    ensures stands { OnOk result ((before : JournalState) (past : List Moment) (answers : List Answer) → IsEntered entered.now before → IsClassed entered.now.present.schema.now before roster.old
        → IsIdleAt entered.now.present.schema.now before mine.now past answers roster.old.slots.items → FollowsMoments past (entered_moment entered.now before)
        → IsRosterAt entered.now.present.schema.now entered.now.present.state.now mine.now (past ++ entered_moment entered.now before ∷ []) answers roster.new.slots.items) }
    ensures classed { OnOk result (IsClassed entered.now.present.schema.now entered.now.present.state.now roster.new) }
{
    let mut steps = Steps::<L>::open(blank);
    roster.absorb(alloc, mine, entered, &mut steps)
}

impl Worker {
    /// Goes on by an entry, where the state is already the one that this leaves.
    fn take<'x>(
        &mut self,
        alloc: Global,
        schema: &'x Schema,
        entry: &'x Entry,
        changed: &'x Changed,
    ) -> Result<(), NoMemory>
        requires { TakesEntry schema.now entry.now changed.now self.old }
        ensures stands { OnOk result ((start : ℕ) (receivers : List ReceiverInfo) (mine : List ℕ) (entries : List EntryThere) (answers : List Answer)
            → IsTaking schema.now start receivers mine entries answers entry.now changed.now self.old → IsWorkerOf schema.now start receivers mine (entries ++ entry.now ∷ []) answers self.new) }
        ensures spent { self.new.spent ≡ self.old.spent }
    {
        a_roster_follows_a_journal();
        a_journal_goes_on_entry_by_entry();
        a_legal_journal_goes_on();
        let command = &entry.command;
        let tree = self.state.tree();
        let renewed = renewed_readers(alloc, command, &self.state)?;
        let (roster, former) = (&self.roster, &mut self.former);
        find_former::<Brand>(alloc, command, roster, tree, changed, former, Blank::new(1))?;
        let present = Present {
            schema,
            state: &self.state,
            readers: readers_left(&self.readers, &renewed),
        };
        let before = tree_of(&self.former);
        let entered = entered_with(entry, before, &self.readers, changed.items(), present);
        let mine = self.mine.as_slice();
        enter::<Brand>(alloc, &mut self.roster, mine, &entered, Blank::new(1))?;
        follow_with::<Brand>(alloc, &mut self.former, changed, Blank::new(1))?;
        let_go(alloc, command, changed, &mut self.contents);
        renew(&mut self.readers, renewed);
        Ok(())
    }

    /// Makes the next entry of the journal of a command, and goes on by it, where nothing is offered. After
    /// `NoMemory` it is spent.
    pub fn accept(
        &mut self,
        alloc: Global,
        schema: &Schema,
        lane: u32,
        index: u32,
        command: Command,
    ) -> Result<Entry, NoMemory>
        requires command { MayCome schema.now self.old.state.receivers command }
        requires position { self.old.state.position < 2 ^ 63 }
        requires idle { IsIdle schema.now self.old }
        ensures stands { IfOk result (λ entry. (start : ℕ) (receivers : List ReceiverInfo) (mine : List ℕ) (entries : List EntryThere) (answers : List Answer)
            → IsIdleWorkerOf schema.now start receivers mine entries answers self.old → IsWorkerOf schema.now start receivers mine (entries ++ entry ∷ []) answers self.new) }
        ensures lane { IfOk result (λ entry. entry.lane ≡ lane) }
        ensures index { IfOk result (λ entry. entry.index ≡ index) }
        ensures command { IfOk result (λ entry. entry.command ≡ command) }
        ensures spent { OnErr result (self.new.spent ≡ true) }
        ensures unspent { OnOk result (self.new.spent ≡ false) }
    {
        self.spent = true;
        let Outcome {
            stamp,
            reply,
            changed,
        } = accept_into(alloc, schema, &mut self.state, &command)?;
        let entry = Entry {
            lane,
            index,
            stamp,
            command,
            reply,
        };
        self.take(alloc, schema, &entry, &changed)?;
        self.spent = false;
        Ok(entry)
    }

    /// Goes on by the next entry of the journal, where nothing is offered. After `NoMemory` it is spent.
    pub fn absorb(&mut self, alloc: Global, schema: &Schema, entry: &Entry) -> Result<(), NoMemory>
        requires entry { MayFollow schema.now self.old.state entry.now }
        requires position { self.old.state.position < 2 ^ 63 }
        requires idle { IsIdle schema.now self.old }
        ensures stands { OnOk result ((start : ℕ) (receivers : List ReceiverInfo) (mine : List ℕ) (entries : List EntryThere) (answers : List Answer)
            → IsIdleWorkerOf schema.now start receivers mine entries answers self.old → IsWorkerOf schema.now start receivers mine (entries ++ entry.now ∷ []) answers self.new) }
        ensures spent { OnErr result (self.new.spent ≡ true) }
        ensures unspent { OnOk result (self.new.spent ≡ false) }
    {
        self.spent = true;
        let outcome = accept_into(alloc, schema, &mut self.state, &entry.command)?;
        self.take(alloc, schema, entry, &outcome.changed)?;
        self.spent = false;
        Ok(())
    }
}

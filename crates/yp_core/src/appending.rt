//! An entry is appended to the journal.
ghost use Rattle.std.specs.Prelude.{◌≡◌, ◌+◌, ◌<◌, ◌^◌, ℕ, List, length, true, IfOk, OnErr};
ghost use Rattle.yp_journal.specs.declared.entry.Entry.{Entry as EntryThere};
ghost use Rattle.yp_journal.specs.declared.receiver.ReceiverInfo.{ReceiverInfo as Declared};
ghost use Rattle.yp_journal.specs.History.{MayCome};
ghost use Rattle.yp_world.specs.World.{World as WorldThere};
ghost use Rattle.yp_core.specs.declared.event.Event.TheVariants.{Append};
ghost use Rattle.yp_core.specs.Worlds.{HasStepped, IsSomeWorld, IsWorldAt};

use crate::event::Happened;
use crate::world::World;
use std::alloc::Global;
use yp_base::memory::{Duplicate, NoMemory};
use yp_journal::command::Command;
use yp_journal::entry::Entry;
use yp_journal::laws::{a_journal_goes_on_entry_by_entry, a_legal_journal_goes_on};
use yp_journal::state::Outcome;
use yp_moment::laws::{entries_of_a_legal_journal_may_follow, one_entry_more_is_one_moment_more};
use yp_schema::schema::Schema;
use yp_world::laws::{
    every_list_of_events_keeps_what_holds, nothing_happens_where_an_event_cannot_be_done,
};

impl World {
    /// Appends the entry of a command, and tells the reply to it.
    pub(crate) fn append(
        &mut self,
        alloc: Global,
        schema: &Schema,
        command: Command,
    ) -> Result<Happened, NoMemory>
        requires world { IsSomeWorld schema.now self.old }
        requires command { MayCome schema.now self.old.state.receivers command }
        requires room { length self.old.entries.items + 1 < 2 ^ 32 }
        ensures stepped { IfOk result (λ happened. (start : ℕ) (receivers : List Declared) (workers : ℕ) (entries : List EntryThere) (world : WorldThere)
            → IsWorldAt schema.now start receivers workers entries world self.old → HasStepped schema.now start receivers workers entries world (Append command) happened self.new) }
        ensures spent { OnErr result (self.new.spent ≡ true) }
    {
        a_journal_goes_on_entry_by_entry();
        a_legal_journal_goes_on();
        one_entry_more_is_one_moment_more();
        entries_of_a_legal_journal_may_follow();
        every_list_of_events_keeps_what_holds();
        nothing_happens_where_an_event_cannot_be_done();
        self.spent = true;
        let Outcome { stamp, reply, .. } = self.state.accept(alloc, schema, &command)?;
        let told = reply.copy(alloc)?;
        self.entries.push(Entry {
            lane: 0,
            index: self.entries.len() as u32 + 1,
            stamp,
            command,
            reply,
        })?;
        self.spent = false;
        Ok(Happened::Appended(told))
    }
}

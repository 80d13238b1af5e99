//! A worker absorbs the next entry.
ghost use Rattle.std.specs.Prelude.{◌≡◌, ℕ, List, true, IfOk, OnErr};
ghost use Rattle.yp_journal.specs.declared.entry.Entry.{Entry as EntryThere};
ghost use Rattle.yp_journal.specs.declared.receiver.ReceiverInfo.{ReceiverInfo as Declared};
ghost use Rattle.yp_world.specs.World.{World as WorldThere};
ghost use Rattle.yp_core.specs.declared.event.Event.TheVariants.{Absorb};
ghost use Rattle.yp_core.specs.Worlds.{HasStepped, IsSomeWorld, IsWorldAt};

use crate::event::Happened;
use crate::world::World;
use std::alloc::Global;
use yp_base::memory::NoMemory;
use yp_journal::laws::a_journal_goes_on_entry_by_entry;
use yp_moment::laws::one_entry_more_is_one_moment_more;
use yp_schema::schema::Schema;
use yp_worker::laws::{
    a_worker_offers_what_its_run_offers, each_entry_of_a_legal_journal_may_follow,
};
use yp_world::laws::{
    every_list_of_events_keeps_what_holds, nothing_happens_where_an_event_cannot_be_done,
};

impl World {
    /// The worker of a number absorbs the next entry, unless it has something to offer or there is none.
    pub(crate) fn absorb(
        &mut self,
        alloc: Global,
        schema: &Schema,
        worker: u32,
    ) -> Result<Happened, NoMemory>
        requires { IsSomeWorld schema.now self.old }
        ensures stepped { IfOk result (λ happened. (start : ℕ) (receivers : List Declared) (workers : ℕ) (entries : List EntryThere) (world : WorldThere)
            → IsWorldAt schema.now start receivers workers entries world self.old → HasStepped schema.now start receivers workers entries world (Absorb worker) happened self.new) }
        ensures spent { OnErr result (self.new.spent ≡ true) }
    {
        a_journal_goes_on_entry_by_entry();
        one_entry_more_is_one_moment_more();
        each_entry_of_a_legal_journal_may_follow();
        a_worker_offers_what_its_run_offers();
        every_list_of_events_keeps_what_holds();
        nothing_happens_where_an_event_cannot_be_done();
        let number = worker as usize;
        if number >= self.seats.len() {
            return Ok(Happened::Nothing);
        }
        let seat = &self.seats[number];
        if seat.sent.is_some() {
            return Ok(Happened::Nothing);
        }
        let position = seat.position;
        if position >= self.entries.len() {
            return Ok(Happened::Nothing);
        }
        self.spent = true;
        self.seats[number].absorb(alloc, schema, &self.entries[position])?;
        self.spent = false;
        Ok(Happened::Absorbed(position as u64 + 1))
    }
}

//! The world.
ghost use Rattle.std.specs.Prelude.{◌≡◌, ◌+◌, ◌++◌, ◌∷◌, ◌<◌, ◌≤◌, ◌^◌, ℕ, [], List, length, true, false, IfOk, OnOk, OnErr};
ghost use Rattle.std.specs.List.{AllByRecursion, slice_get};
ghost use Rattle.yp_journal.specs.declared.entry.Entry.{Entry as EntryThere};
ghost use Rattle.yp_journal.specs.declared.receiver.ReceiverInfo.{ReceiverInfo as Declared};
ghost use Rattle.yp_promise.specs.Interleaving.{IsServedAfter, setup_of, world_after};
ghost use Rattle.yp_world.specs.World.{Event as EventThere, World as WorldThere, step};
ghost use Rattle.yp_core.specs.Deliveries.{taken_by};
ghost use Rattle.yp_core.specs.Events.{HasRoomFor, MayComeBy, entries_after, event_of, happened_of, replied_to};
ghost use Rattle.yp_core.specs.Worlds.{HasStepped, IsSomeWorld, IsWorldAt, IsWorldOf};

use crate::delivery::Delivery;
use crate::event::{Event, Happened};
use crate::opening::{open_deliveries, open_seats};
use crate::seat::Seat;
use std::alloc::Global;
use yp_base::memory::NoMemory;
use yp_journal::entry::Entry;
use yp_journal::laws::a_journal_goes_on_entry_by_entry;
use yp_journal::receiver::ReceiverInfo;
use yp_journal::state::State;
use yp_promise::interleavings::every_interleaving_serves_each_receiver;
use yp_queue::packet::Packet;
use yp_schema::schema::Schema;
use yp_time::start::Start;
use yp_world::laws::every_list_of_events_keeps_what_holds;

/// A journal with its entries and the state that they leave, the workers that follow it, what is delivered to
/// each receiver, and whether memory ran out.
#[derive(Drop)]
pub struct World {
    pub(crate) entries: Vec<Entry>,
    pub(crate) state: State,
    pub(crate) seats: Vec<Seat>,
    pub(crate) deliveries: Vec<Delivery>,
    pub(crate) spent: bool,
}

impl World {
    /// The world before the first event, with so many workers. The receivers of a number are served by the
    /// worker of its remainder by the number of workers. Numbers of receivers are of 32 bits, so there are
    /// fewer of them than such numbers, and a packet at least may stand in the queue of each.
    pub fn new(
        alloc: Global,
        schema: &Schema,
        start: &Start,
        receivers: &[ReceiverInfo],
        workers: u32,
    ) -> Result<World, NoMemory>
        requires workers { 0 < workers }
        requires few { length receivers.now < 2 ^ 32 }
        requires places { AllByRecursion (λ receiver. 1 ≤ receiver.places) receivers.now }
        ensures opens { IfOk result (IsWorldOf schema.now start.now receivers.now workers [] []) }
        ensures world { IfOk result (IsSomeWorld schema.now) }
        ensures receivers { IfOk result (λ world. world.state.receivers ≡ receivers.now) }
        ensures none { IfOk result (λ world. world.entries.items ≡ []) }
    {
        schema.stands();
        every_list_of_events_keeps_what_holds();
        Ok(World {
            entries: Vec::new(alloc),
            state: State::new(alloc, schema, receivers)?,
            seats: open_seats(alloc, schema, start, receivers, workers)?,
            deliveries: open_deliveries(alloc, receivers)?,
            spent: false,
        })
    }

    /// Goes on by an event, and tells what happened: nothing exactly where the event can't be done. Each
    /// receiver is served then, whatever the events before. After `NoMemory` the world is spent.
    pub fn step(
        &mut self,
        alloc: Global,
        schema: &Schema,
        event: Event,
    ) -> Result<Happened, NoMemory>
        requires world { IsSomeWorld schema.now self.old }
        requires command { MayComeBy schema.now self.old.state.receivers event }
        requires room { HasRoomFor event (length self.old.entries.items) }
        ensures stands { OnOk result ((start : ℕ) (receivers : List Declared) (workers : ℕ) (entries : List EntryThere) (events : List EventThere) → IsWorldOf schema.now start receivers workers entries events self.old
            → IsWorldOf schema.now start receivers workers (entries_after schema.now receivers entries event) (events ++ event_of schema.now receivers entries event ∷ []) self.new) }
        ensures happened { IfOk result (λ happened. (start : ℕ) (receivers : List Declared) (workers : ℕ) (entries : List EntryThere) (events : List EventThere) → IsWorldOf schema.now start receivers workers entries events self.old
            → happened ≡ happened_of schema.now start (replied_to schema.now receivers entries event) (step (setup_of receivers workers) (world_after receivers workers events) (event_of schema.now receivers entries event)).1) }
        ensures serves { OnOk result ((start : ℕ) (receivers : List Declared) (workers : ℕ) (entries : List EntryThere) (events : List EventThere) → IsWorldOf schema.now start receivers workers entries events self.old
            → (receiver : ℕ) → receiver < length receivers → IsServedAfter schema.now receivers workers (entries_after schema.now receivers entries event) (events ++ event_of schema.now receivers entries event ∷ []) receiver) }
        ensures world { OnOk result (IsSomeWorld schema.now self.new) }
        ensures receivers { OnOk result (self.new.state.receivers ≡ self.old.state.receivers) }
        ensures count { OnOk result (length self.new.entries.items ≤ length self.old.entries.items + 1) }
        ensures spent { OnErr result (self.new.spent ≡ true) }
        ensures unspent { OnOk result (self.new.spent ≡ false) }
    {
        every_interleaving_serves_each_receiver();
        a_journal_goes_on_entry_by_entry();
        let happened = self.go_on(alloc, schema, event)?;
        Ok(happened)
    }

    /// Goes on by an event, wherever the world stands.
    fn go_on(&mut self, alloc: Global, schema: &Schema, event: Event) -> Result<Happened, NoMemory>
        requires world { IsSomeWorld schema.now self.old }
        requires command { MayComeBy schema.now self.old.state.receivers event }
        requires room { HasRoomFor event (length self.old.entries.items) }
        ensures stepped { IfOk result (λ happened. (start : ℕ) (receivers : List Declared) (workers : ℕ) (entries : List EntryThere) (world : WorldThere)
            → IsWorldAt schema.now start receivers workers entries world self.old → HasStepped schema.now start receivers workers entries world event happened self.new) }
        ensures spent { OnErr result (self.new.spent ≡ true) }
    {
        match event {
            Event::Append(command) => self.append(alloc, schema, command),
            Event::Absorb(worker) => self.absorb(alloc, schema, worker),
            Event::Offer(worker) => self.offer(alloc, schema, worker),
            Event::Take(receiver) => self.take(alloc, receiver),
        }
    }

    /// The entries of the journal, in order.
    pub fn entries(&self) -> &[Entry]
        ensures { result.now ≡ self.now.entries.items }
    {
        self.entries.as_slice()
    }

    /// The packets that the receiver of a number took, the oldest first; none where there is no such receiver.
    pub fn taken(&self, receiver: u32) -> &[Packet]
        ensures { result.now ≡ taken_by (slice_get self.now.deliveries.items receiver) }
    {
        match self.deliveries.get(receiver as usize) {
            Some(delivery) => delivery.taken(),
            None => &[],
        }
    }

    /// Whether memory ran out in a step. It is the world of no events then, and is to be let go.
    pub fn spent(&self) -> bool
        ensures { result ≡ self.now.spent }
    {
        self.spent
    }
}

//! A receiver takes.
ghost use Rattle.std.specs.Prelude.{◌≡◌, ℕ, List, true, IfOk, OnErr};
ghost use Rattle.yp_schema.specs.declared.schema.SchemaNode.{SchemaNode};
ghost use Rattle.yp_journal.specs.declared.entry.Entry.{Entry as EntryThere};
ghost use Rattle.yp_journal.specs.declared.receiver.ReceiverInfo.{ReceiverInfo as Declared};
ghost use Rattle.yp_world.specs.World.{World as WorldThere};
ghost use Rattle.yp_core.specs.declared.event.Event.TheVariants.{Take};
ghost use Rattle.yp_core.specs.Worlds.{HasStepped, IsWorldAt};

use crate::event::Happened;
use crate::world::World;
use std::alloc::Global;
use yp_base::memory::NoMemory;
use yp_world::laws::{
    every_list_of_events_keeps_what_holds, nothing_happens_where_an_event_cannot_be_done,
};

impl World {
    /// The receiver of a number takes the oldest packet of its queue, where one stands there.
    pub(crate) fn take(&mut self, alloc: Global, receiver: u32) -> Result<Happened, NoMemory>
        ensures stepped { IfOk result (λ happened. (nodes : List SchemaNode) (start : ℕ) (receivers : List Declared) (workers : ℕ) (entries : List EntryThere) (world : WorldThere)
            → IsWorldAt nodes start receivers workers entries world self.old → HasStepped nodes start receivers workers entries world (Take receiver) happened self.new) }
        ensures spent { OnErr result (self.new.spent ≡ true) }
    {
        every_list_of_events_keeps_what_holds();
        nothing_happens_where_an_event_cannot_be_done();
        let number = receiver as usize;
        if number >= self.deliveries.len() {
            return Ok(Happened::Nothing);
        }
        self.spent = true;
        let packet = self.deliveries[number].take(alloc)?;
        self.spent = false;
        match packet {
            Some(packet) => Ok(Happened::Taken(packet)),
            None => Ok(Happened::Nothing),
        }
    }
}

//! What an answer makes of a slot.
ghost use Rattle.std.specs.Prelude.{◌≡◌, ◌≤◌, List, false};
ghost use Rattle.yp_schema.specs.declared.schema.SchemaNode.{SchemaNode};
ghost use Rattle.yp_feed.specs.Machine.{rebases, resyncs};
ghost use Rattle.yp_journal.specs.History.{JournalState};
ghost use Rattle.yp_attempt.specs.Tracks.{Track};
ghost use Rattle.yp_attempt.specs.Workers.{answered_alone};
ghost use Rattle.yp_time.specs.Ticks.{tick_limit};
ghost use Rattle.yp_slot.specs.Classes.{member_of};
ghost use Rattle.yp_slot.specs.Slots.{IsSlotOf};
ghost use Rattle.yp_slot.specs.Steps.{answer_of, gone_on};

use crate::slot::Slot;
use std::alloc::Global;
use yp_base::notice::Trigger;
use yp_feed::feed::Feed;
use yp_feed::item::Item;
use yp_touch::touched::Touched;

/// What the queue of a receiver answered to an item.
#[derive(Debug, Clone, Copy, PartialEq, Eq, Drop)]
pub enum Settled {
    /// It took the item.
    Took,
    /// It is full.
    Full,
}

/// Whether a feed sends all that it selects where its receiver's copy may be wrong.
pub(crate) fn resyncs(trigger: &Trigger) -> bool
    ensures { result ≡ resyncs trigger.now }
{
    match trigger {
        Trigger::Periodic { .. } => true,
        Trigger::OnChange { sync, .. } => *sync,
    }
}

/// Whether the base of a feed moves with an item that is taken.
fn rebases(feed: &Feed, item: Item) -> bool
    ensures { result ≡ rebases feed.now item }
{
    match item {
        Item::Sync => true,
        Item::Changes => true,
        Item::Periodic => true,
        Item::Incomplete => !resyncs(feed.trigger()),
        Item::Resumed => !resyncs(feed.trigger()),
        Item::Started => false,
        Item::Modified => false,
        Item::Suspended => false,
        Item::Terminated => false,
    }
}

impl Slot {
    /// Goes a step on with its feed: where the base moved no place is kept, and what was set aside goes where
    /// it isn't owed any more.
    pub(crate) fn go_on(&mut self, alloc: Global, moved: bool)
        ensures { self.new ≡ gone_on self.old moved }
    {
        if moved {
            self.touched = Touched::new(alloc);
        }
        if !self.feed.frozen() {
            self.frozen = None;
        }
    }

    /// Takes in what the queue answered to the item that was found last, at the position and the tick of that
    /// look. A feed that has told its end is gone after that.
    pub fn settle(&mut self, alloc: Global, item: Item, settled: Settled, n: u64, stamp: u64)
        requires stamp { stamp ≤ tick_limit }
        ensures feed { (track : Track) → self.old.feed ≡ track.feed → self.new.feed ≡ (answered_alone n stamp track item (answer_of settled)).feed }
        ensures slot { (nodes : List SchemaNode) (state : JournalState) (track : Track) → IsSlotOf nodes state self.old track
            → (answered_alone n stamp track item (answer_of settled)).feed.ended ≡ false → IsSlotOf nodes state self.new (answered_alone n stamp track item (answer_of settled)) }
        ensures member { member_of self.new ≡ member_of self.old }
    {
        match settled {
            Settled::Took => {
                let moved = rebases(&self.feed, item);
                self.feed.took(item, n, stamp);
                self.go_on(alloc, moved);
            }
            Settled::Full => {
                self.feed.full(item, stamp);
                self.go_on(alloc, false);
            }
        }
    }
}

//! One feed.
ghost use Rattle.std.specs.Prelude.{◌≡◌, ◌≤◌};
ghost use Rattle.yp_feed.specs.Machine.{after_freeze, controlled, counted, freezes, looked, next_tick, offer_of, refused, restarted, started, taken, with_terms, is_at, owes, HasTerms, IsTrigger};
ghost use Rattle.yp_time.specs.Ticks.{tick_limit};

use crate::item::{Control, FeedTerms, Item};
use crate::owed::Owed;
use crate::trigger::{
    amended, due_from, due_item, is_empty_record, is_on_change, record_tick, resyncs,
};
use std::marker::Model;
use yp_base::notice::Trigger;

/// How many full attempts in a row suspend a feed.
const MOST_TRIES: u8 = 8;

/// How many changed places a feed may have that met a full queue, before they are set aside.
const MOST_ROOTS: u32 = 256;

/// A live subscription for one of its receivers.
#[derive(Drop)]
pub struct Feed {
    sub: u32,
    receiver: u32,
    trigger: Trigger,
    owed: Owed,
    base: u64,
    last_record: Option<u64>,
    tries: u8,
    last_full: Option<u64>,
    suspended: bool,
    due: u64,
    ended: bool,
}

impl Model for Feed {
    ghost use Rattle.yp_feed.specs.Machine.{FeedState, IsFeed};

    ghost Value = { FeedState };

    ghost view = { λ f. record { sub = f.sub; receiver = f.receiver; trigger = f.trigger; owed = f.owed; base = f.base; last_record = f.last_record; tries = f.tries; last_full = f.last_full; suspended = f.suspended; due = f.due; ended = f.ended } };

    ghost invariant = { λ f. IsFeed (record { sub = f.sub; receiver = f.receiver; trigger = f.trigger; owed = f.owed; base = f.base; last_record = f.last_record; tries = f.tries; last_full = f.last_full; suspended = f.suspended; due = f.due; ended = f.ended }) };
}

/// Whether the last full attempt was at this stamp.
fn is_at(last: Option<u64>, stamp: u64) -> bool
    ensures { result ≡ is_at last stamp }
{
    match last {
        None => false,
        Some(tick) => tick == stamp,
    }
}

impl Feed {
    /// The feed of these terms that begins at a position and a tick. One on change with sync-on-start owes
    /// all that it selects, a periodic one is due at the first due tick from this one on, and one that is
    /// configured owes that it began.
    pub fn start(terms: FeedTerms, n: u64, stamp: u64) -> Feed
        requires trigger { IsTrigger terms.trigger }
        requires stamp { stamp ≤ tick_limit }
        ensures { result ≡ started terms n stamp }
    {
        let FeedTerms {
            sub,
            receiver,
            configured,
            trigger,
        } = terms;
        let mut owed = Owed::nothing();
        owed.started = configured;
        owed.sync = is_on_change(&trigger) && resyncs(&trigger);
        Feed {
            sub,
            receiver,
            trigger,
            owed,
            base: n,
            last_record: None,
            tries: 0,
            last_full: None,
            suspended: false,
            due: due_from(&trigger, stamp),
            ended: false,
        }
    }

    /// Drops what was set aside: a feed that resyncs owes all that it selects, and another one counts its
    /// changes from here on.
    fn restart(&mut self, n: u64)
        ensures { self.new ≡ restarted self.old n }
    {
        let again = resyncs(&self.trigger);
        self.owed.incomplete = false;
        self.owed.sync = self.owed.sync || again;
        if !again {
            self.base = n;
        }
    }

    /// Gets other terms.
    fn modify(&mut self, trigger: Trigger, notify: bool, n: u64, stamp: u64)
        requires trigger { IsTrigger trigger }
        requires stamp { stamp ≤ tick_limit }
        ensures { self.new ≡ restarted (with_terms self.old trigger notify stamp) n }
    {
        self.trigger = amended(self.trigger, trigger);
        self.owed.modified = self.owed.modified || notify;
        self.due = due_from(&self.trigger, stamp);
        self.restart(n);
    }

    /// Tells the feed what happened to it at a position and a tick.
    pub fn control(&mut self, control: Control, n: u64, stamp: u64)
        requires terms { HasTerms control }
        requires stamp { stamp ≤ tick_limit }
        ensures { self.new ≡ controlled self.old control n stamp }
    {
        match control {
            Control::Modify { trigger, notify } => self.modify(trigger, notify, n, stamp),
            Control::Resync => self.restart(n),
            Control::Rules => {
                if !self.owed.terminated {
                    self.restart(n);
                }
            }
            Control::End => {
                let started = self.owed.started;
                self.owed = Owed::nothing();
                self.owed.started = started;
                self.owed.terminated = true;
            }
        }
    }

    /// Whether the changes of so many places are to be set aside now: on change, after a full attempt, of
    /// more than 256 places, where nothing is owed that they would come after. The feed then owes them.
    pub fn freeze_now(&mut self, roots: u32) -> bool
        ensures answer { result ≡ freezes self.old roots }
        ensures state { self.new ≡ after_freeze self.old roots }
    {
        let owed = self.owed;
        let holds = is_on_change(&self.trigger)
            && 0 < self.tries
            && MOST_ROOTS < roots
            && !(owed.incomplete || owed.suspended || owed.resumed || owed.sync || owed.terminated);
        if holds {
            self.owed.incomplete = true;
            self.owed.sync = resyncs(&self.trigger);
        }
        holds
    }

    /// What the feed offers at a position and a tick, with changes of so many places, which make so many
    /// edits. It offers nothing where its last full attempt was at this tick. Where its changes are due but
    /// make no edit, since all are of excluded kinds, they are counted anew from here on.
    pub fn want_offer(&mut self, roots: u32, edits: u32, n: u64, stamp: u64) -> Option<Item>
        ensures answer { result ≡ offer_of self.old roots edits stamp }
        ensures state { self.new ≡ looked self.old roots edits n stamp }
    {
        if is_at(self.last_full, stamp) {
            return None;
        }
        if !self.owed.any()
            && is_empty_record(&self.trigger, self.last_record, roots, edits, stamp)
        {
            self.base = n;
            return None;
        }
        let other = due_item(
            &self.trigger,
            self.last_record,
            self.due,
            roots,
            edits,
            stamp,
        );
        self.owed.first(other)
    }

    /// Counts a full attempt at a tick. A periodic update is left out.
    fn count(&mut self, item: Item, stamp: u64)
        requires { stamp ≤ tick_limit }
        ensures { self.new ≡ counted self.old item stamp }
    {
        self.tries = if self.tries < MOST_TRIES {
            self.tries + 1
        } else {
            MOST_TRIES
        };
        self.last_full = Some(stamp);
        if matches!(item, Item::Periodic) {
            self.due = due_from(&self.trigger, stamp + 1);
        }
    }

    /// Says that the item that was offered met a full queue at a tick. The eighth time in a row suspends a
    /// feed that doesn't end.
    pub fn full(&mut self, item: Item, stamp: u64)
        requires { stamp ≤ tick_limit }
        ensures { self.new ≡ refused self.old item stamp }
    {
        self.count(item, stamp);
        if self.tries == MOST_TRIES && !self.suspended && !self.owed.terminated {
            self.owed.incomplete = false;
            self.owed.suspended = true;
            self.owed.resumed = true;
            self.owed.sync = resyncs(&self.trigger);
            self.suspended = true;
        }
    }

    /// Says that the item that was offered was taken at a position and a tick.
    pub fn took(&mut self, item: Item, n: u64, stamp: u64)
        requires { stamp ≤ tick_limit }
        ensures { self.new ≡ taken self.old item n stamp }
    {
        let again = resyncs(&self.trigger);
        self.tries = 0;
        self.ended = false;
        match item {
            Item::Started => self.owed.started = false,
            Item::Modified => self.owed.modified = false,
            Item::Suspended => self.owed.suspended = false,
            Item::Incomplete => {
                self.owed.incomplete = false;
                self.last_record = Some(stamp);
                if !again {
                    self.base = n;
                }
            }
            Item::Resumed => {
                self.owed.resumed = false;
                self.suspended = false;
                if !again {
                    self.base = n;
                }
            }
            Item::Sync => {
                self.owed.sync = false;
                self.base = n;
                self.last_record = Some(stamp);
                self.due = due_from(&self.trigger, stamp + 1);
            }
            Item::Terminated => {
                self.owed.terminated = false;
                self.ended = true;
            }
            Item::Changes => {
                self.base = n;
                self.last_record = Some(stamp);
            }
            Item::Periodic => {
                self.base = n;
                self.due = due_from(&self.trigger, stamp + 1);
            }
        }
    }

    /// The id of its subscription.
    pub fn sub(&self) -> u32
        ensures { result ≡ self.now.sub }
    {
        self.sub
    }

    /// The number of its receiver.
    pub fn receiver(&self) -> u32
        ensures { result ≡ self.now.receiver }
    {
        self.receiver
    }

    /// When it sends. A periodic trigger has its anchor.
    pub fn trigger(&self) -> &Trigger
        ensures { result.now ≡ self.now.trigger }
    {
        &self.trigger
    }

    /// Whether an item is owed.
    pub fn owes(&self) -> bool
        ensures { result ≡ owes self.now.owed }
    {
        self.owed.any()
    }

    /// Whether changes that were set aside are owed.
    pub fn frozen(&self) -> bool
        ensures { result ≡ self.now.owed.incomplete }
    {
        self.owed.incomplete
    }

    /// The first tick at which it can offer what it doesn't owe: of a periodic feed the due tick, and of one
    /// on change the end of its dampening period, or 0 where it has sent no record.
    pub fn due_from(&self) -> u64
        ensures { result ≡ next_tick self.now }
    {
        match self.trigger {
            Trigger::Periodic { .. } => self.due,
            Trigger::OnChange { dampening, .. } => record_tick(self.last_record, dampening),
        }
    }

    /// The position that its changes are counted from.
    pub fn base(&self) -> u64
        ensures { result ≡ self.now.base }
    {
        self.base
    }

    /// Whether it owes all that it selects, so that it tells no changes before that (RFC 8641 section 3.3).
    pub fn awaits_full(&self) -> bool
        ensures { result ≡ self.now.owed.sync }
    {
        self.owed.sync
    }

    /// Whether its end was taken.
    pub fn ended(&self) -> bool
        ensures { result ≡ self.now.ended }
    {
        self.ended
    }
}

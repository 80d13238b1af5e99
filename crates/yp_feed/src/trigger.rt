//! When a trigger lets a feed send.
ghost use Rattle.std.specs.Prelude.{◌≡◌, ◌≤◌, ◌*◌};
ghost use Rattle.yp_feed.specs.Machine.{amended, due_from, due_item, is_empty_record, is_on_change, is_past, record_tick, resyncs, IsStamp, IsTrigger};
ghost use Rattle.yp_time.specs.Ticks.{tick_limit};

use crate::item::Item;
use yp_base::notice::Trigger;
use yp_time::due::next_due;

/// Whether a feed sends all that it selects where its receiver's copy may be wrong.
pub fn resyncs(trigger: &Trigger) -> bool
    ensures { result ≡ resyncs trigger.now }
{
    match trigger {
        Trigger::Periodic { .. } => true,
        Trigger::OnChange { sync, .. } => *sync,
    }
}

/// Whether a feed sends on change.
pub fn is_on_change(trigger: &Trigger) -> bool
    ensures { result ≡ is_on_change trigger.now }
{
    matches!(trigger, Trigger::OnChange { .. })
}

/// The first due tick from a tick on.
pub fn due_from(trigger: &Trigger, tick: u64) -> u64
    requires trigger { IsTrigger trigger.now }
    requires tick { tick ≤ 2 * tick_limit }
    ensures { result ≡ due_from trigger.now tick }
{
    match trigger {
        Trigger::Periodic {
            period,
            anchor: Some(anchor),
        } => next_due(*anchor, *period, tick),
        _ => 0,
    }
}

/// The terms after a modification: a trigger stays of its kind, and of one on change only the dampening
/// period is given anew.
pub fn amended(old: Trigger, new: Trigger) -> Trigger
    ensures { result ≡ amended old new }
{
    match (old, new) {
        (Trigger::OnChange { sync, excluded, .. }, Trigger::OnChange { dampening, .. }) =>
            Trigger::OnChange {
                dampening,
                sync,
                excluded,
            },
        (Trigger::Periodic { .. }, Trigger::Periodic { .. }) => new,
        _ => old,
    }
}

/// Whether a record may be sent: there was none, or its dampening period is over.
pub fn is_past(last: Option<u64>, dampening: u32, stamp: u64) -> bool
    requires { IsStamp last }
    ensures { result ≡ is_past last dampening stamp }
{
    match last {
        None => true,
        Some(tick) => tick + dampening as u64 <= stamp,
    }
}

/// The first tick at which a record may be sent, or 0 where there was none.
pub fn record_tick(last: Option<u64>, dampening: u32) -> u64
    requires { IsStamp last }
    ensures { result ≡ record_tick last dampening }
{
    match last {
        None => 0,
        Some(tick) => tick + dampening as u64,
    }
}

/// What a feed that owes nothing offers.
pub fn due_item(
    trigger: &Trigger,
    last: Option<u64>,
    due: u64,
    roots: u32,
    edits: u32,
    stamp: u64,
) -> Option<Item>
    requires { IsStamp last }
    ensures { result ≡ due_item trigger.now last due roots edits stamp }
{
    match trigger {
        Trigger::Periodic { .. } => {
            if due <= stamp {
                Some(Item::Periodic)
            } else {
                None
            }
        }
        Trigger::OnChange { dampening, .. } => {
            if is_past(last, *dampening, stamp) && 0 < roots && 0 < edits {
                Some(Item::Changes)
            } else {
                None
            }
        }
    }
}

/// Whether a record would be due that has no edit.
pub fn is_empty_record(
    trigger: &Trigger,
    last: Option<u64>,
    roots: u32,
    edits: u32,
    stamp: u64,
) -> bool
    requires { IsStamp last }
    ensures { result ≡ is_empty_record trigger.now last roots edits stamp }
{
    match trigger {
        Trigger::Periodic { .. } => false,
        Trigger::OnChange { dampening, .. } => {
            is_past(last, *dampening, stamp) && 0 < roots && edits == 0
        }
    }
}

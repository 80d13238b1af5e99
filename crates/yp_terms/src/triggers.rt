//! Triggers as they are given and as they are amended.
ghost use Rattle.std.specs.Prelude.{◌≡◌, ◌≤◌};
ghost use Rattle.yp_terms.specs.Amends.{with_dampening, renewed_trigger, amended_trigger};
ghost use Rattle.yp_terms.specs.Terms.{has_period, differ_in_kind, has_sync, with_anchor};
ghost use Rattle.yp_time.specs.Ticks.{tick_limit};

use yp_base::notice::Trigger;

/// The trigger with its anchor, which is the present tick where none is given (RFC 8641 section 4.2). One on
/// change has none.
pub fn with_anchor(now: u64, trigger: Trigger) -> Trigger
    requires { now ≤ tick_limit }
    ensures { result ≡ with_anchor now trigger }
{
    match trigger {
        Trigger::Periodic { period, anchor } => Trigger::Periodic {
            period,
            anchor: Some(anchor.unwrap_or(now as i64)),
        },
        on_change => on_change,
    }
}

fn has_period(trigger: &Trigger) -> bool
    ensures { result ≡ has_period trigger.now }
{
    match trigger {
        Trigger::Periodic { .. } => true,
        Trigger::OnChange { .. } => false,
    }
}

/// Whether one of two triggers is periodic and the other on change.
pub(crate) fn differ_in_kind(one: &Trigger, other: &Trigger) -> bool
    ensures { result ≡ differ_in_kind one.now other.now }
{
    match one {
        Trigger::Periodic { .. } => !has_period(other),
        Trigger::OnChange { .. } => has_period(other),
    }
}

/// Whether a trigger is on change with a full update at first (sync-on-start of RFC 8641 section 3.1).
pub fn has_sync(trigger: &Trigger) -> bool
    ensures { result ≡ has_sync trigger.now }
{
    match trigger {
        Trigger::Periodic { .. } => false,
        Trigger::OnChange { sync, .. } => *sync,
    }
}

/// On change, another dampening period alone.
fn with_dampening(dampening: u32, trigger: Trigger) -> Trigger
    ensures { result ≡ with_dampening dampening trigger }
{
    match trigger {
        Trigger::OnChange { sync, excluded, .. } => Trigger::OnChange {
            dampening,
            sync,
            excluded,
        },
        periodic => periodic,
    }
}

/// A trigger by one that is given at this tick, which stays of its kind.
fn renewed_trigger(now: u64, given: Trigger, kept: Trigger) -> Trigger
    requires { now ≤ tick_limit }
    ensures { result ≡ renewed_trigger now given kept }
{
    match given {
        Trigger::Periodic { .. } => {
            if has_period(&kept) {
                with_anchor(now, given)
            } else {
                kept
            }
        }
        Trigger::OnChange { dampening, .. } => with_dampening(dampening, kept),
    }
}

/// A trigger that stays as it is where none is given.
pub(crate) fn amended_trigger(now: u64, given: Option<Trigger>, kept: Trigger) -> Trigger
    requires { now ≤ tick_limit }
    ensures { result ≡ amended_trigger now given kept }
{
    match given {
        Some(given) => renewed_trigger(now, given, kept),
        None => kept,
    }
}

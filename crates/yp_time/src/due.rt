//! When a periodic subscription is due (RFC 8641 section 4.2).
ghost use Rattle.std.specs.Prelude.{◌≡◌, ℕ, ◌+◌, ◌*◌, ◌<◌, ◌≤◌};
ghost use Rattle.yp_time.specs.Due.{IsDue, next_due_of};
ghost use Rattle.yp_time.specs.Ticks.{IsAnchor, tick_limit};

/// The first tick, from `from` on, that is a whole number of periods from the anchor. Multiples before
/// the anchor count. All are in ticks.
#[tactic(auto, unfolding(crate::specs::Due::next_due_of))]
pub fn next_due(anchor: i64, period: u32, from: u64) -> u64
    requires anchor_in { IsAnchor anchor }
    requires period_in { 10 ≤ period }
    requires from_in { from ≤ 2 * tick_limit }
    ensures due { IsDue anchor period result }
    ensures not_before { from ≤ result }
    ensures first { (tick : ℕ) → from ≤ tick → IsDue anchor period tick → result ≤ tick }
    ensures within { result < from + period }
    ensures value { result ≡ next_due_of anchor period from }
{
    let ahead = (anchor - from as i64).rem_euclid(period as i64);
    from + ahead as u64
}

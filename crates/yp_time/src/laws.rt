//! Laws of due ticks; nothing runs.
ghost use Rattle.std.specs.Prelude.{ℕ, ℤ, ◌<◌, ◌≤◌};
ghost use Rattle.yp_time.specs.Due.{IsDue, next_due_of};

/// The next due tick of a period is due, and is the first one from the tick that it is looked for from.
#[tactic(auto, using(crate::specs::DueLaws::due_is, crate::specs::DueLaws::not_before, crate::specs::DueLaws::first_due))]
pub fn the_next_due_tick_is_the_first()
    ensures due { (anchor : ℤ) (period from : ℕ) → 0 < period → IsDue anchor period (next_due_of anchor period from) }
    ensures not_before { (anchor : ℤ) (period from : ℕ) → from ≤ next_due_of anchor period from }
    ensures first { (anchor : ℤ) (period from tick : ℕ) → 0 < period → from ≤ tick → IsDue anchor period tick
        → next_due_of anchor period from ≤ tick }
{}

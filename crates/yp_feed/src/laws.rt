//! Laws of the machine; nothing runs.
ghost use Rattle.std.specs.Prelude.{◌≡◌, ◌<◌, ℕ, true, false, Some, ◌||◌};
ghost use Rattle.yp_feed.specs.declared.item.Item.{Item};
ghost use Rattle.yp_feed.specs.Machine.{FeedState, freezes, offer_of, refused, taken};
ghost use Rattle.yp_feed.specs.MachineLaws.{IsUnread, SuspendsAtEight, unread, frozen_after_full, suspended_at_eight, taken_again};

/// Where all that is selected or the end is owed, the numbers of changed places and of edits are not read.
#[tactic(auto, using(crate::specs::MachineLaws::unread))]
pub fn numbers_are_not_read_before_a_full_update()
    ensures { (f : FeedState) (stamp roots edits other_roots other_edits : ℕ) → (f.owed.sync || f.owed.terminated) ≡ true
        → IsUnread f stamp roots edits other_roots other_edits }
{}

/// Changes are set aside only after a full attempt, where more than 256 places changed.
#[tactic(auto, using(crate::specs::MachineLaws::frozen_after_full))]
pub fn changes_are_set_aside_after_a_full_attempt()
    ensures { (f : FeedState) (roots : ℕ) → freezes f roots ≡ true → (0 < f.tries) × (256 < roots) }
{}

/// A full queue suspends a feed that isn't suspended and doesn't end exactly at the eighth attempt in a row;
/// an item that is taken ends the row, and suspends no feed.
#[tactic(auto, using(crate::specs::MachineLaws::suspended_at_eight, crate::specs::MachineLaws::taken_again))]
pub fn eight_full_attempts_suspend()
    ensures full { (f : FeedState) (item : Item) (stamp : ℕ) → f.suspended ≡ false → f.owed.terminated ≡ false → SuspendsAtEight f item stamp }
    ensures taken { (f : FeedState) (item : Item) (n stamp : ℕ) → ((taken f item n stamp).tries ≡ 0) × ((taken f item n stamp).suspended ≡ true → f.suspended ≡ true) }
{}

/// A feed offers nothing more at the stamp of its last full attempt.
pub fn a_full_queue_is_tried_once_a_stamp()
    ensures { (f : FeedState) (item : Item) (roots edits stamp : ℕ) → offer_of (refused f item stamp) roots edits stamp ≡ None }
{}

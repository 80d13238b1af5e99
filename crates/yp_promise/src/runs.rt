//! Laws of the runs of a receiver over legal journals, whatever its queue answers; nothing runs.
ghost use Rattle.std.specs.Prelude.{◌≡◌, ℕ, ◌++◌, List, [], ◌∷◌};
ghost use Rattle.yp_schema.specs.declared.schema.SchemaNode.{SchemaNode};
ghost use Rattle.yp_schema.specs.WellFormed.{IsSchema};
ghost use Rattle.yp_journal.specs.declared.entry.Entry.{Entry};
ghost use Rattle.yp_journal.specs.declared.receiver.ReceiverInfo.{ReceiverInfo};
ghost use Rattle.yp_journal.specs.History.{first_state, IsLegal};
ghost use Rattle.yp_attempt.specs.Attempts.{Notification, answers_in, taken_of};
ghost use Rattle.yp_attempt.specs.Runs.{Reaches, Run};
ghost use Rattle.yp_moment.specs.Entries.{moments_of};
ghost use Rattle.yp_moment.specs.Windows.{recorded};
ghost use Rattle.yp_promise.specs.Promise.{Serves};
ghost use Rattle.yp_promise.specs.Received.{CanBeShown, received};

use yp_attempt::laws::what_is_reached_is_what_replaying_gives;
use yp_journal::laws::a_journal_keeps_a_datastore;
use yp_mirror::laws::{
    a_copy_begins_with_a_full_update, a_receivers_copy_is_fresh_after_each_update,
    every_attempt_is_of_a_subscription_that_lives, every_attempt_tells_of_what_was_selected,
    full_answers_come_at_rising_stamps, incomplete_updates_follow_full_queues,
    only_full_queues_suspend, positions_never_fall,
    the_next_resynchronisation_carries_its_own_positions_selection,
};
use yp_moment::acts::what_has_a_receiver_is_live_until_it_ends;
use yp_moment::laws::{
    a_legal_journal_tells_what_is_selected, attempts_name_nothing_unreadable,
    what_a_legal_journal_makes_is_a_run_of_its_story,
};

/// A run of a receiver over a legal journal serves the receiver, with whatever answers of its queue, and
/// whatever it took first of what was accepted: all that is promised holds of what was offered to it and of
/// what it took (`serves`). And what it holds by what it took can be written (`shown`).
pub fn every_run_of_a_receiver_serves_it()
    ensures serves { (nodes : List SchemaNode) (receivers : List ReceiverInfo) (entries : List Entry) (receiver : ℕ) (run : Run)
        → IsSchema nodes → IsLegal nodes (first_state receivers) entries → Reaches recorded (receiver ∷ []) (moments_of nodes receivers entries) (answers_in run.done) run
        → (got waiting : List Notification) → taken_of run.done ≡ got ++ waiting → Serves nodes receivers entries receiver run.done got }
    ensures shown { (nodes : List SchemaNode) (receivers : List ReceiverInfo) (entries : List Entry) (receiver : ℕ) (run : Run)
        → IsSchema nodes → IsLegal nodes (first_state receivers) entries → Reaches recorded (receiver ∷ []) (moments_of nodes receivers entries) (answers_in run.done) run
        → (got waiting : List Notification) → taken_of run.done ≡ got ++ waiting → CanBeShown nodes (received [] got) }
{
    what_is_reached_is_what_replaying_gives();
    what_a_legal_journal_makes_is_a_run_of_its_story();
    a_legal_journal_tells_what_is_selected();
    a_journal_keeps_a_datastore();
    every_attempt_tells_of_what_was_selected();
    every_attempt_is_of_a_subscription_that_lives();
    what_has_a_receiver_is_live_until_it_ends();
    a_receivers_copy_is_fresh_after_each_update();
    a_copy_begins_with_a_full_update();
    positions_never_fall();
    attempts_name_nothing_unreadable();
    only_full_queues_suspend();
    full_answers_come_at_rising_stamps();
    incomplete_updates_follow_full_queues();
    the_next_resynchronisation_carries_its_own_positions_selection();
}

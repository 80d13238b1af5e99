//! Laws of what the lines for a receiver tell; nothing runs.
ghost use Rattle.std.specs.Prelude.{◌≡◌, ◌<◌, ◌≤◌, ◌++◌, ℕ, List, [], ◌∷◌, length, map};
ghost use Rattle.std.specs.List.{AllByRecursion};
ghost use Rattle.serde_json.specs.Data.{object, depth};
ghost use Rattle.yp_base.specs.declared.notice.Notice.{Notice};
ghost use Rattle.yp_schema.specs.declared.schema.SchemaNode.{SchemaNode};
ghost use Rattle.yp_schema.specs.WellFormed.{IsSchema};
ghost use Rattle.yp_time.specs.Instants.{IsStart};
ghost use Rattle.yp_encode.specs.Lines.{body_of};
ghost use Rattle.yp_encode.specs.Sendable.{IsSendable};
ghost use Rattle.yp_journal.specs.declared.entry.Entry.{Entry};
ghost use Rattle.yp_journal.specs.declared.receiver.ReceiverInfo.{ReceiverInfo};
ghost use Rattle.yp_attempt.specs.Attempts.{Notification, taken_of};
ghost use Rattle.yp_attempt.specs.Runs.{Reaches, Run};
ghost use Rattle.yp_attempt.specs.Tracks.{Answer};
ghost use Rattle.yp_moment.specs.Entries.{moments_of};
ghost use Rattle.yp_moment.specs.Windows.{recorded};
ghost use Rattle.yp_promise.specs.Promise.{Mirrors};
ghost use Rattle.yp_promise.specs.Received.{CanBeShown, received};
ghost use Rattle.yp_promise.specs.Serving.{run_of};
ghost use Rattle.yp_promise.specs.Shown.{got_by, offered_to};
ghost use Rattle.yp_receiver.specs.Hearable.{IsTold};
ghost use Rattle.yp_receiver.specs.Held.{lines_heard};
ghost use Rattle.yp_hearing.specs.Hearing.{CanBeTold, IsHeardAsMade, LinesMirror, line_for, told_of};
ghost use Rattle.yp_hearing.specs.Interleaving.{EachInterleavingIsHeard};
ghost use Rattle.yp_hearing.specs.Windows.{WindowsAreHeard};

use yp_attempt::laws::{the_first_offer_is_found, what_is_reached_is_what_replaying_gives};
use yp_journal::laws::a_journal_keeps_a_datastore;
use yp_mirror::laws::every_attempt_tells_of_what_was_selected;
use yp_moment::acts::what_feeds_are_handed_can_be_followed;
use yp_moment::laws::what_a_legal_journal_makes_is_a_run_of_its_story;
use yp_promise::interleavings::every_interleaving_serves_each_receiver;
use yp_promise::laws::{
    a_receivers_part_of_a_serial_run_is_its_own_run, what_a_serial_run_makes_serves,
    what_receivers_hold_can_be_shown,
};
use yp_receiver::laws::{a_written_line_is_heard, lines_tell_their_notices};
use yp_texts::laws::a_journal_keeps_texts;
use yp_touch::laws::a_datastore_is_whole;

/// The JSON of what can be sent nests at most 125 deep below the envelope: a path of a schema has at most 16
/// segments, and each nests three deep at most.
#[tactic(auto, using(crate::proofs::Depth::sent_shallow))]
pub fn what_can_be_sent_is_shallow()
    ensures { (nodes : List SchemaNode) (notice : Notice) → IsSchema nodes → IsSendable nodes notice → depth (object (body_of nodes notice)) ≤ 125 }
{}

/// Each edit of the record of a window of datastores with UTF-8 texts is heard again.
pub fn the_record_of_a_window_is_heard()
    ensures { WindowsAreHeard }
{
    a_datastore_is_whole();
}

/// Each notification that the queue of a receiver accepts is told at its tick, by whatever run of the receiver
/// over a journal that can be told: its line is heard as the notification.
pub fn what_a_receiver_is_sent_is_told()
    ensures { (nodes : List SchemaNode) (receivers : List ReceiverInfo) (entries : List Entry) (receiver : ℕ) (answers : List Answer) (run : Run)
        → CanBeTold nodes receivers entries → Reaches recorded (receiver ∷ []) (moments_of nodes receivers entries) answers run
        → AllByRecursion (IsTold nodes) (map told_of (taken_of run.done)) }
{
    what_is_reached_is_what_replaying_gives();
    what_a_legal_journal_makes_is_a_run_of_its_story();
    the_first_offer_is_found();
    what_feeds_are_handed_can_be_followed();
    every_attempt_tells_of_what_was_selected();
    a_journal_keeps_a_datastore();
    a_journal_keeps_texts();
    a_datastore_is_whole();
    the_record_of_a_window_is_heard();
}

/// So by each run of a receiver the line of each notification that it took is heard as just this notification,
/// of whatever subscription, at its event time (`heard`). A receiver that makes its trees from the bytes of its
/// lines alone holds what the notifications leave (`holds`); and where these mirror, so do the trees of the
/// lines (`mirrors`).
pub fn every_run_of_a_receiver_is_heard()
    ensures heard { (nodes : List SchemaNode) (receivers : List ReceiverInfo) (entries : List Entry) (receiver : ℕ) (answers : List Answer) (run : Run) (start : ℕ)
        → CanBeTold nodes receivers entries → Reaches recorded (receiver ∷ []) (moments_of nodes receivers entries) answers run → IsStart start
        → (got waiting : List Notification) → taken_of run.done ≡ got ++ waiting → AllByRecursion (IsHeardAsMade nodes start) got }
    ensures holds { (nodes : List SchemaNode) (receivers : List ReceiverInfo) (entries : List Entry) (receiver : ℕ) (answers : List Answer) (run : Run) (start : ℕ)
        → CanBeTold nodes receivers entries → Reaches recorded (receiver ∷ []) (moments_of nodes receivers entries) answers run → IsStart start
        → (got waiting : List Notification) → taken_of run.done ≡ got ++ waiting → lines_heard nodes [] (map (line_for nodes start) got) ≡ received [] got }
    ensures mirrors { (nodes : List SchemaNode) (receivers : List ReceiverInfo) (entries : List Entry) (receiver : ℕ) (answers : List Answer) (run : Run) (start : ℕ)
        → CanBeTold nodes receivers entries → Reaches recorded (receiver ∷ []) (moments_of nodes receivers entries) answers run → IsStart start
        → (got waiting : List Notification) → taken_of run.done ≡ got ++ waiting → Mirrors nodes receivers entries receiver got → LinesMirror nodes receivers entries receiver start got }
{
    what_a_receiver_is_sent_is_told();
    a_written_line_is_heard();
    lines_tell_their_notices();
}

/// The line of each notification that a receiver took of the serial run is heard as this notification, of
/// whatever subscription, at its event time.
pub fn each_line_is_heard_as_its_notification()
    ensures { (nodes : List SchemaNode) (receivers : List ReceiverInfo) (entries : List Entry) (receiver start : ℕ)
        → CanBeTold nodes receivers entries → receiver < length receivers → IsStart start
        → AllByRecursion (IsHeardAsMade nodes start) (got_by receiver (run_of nodes receivers entries)) }
{
    a_receivers_part_of_a_serial_run_is_its_own_run();
    every_run_of_a_receiver_is_heard();
}

/// So a receiver that makes its trees from the bytes of its lines alone holds what the notifications leave
/// that it took: of all that it took, and of the first so many that its queue accepted.
pub fn a_receiver_holds_what_its_lines_tell()
    ensures took { (nodes : List SchemaNode) (receivers : List ReceiverInfo) (entries : List Entry) (receiver start : ℕ)
        → CanBeTold nodes receivers entries → receiver < length receivers → IsStart start
        → lines_heard nodes [] (map (line_for nodes start) (got_by receiver (run_of nodes receivers entries))) ≡ received [] (got_by receiver (run_of nodes receivers entries)) }
    ensures first { (nodes : List SchemaNode) (receivers : List ReceiverInfo) (entries : List Entry) (receiver start : ℕ)
        → CanBeTold nodes receivers entries → receiver < length receivers → IsStart start
        → (got later : List Notification) → taken_of (offered_to receiver (run_of nodes receivers entries)) ≡ got ++ later
        → lines_heard nodes [] (map (line_for nodes start) got) ≡ received [] got }
{
    a_receivers_part_of_a_serial_run_is_its_own_run();
    every_run_of_a_receiver_is_heard();
}

/// And so after the line of each update of a mirrored subscription the tree that is made of the bytes of the
/// lines so far is what the subscription's filter selects at the update's position. What is held after all
/// lines can be written.
pub fn the_trees_of_lines_mirror()
    ensures mirrors { (nodes : List SchemaNode) (receivers : List ReceiverInfo) (entries : List Entry) (receiver start : ℕ)
        → CanBeTold nodes receivers entries → receiver < length receivers → IsStart start
        → LinesMirror nodes receivers entries receiver start (got_by receiver (run_of nodes receivers entries)) }
    ensures shown { (nodes : List SchemaNode) (receivers : List ReceiverInfo) (entries : List Entry) (receiver start : ℕ)
        → CanBeTold nodes receivers entries → receiver < length receivers → IsStart start
        → CanBeShown nodes (lines_heard nodes [] (map (line_for nodes start) (got_by receiver (run_of nodes receivers entries)))) }
{
    a_receivers_part_of_a_serial_run_is_its_own_run();
    every_run_of_a_receiver_is_heard();
    a_receiver_holds_what_its_lines_tell();
    what_a_serial_run_makes_serves();
    what_receivers_hold_can_be_shown();
}

/// The lines tell however writers, workers and receivers interleave over a journal that can be told: each line
/// that a receiver took is heard as just the notification that was made, and the trees of the lines' bytes
/// mirror.
pub fn every_interleaving_is_heard()
    ensures { (nodes : List SchemaNode) (receivers : List ReceiverInfo) (entries : List Entry) (start : ℕ)
        → CanBeTold nodes receivers entries → IsStart start → EachInterleavingIsHeard nodes receivers entries start }
{
    every_interleaving_serves_each_receiver();
    every_run_of_a_receiver_is_heard();
}

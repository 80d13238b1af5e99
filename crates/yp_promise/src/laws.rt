//! Laws of the serial runs of legal journals; nothing runs.
ghost use Rattle.std.specs.Prelude.{◌≡◌, ℕ, ◌<◌, ◌≤◌, ◌*◌, ◌++◌, List, [], ◌∷◌, length, Some, None};
ghost use Rattle.yp_schema.specs.declared.schema.SchemaNode.{SchemaNode};
ghost use Rattle.yp_schema.specs.WellFormed.{IsSchema};
ghost use Rattle.yp_journal.specs.declared.entry.Entry.{Entry};
ghost use Rattle.yp_journal.specs.declared.receiver.ReceiverInfo.{ReceiverInfo};
ghost use Rattle.yp_journal.specs.History.{first_state, IsLegal};
ghost use Rattle.yp_attempt.specs.Attempts.{answers_in, own_run, replay};
ghost use Rattle.yp_attempt.specs.Runs.{Found, Reaches, first_run, waits};
ghost use Rattle.yp_mirror.specs.Links.{IsRunOf};
ghost use Rattle.yp_mirror.specs.Stories.{story_of};
ghost use Rattle.yp_moment.specs.Entries.{moments_of};
ghost use Rattle.yp_moment.specs.Windows.{recorded};
ghost use Rattle.yp_serial.specs.Serial.{Served, all_offered, first_served, served_settled};
ghost use Rattle.yp_serial.specs.Weights.{weights};
ghost use Rattle.yp_promise.specs.Promise.{Serves};
ghost use Rattle.yp_promise.specs.Received.{CanBeShown, received};
ghost use Rattle.yp_promise.specs.Serving.{IsComplete, IsServing, queueing_of, run_entered, run_of};
ghost use Rattle.yp_promise.specs.Shown.{got_by, offered_to};

use crate::runs::every_run_of_a_receiver_serves_it;
use yp_attempt::laws::{
    a_receivers_part_of_a_run_is_its_own_run, the_first_offer_is_found,
    what_is_reached_is_what_replaying_gives,
};
use yp_moment::acts::what_feeds_are_handed_can_be_followed;
use yp_moment::laws::{
    entries_of_a_legal_journal_may_follow, one_entry_more_is_one_moment_more,
    what_a_legal_journal_makes_is_a_run_of_its_story, what_feeds_know_of_selections_is_lawful,
};
use yp_serial::laws::{
    a_serial_run_is_a_run, a_serial_run_offers_until_nothing_is_offered,
    an_anchored_trigger_has_due_ticks, due_ticks_stay, each_answer_leaves_fewer_offers,
};
use yp_world::laws::a_receiver_is_one_of_those_of_its_worker;

/// The serial run of a journal begins where nothing was taken and nothing offered. By one entry more receivers
/// take what they take by it, the worker takes the entry, and offers come until nothing is offered.
pub fn a_serial_run_goes_on_entry_by_entry()
    ensures none { (nodes : List SchemaNode) (receivers : List ReceiverInfo) → run_of nodes receivers [] ≡ first_served }
    ensures more { (nodes : List SchemaNode) (receivers : List ReceiverInfo) (entries : List Entry) (entry : Entry)
        → run_of nodes receivers (entries ++ entry ∷ []) ≡ all_offered recorded (queueing_of receivers) (run_entered nodes receivers entries entry) }
{
    a_serial_run_is_a_run();
    one_entry_more_is_one_moment_more();
}

/// After an entry of a legal journal its serial run goes on offer by offer: each answer leaves fewer offers
/// that may come, of which there are at most fifteen for each feed, and where nothing is offered any more it
/// is the run of the journal.
pub fn a_serial_run_goes_on_offer_by_offer()
    ensures none { (nodes : List SchemaNode) (receivers : List ReceiverInfo) → IsServing nodes receivers [] first_served }
    ensures enters { (nodes : List SchemaNode) (receivers : List ReceiverInfo) (entries : List Entry) (entry : Entry)
        → IsSchema nodes → IsLegal nodes (first_state receivers) (entries ++ entry ∷ []) → IsServing nodes receivers (entries ++ entry ∷ []) (run_entered nodes receivers entries entry) }
    ensures settles { (nodes : List SchemaNode) (receivers : List ReceiverInfo) (entries : List Entry) (served : Served) (found : Found)
        → IsServing nodes receivers entries served → waits recorded served.run ≡ Some found → IsServing nodes receivers entries (served_settled recorded (queueing_of receivers) found served) }
    ensures fewer { (nodes : List SchemaNode) (receivers : List ReceiverInfo) (entries : List Entry) (served : Served) (found : Found)
        → IsServing nodes receivers entries served → waits recorded served.run ≡ Some found
        → weights recorded served.run.standing.stamp (served_settled recorded (queueing_of receivers) found served).run.standing.tracks < weights recorded served.run.standing.stamp served.run.standing.tracks }
    ensures stamp { (receivers : List ReceiverInfo) (served : Served) (found : Found) → (served_settled recorded (queueing_of receivers) found served).run.standing.stamp ≡ served.run.standing.stamp }
    ensures most { (served : Served) → weights recorded served.run.standing.stamp served.run.standing.tracks ≤ 15 * length served.run.standing.tracks }
    ensures ends { (nodes : List SchemaNode) (receivers : List ReceiverInfo) (entries : List Entry) (served : Served)
        → IsServing nodes receivers entries served → waits recorded served.run ≡ None → served ≡ run_of nodes receivers entries }
{
    what_feeds_know_of_selections_is_lawful();
    the_first_offer_is_found();
    one_entry_more_is_one_moment_more();
    entries_of_a_legal_journal_may_follow();
    what_feeds_are_handed_can_be_followed();
    an_anchored_trigger_has_due_ticks();
    due_ticks_stay();
    a_serial_run_is_a_run();
    a_serial_run_offers_until_nothing_is_offered();
    each_answer_leaves_fewer_offers();
    a_serial_run_goes_on_entry_by_entry();
}

/// The serial run of a legal journal is complete: it goes over all entries, and at its end nothing is offered.
pub fn a_serial_run_is_complete()
    ensures { (nodes : List SchemaNode) (receivers : List ReceiverInfo) (entries : List Entry)
        → IsSchema nodes → IsLegal nodes (first_state receivers) entries → IsComplete nodes receivers entries (run_of nodes receivers entries) }
{
    what_feeds_know_of_selections_is_lawful();
    entries_of_a_legal_journal_may_follow();
    what_feeds_are_handed_can_be_followed();
    an_anchored_trigger_has_due_ticks();
    a_serial_run_is_a_run();
    what_is_reached_is_what_replaying_gives();
}

/// A receiver's part of the serial run of a legal journal is what the receiver's own answers lead to, and so a
/// run of the receiver over the journal's story. The laws below rest on it.
pub fn a_receivers_part_of_a_serial_run_is_its_own_run()
    ensures replays { (nodes : List SchemaNode) (receivers : List ReceiverInfo) (entries : List Entry) (receiver : ℕ)
        → IsSchema nodes → IsLegal nodes (first_state receivers) entries → receiver < length receivers
        → (replay recorded (receiver ∷ []) first_run (moments_of nodes receivers entries) (answers_in (offered_to receiver (run_of nodes receivers entries)))).run
        ≡ own_run receiver (run_of nodes receivers entries).run }
    ensures runs { (nodes : List SchemaNode) (receivers : List ReceiverInfo) (entries : List Entry) (receiver : ℕ)
        → IsSchema nodes → IsLegal nodes (first_state receivers) entries → receiver < length receivers
        → IsRunOf recorded (story_of (moments_of nodes receivers entries) receiver) receiver (own_run receiver (run_of nodes receivers entries).run) }
    ensures reaches { (nodes : List SchemaNode) (receivers : List ReceiverInfo) (entries : List Entry) (receiver : ℕ)
        → IsSchema nodes → IsLegal nodes (first_state receivers) entries → receiver < length receivers
        → Reaches recorded (receiver ∷ []) (moments_of nodes receivers entries) (answers_in (offered_to receiver (run_of nodes receivers entries))) (own_run receiver (run_of nodes receivers entries).run) }
{
    what_feeds_know_of_selections_is_lawful();
    entries_of_a_legal_journal_may_follow();
    what_feeds_are_handed_can_be_followed();
    an_anchored_trigger_has_due_ticks();
    a_serial_run_is_a_run();
    a_receiver_is_one_of_those_of_its_worker();
    a_receivers_part_of_a_run_is_its_own_run();
    what_is_reached_is_what_replaying_gives();
    what_a_legal_journal_makes_is_a_run_of_its_story();
}

/// What a legal journal makes for a receiver by its serial run serves the receiver: all that is promised holds
/// of what was offered to it and of what it took.
pub fn what_a_serial_run_makes_serves()
    ensures { (nodes : List SchemaNode) (receivers : List ReceiverInfo) (entries : List Entry) (receiver : ℕ)
        → IsSchema nodes → IsLegal nodes (first_state receivers) entries → receiver < length receivers
        → Serves nodes receivers entries receiver (offered_to receiver (run_of nodes receivers entries)) (got_by receiver (run_of nodes receivers entries)) }
{
    a_receivers_part_of_a_serial_run_is_its_own_run();
    every_run_of_a_receiver_serves_it();
}

/// What a receiver holds by what it took can be written, also where a copy isn't mirrored.
pub fn what_receivers_hold_can_be_shown()
    ensures { (nodes : List SchemaNode) (receivers : List ReceiverInfo) (entries : List Entry) (receiver : ℕ)
        → IsSchema nodes → IsLegal nodes (first_state receivers) entries → receiver < length receivers
        → CanBeShown nodes (received [] (got_by receiver (run_of nodes receivers entries))) }
{
    a_receivers_part_of_a_serial_run_is_its_own_run();
    every_run_of_a_receiver_serves_it();
}

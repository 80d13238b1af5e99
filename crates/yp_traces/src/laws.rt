//! Laws of traces; nothing runs.
ghost use Rattle.std.specs.Prelude.{◌≡◌, ℕ, ◌<◌, ◌≤◌, List, [], length, Some};
ghost use Rattle.std.specs.List.{AllByRecursion, slice_get};
ghost use Rattle.yp_schema.specs.declared.schema.SchemaNode.{SchemaNode};
ghost use Rattle.yp_schema.specs.WellFormed.{IsSchema};
ghost use Rattle.yp_journal.specs.declared.entry.Entry.{Entry};
ghost use Rattle.yp_journal.specs.declared.receiver.ReceiverInfo.{ReceiverInfo};
ghost use Rattle.yp_journal.specs.History.{first_state, IsLegal};
ghost use Rattle.yp_attempt.specs.Moments.{AllMayFollow, Moment};
ghost use Rattle.yp_attempt.specs.Runs.{Run};
ghost use Rattle.yp_moment.specs.Entries.{moments_of};
ghost use Rattle.yp_world.specs.World.{Setup};
ghost use Rattle.yp_promise.specs.Interleaving.{setup_of};
ghost use Rattle.yp_traces.specs.Traces.{AreServedBeside, HasTrace, IsWorkOf};

use yp_attempt::laws::{
    a_receivers_part_of_a_run_is_its_own_run, the_first_offer_is_found,
    what_is_reached_is_what_replaying_gives,
};
use yp_moment::laws::entries_of_a_legal_journal_may_follow;
use yp_promise::interleavings::every_interleaving_serves_each_receiver;
use yp_world::laws::{
    a_receiver_is_one_of_those_of_its_worker, every_list_of_events_keeps_what_holds,
};

/// What workers did over a whole legal journal is a list of events, where each queue has a place or more, and was full
/// only after as many notifications were accepted as it has places. The events come to a world in which each worker
/// stands where its run does, each queue gave the answers that it gave, and each receiver took all that was accepted.
pub fn what_workers_did_is_a_list_of_events()
    ensures { (setup : Setup) → AllByRecursion (λ places. 1 ≤ places) setup.places → (journal : List Moment) → AllMayFollow [] journal → (runs : List Run) → length runs ≡ setup.workers
        → ((worker : ℕ) (run : Run) → slice_get runs worker ≡ Some run → IsWorkOf setup journal worker run) → HasTrace setup journal runs }
{
    the_first_offer_is_found();
    every_list_of_events_keeps_what_holds();
}

/// Workers that followed a legal journal of a schema to its end beside each other have served each receiver, provided that
/// each queue was full only after as many notifications were accepted as it has places. After each update of a mirrored
/// subscription its receiver holds fresh selection under filter and access control at the update's journal position, and all
/// else holds that is promised of every interleaving.
pub fn workers_beside_each_other_serve_each_receiver()
    ensures { (nodes : List SchemaNode) (receivers : List ReceiverInfo) (entries : List Entry) → IsSchema nodes → IsLegal nodes (first_state receivers) entries → AllByRecursion (λ receiver. 1 ≤ receiver.places) receivers
        → (runs : List Run) → 0 < length runs → ((worker : ℕ) (run : Run) → slice_get runs worker ≡ Some run → IsWorkOf (setup_of receivers (length runs)) (moments_of nodes receivers entries) worker run)
        → AreServedBeside nodes receivers entries runs }
{
    what_workers_did_is_a_list_of_events();
    entries_of_a_legal_journal_may_follow();
    every_interleaving_serves_each_receiver();
    a_receiver_is_one_of_those_of_its_worker();
    a_receivers_part_of_a_run_is_its_own_run();
    what_is_reached_is_what_replaying_gives();
}

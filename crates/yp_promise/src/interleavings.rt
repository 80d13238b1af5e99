//! Laws of legal journals that many workers follow; nothing runs.
ghost use Rattle.std.specs.Prelude.{List};
ghost use Rattle.yp_schema.specs.declared.schema.SchemaNode.{SchemaNode};
ghost use Rattle.yp_schema.specs.WellFormed.{IsSchema};
ghost use Rattle.yp_journal.specs.declared.entry.Entry.{Entry};
ghost use Rattle.yp_journal.specs.declared.receiver.ReceiverInfo.{ReceiverInfo};
ghost use Rattle.yp_journal.specs.History.{first_state, IsLegal};
ghost use Rattle.yp_promise.specs.Interleaving.{EachInterleavingServes, OneIsTheSerialRun};

use crate::runs::every_run_of_a_receiver_serves_it;
use yp_moment::acts::what_feeds_are_handed_can_be_followed;
use yp_moment::laws::{
    entries_of_a_legal_journal_may_follow, records_lead_from_selection_to_selection,
    what_feeds_know_of_selections_is_lawful,
};
use yp_serial::laws::an_anchored_trigger_has_due_ticks;
use yp_world::laws::{
    a_serial_run_is_a_list_of_events, a_world_that_holds_serves_its_receivers,
    every_list_of_events_keeps_what_holds, the_number_of_workers_does_not_matter,
};

/// However writers, workers and receivers interleave over a legal journal, with at least one worker, each
/// receiver is served. What its queue accepted is what the definition makes for it of the entries that its
/// worker absorbed, one by one. After each update of a mirrored subscription it holds fresh selection under
/// filter and access control at the update's journal position; positions never fall; nothing is named that its
/// user may not read; suspensions and incomplete updates follow only full queues, and the next
/// resynchronisation carries its own position's selection.
pub fn every_interleaving_serves_each_receiver()
    ensures { (nodes : List SchemaNode) (receivers : List ReceiverInfo) (entries : List Entry) → IsSchema nodes → IsLegal nodes (first_state receivers) entries → EachInterleavingServes nodes receivers entries }
{
    what_feeds_know_of_selections_is_lawful();
    records_lead_from_selection_to_selection();
    every_list_of_events_keeps_what_holds();
    a_world_that_holds_serves_its_receivers();
    the_number_of_workers_does_not_matter();
    every_run_of_a_receiver_serves_it();
}

/// An interleaving with one worker is the serial run of a legal journal, notification for notification. It leads
/// to the world of the journal in which the worker stands where the serial run does, each queue gave the same
/// answers, each receiver took the same notifications in the same order, and the same stand in its queue.
pub fn an_interleaving_is_the_serial_run()
    ensures { (nodes : List SchemaNode) (receivers : List ReceiverInfo) (entries : List Entry) → IsSchema nodes → IsLegal nodes (first_state receivers) entries → OneIsTheSerialRun nodes receivers entries }
{
    what_feeds_know_of_selections_is_lawful();
    entries_of_a_legal_journal_may_follow();
    what_feeds_are_handed_can_be_followed();
    an_anchored_trigger_has_due_ticks();
    a_serial_run_is_a_list_of_events();
}

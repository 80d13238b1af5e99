//! Laws of runs of which all offers are accepted; nothing runs.
ghost use Rattle.std.specs.Prelude.{◌≡◌, ℕ, ◌*◌, ◌<◌, ◌≤◌, List, length, Some};
ghost use Rattle.yp_schema.specs.declared.schema.SchemaNode.{SchemaNode};
ghost use Rattle.yp_journal.specs.declared.entry.Entry.{Entry};
ghost use Rattle.yp_journal.specs.declared.receiver.ReceiverInfo.{ReceiverInfo};
ghost use Rattle.yp_journal.specs.History.{IsLegal, first_state};
ghost use Rattle.yp_attempt.specs.Runs.{Found, Reaches, Run, run_settled, waits};
ghost use Rattle.yp_attempt.specs.Tracks.{Answer, Took};
ghost use Rattle.yp_moment.specs.Entries.{moments_of};
ghost use Rattle.yp_moment.specs.Windows.{recorded};
ghost use Rattle.yp_listeners.specs.Listeners.{offers_left};

use yp_attempt::laws::the_first_offer_is_found;
use yp_moment::acts::what_feeds_are_handed_can_be_followed;
use yp_moment::laws::what_feeds_know_of_selections_is_lawful;
use yp_promise::laws::a_serial_run_goes_on_offer_by_offer;
use yp_serial::laws::{
    an_anchored_trigger_has_due_ticks, due_ticks_stay, each_answer_leaves_fewer_offers,
};

/// Offers come to an end. In a run over a legal journal each one that is accepted leaves fewer that may come, of which
/// there are at most fifteen for each feed.
pub fn offers_come_to_an_end()
    ensures fewer { (nodes : List SchemaNode) (receivers : List ReceiverInfo) (mine : List ℕ) (entries : List Entry) (answers : List Answer) (run : Run) (found : Found)
        → IsLegal nodes (first_state receivers) entries → Reaches recorded mine (moments_of nodes receivers entries) answers run → waits recorded run ≡ Some found
        → offers_left (run_settled recorded run found Took) < offers_left run }
    ensures most { (run : Run) → offers_left run ≤ 15 * length run.standing.tracks }
{
    what_feeds_know_of_selections_is_lawful();
    the_first_offer_is_found();
    what_feeds_are_handed_can_be_followed();
    an_anchored_trigger_has_due_ticks();
    due_ticks_stay();
    each_answer_leaves_fewer_offers();
    a_serial_run_goes_on_offer_by_offer();
}

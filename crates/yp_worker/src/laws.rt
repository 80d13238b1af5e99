//! Laws of workers, and of journals that they follow; nothing runs.
ghost use Rattle.std.specs.Prelude.{◌≡◌, ◌++◌, ◌∷◌, ℕ, List, None, length};
ghost use Rattle.yp_schema.specs.declared.schema.SchemaNode.{SchemaNode};
ghost use Rattle.yp_journal.specs.declared.entry.Entry.{Entry};
ghost use Rattle.yp_journal.specs.declared.receiver.ReceiverInfo.{ReceiverInfo};
ghost use Rattle.yp_journal.specs.History.{IsLegal, JournalState, MayFollow, state_of};
ghost use Rattle.yp_attempt.specs.Runs.{Reaches, Run, waits};
ghost use Rattle.yp_attempt.specs.Tracks.{Answer};
ghost use Rattle.yp_moment.specs.Entries.{moments_of};
ghost use Rattle.yp_moment.specs.Windows.{recorded};
ghost use Rattle.yp_worker.specs.declared.offering.Sent.{Sent};
ghost use Rattle.yp_worker.specs.declared.worker.Worker.{Worker};
ghost use Rattle.yp_worker.specs.Workers.{HasOffered, IsIdleWorkerOf, IsSentBy, IsWorkerOf};

use yp_attempt::laws::{
    a_worker_finds_what_its_run_offers, the_first_offer_is_found,
    what_is_reached_is_what_replaying_gives,
};
use yp_moment::laws::what_feeds_know_of_selections_is_lawful;

/// Each entry of a legal journal may follow those before it.
#[tactic(auto, using(crate::proofs::Taken::may_follow_there))]
pub fn each_entry_of_a_legal_journal_may_follow()
    ensures { (nodes : List SchemaNode) (state : JournalState) (entries : List Entry) (entry : Entry) (more : List Entry)
        → IsLegal nodes state (entries ++ entry ∷ more) → MayFollow nodes (state_of nodes state entries) entry }
{}

/// What a worker offers is what the run offers to which its entries and answers lead, and it has nothing to
/// offer exactly where the run hasn't. It serves a feed for each track of the run.
pub fn a_worker_offers_what_its_run_offers()
    ensures offers { (nodes : List SchemaNode) (start : ℕ) (receivers : List ReceiverInfo) (mine : List ℕ) (entries : List Entry) (answers : List Answer) (sent : Sent) (worker : Worker)
        → HasOffered nodes start receivers mine entries answers sent worker → (run : Run) → Reaches recorded mine (moments_of nodes receivers entries) answers run → IsSentBy nodes start run sent }
    ensures idle { (nodes : List SchemaNode) (start : ℕ) (receivers : List ReceiverInfo) (mine : List ℕ) (entries : List Entry) (answers : List Answer) (worker : Worker)
        → IsIdleWorkerOf nodes start receivers mine entries answers worker → (run : Run) → Reaches recorded mine (moments_of nodes receivers entries) answers run → waits recorded run ≡ None }
    ensures feeds { (nodes : List SchemaNode) (start : ℕ) (receivers : List ReceiverInfo) (mine : List ℕ) (entries : List Entry) (answers : List Answer) (worker : Worker)
        → IsWorkerOf nodes start receivers mine entries answers worker → (run : Run) → Reaches recorded mine (moments_of nodes receivers entries) answers run → length run.standing.tracks ≡ length worker.roster.slots.items }
{
    a_worker_finds_what_its_run_offers();
    what_is_reached_is_what_replaying_gives();
    the_first_offer_is_found();
    what_feeds_know_of_selections_is_lawful();
}

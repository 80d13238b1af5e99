//! What the answer of a queue makes of a worker.
ghost use Rattle.std.specs.Prelude.{◌≡◌, ◌++◌, ◌∷◌, [], ℕ, List};
ghost use Rattle.yp_schema.specs.declared.schema.SchemaNode.{SchemaNode};
ghost use Rattle.yp_journal.specs.declared.entry.Entry.{Entry};
ghost use Rattle.yp_journal.specs.declared.receiver.ReceiverInfo.{ReceiverInfo};
ghost use Rattle.yp_attempt.specs.Tracks.{Answer};
ghost use Rattle.yp_slot.specs.Steps.{answer_of};
ghost use Rattle.yp_worker.specs.declared.offering.Sent.{Sent};
ghost use Rattle.yp_worker.specs.Workers.{HasOffered, IsWorkerOf, IsOffering};

use crate::worker::{Out, Worker};
use std::alloc::Global;
use yp_slot::settling::Settled;

impl Worker {
    /// Takes in what the queue of the receiver answered to the offer that is out.
    pub fn settle(&mut self, alloc: Global, settled: Settled)
        requires { (nodes : List SchemaNode) × IsOffering nodes self.old }
        ensures stands { (nodes : List SchemaNode) (start : ℕ) (receivers : List ReceiverInfo) (mine : List ℕ) (entries : List Entry) (answers : List Answer) (sent : Sent)
            → HasOffered nodes start receivers mine entries answers sent self.old → IsWorkerOf nodes start receivers mine entries (answers ++ answer_of settled ∷ []) self.new }
        ensures spent { self.new.spent ≡ self.old.spent }
    {
        if let Some(out) = self.out {
            self.out = None;
            let Out { place, item } = out;
            self.roster.settle(alloc, &self.state, place, item, settled);
        }
    }
}

//! A worker at its place in the journal.
ghost use Rattle.std.specs.Prelude.{◌≡◌, ◌+◌, ◌<◌, ◌^◌, ◌++◌, ◌∷◌, ℕ, [], List, None, length, IfOk, OnOk};
ghost use Rattle.yp_schema.specs.declared.schema.SchemaNode.{SchemaNode};
ghost use Rattle.yp_journal.specs.declared.entry.Entry.{Entry as EntryThere};
ghost use Rattle.yp_journal.specs.declared.receiver.ReceiverInfo.{ReceiverInfo as Declared};
ghost use Rattle.yp_journal.specs.History.{MayFollow};
ghost use Rattle.yp_attempt.specs.Tracks.{Answer};
ghost use Rattle.yp_attempt.specs.Workers.{numbers_of};
ghost use Rattle.yp_slot.specs.Steps.{answer_of};
ghost use Rattle.yp_worker.specs.declared.offering.Sent.{Sent as SentThere};
ghost use Rattle.yp_worker.specs.Workers.{HasFound, HasOffered, IsIdle, IsIdleWorkerOf, IsOffering};

use std::alloc::Global;
use yp_base::memory::NoMemory;
use yp_journal::entry::Entry;
use yp_journal::receiver::ReceiverInfo;
use yp_schema::schema::Schema;
use yp_slot::settling::Settled;
use yp_time::start::Start;
use yp_worker::offering::Sent;
use yp_worker::worker::Worker;

/// A worker, the offer that it has out, if there is one, and how many entries it absorbed.
#[derive(Drop)]
pub struct Seat {
    pub(crate) worker: Worker,
    pub(crate) sent: Option<Sent>,
    pub(crate) position: usize,
}

impl Seat {
    /// A worker before the first entry, of so many workers. It has nothing to offer.
    pub(crate) fn open(
        alloc: Global,
        schema: &Schema,
        start: &Start,
        receivers: &[ReceiverInfo],
        worker: u32,
        workers: u32,
    ) -> Result<Seat, NoMemory>
        requires worker { worker < workers }
        requires few { length receivers.now < 2 ^ 32 }
        ensures idle { IfOk result (λ seat. IsIdleWorkerOf schema.now start.now receivers.now (numbers_of worker workers (length receivers.now)) [] [] seat.worker) }
        ensures sent { IfOk result (λ seat. seat.sent ≡ None) }
        ensures position { IfOk result (λ seat. seat.position ≡ 0) }
    {
        Ok(Seat {
            worker: Worker::open(alloc, schema, start, receivers, worker, workers)?,
            sent: None,
            position: 0,
        })
    }

    /// The worker goes on by the next entry, and makes its next offer.
    pub(crate) fn absorb(
        &mut self,
        alloc: Global,
        schema: &Schema,
        entry: &Entry,
    ) -> Result<(), NoMemory>
        requires entry { MayFollow schema.now self.old.worker.state entry.now }
        requires position { self.old.worker.state.position < 2 ^ 63 }
        requires room { self.old.position < 2 ^ 63 }
        requires idle { IsIdle schema.now self.old.worker }
        ensures found { OnOk result ((start : ℕ) (receivers : List Declared) (mine : List ℕ) (entries : List EntryThere) (answers : List Answer)
            → IsIdleWorkerOf schema.now start receivers mine entries answers self.old.worker → HasFound schema.now start receivers mine (entries ++ entry.now ∷ []) answers self.new.sent self.new.worker) }
        ensures position { OnOk result (self.new.position ≡ self.old.position + 1) }
    {
        self.worker.absorb(alloc, schema, entry)?;
        self.position += 1;
        self.sent = self.worker.next_offer(alloc, schema)?;
        Ok(())
    }

    /// The worker is told the answer to its offer, and makes its next one.
    pub(crate) fn settle(
        &mut self,
        alloc: Global,
        schema: &Schema,
        settled: Settled,
    ) -> Result<(), NoMemory>
        requires { IsOffering schema.now self.old.worker }
        ensures found { OnOk result ((start : ℕ) (receivers : List Declared) (mine : List ℕ) (entries : List EntryThere) (answers : List Answer) (sent : SentThere)
            → HasOffered schema.now start receivers mine entries answers sent self.old.worker
            → HasFound schema.now start receivers mine entries (answers ++ answer_of settled ∷ []) self.new.sent self.new.worker) }
        ensures position { OnOk result (self.new.position ≡ self.old.position) }
    {
        self.worker.settle(alloc, settled);
        self.sent = self.worker.next_offer(alloc, schema)?;
        Ok(())
    }
}

//! The companions of a world's workers: workers of the program that follow the same journal and are told the same
//! answers, and what they offered to each receiver.
ghost use Rattle.std.specs.Prelude.{◌≡◌, ◌<◌, ◌^◌, [], List, All, drop, length, replicate, slice_get, slice_set, IfOk, IfSome, OnOk};
ghost use Rattle.yp_journal.specs.declared.receiver.ReceiverInfo.{ReceiverInfo as Declared};
ghost use Rattle.yp_journal.specs.History.{MayCome};
ghost use Rattle.world_cases.specs.Companions.{Accompanies, HasItsCommand, KeepsOffer, MayGoOn, answer_told, kept_by, kept_for, offer_comes, take_comes};

use crate::kept::Kept;
use std::alloc::Global;
use yp_base::memory::{Duplicate, NoMemory};
use yp_core::event::Happened;
use yp_journal::command::Command;
use yp_journal::entry::Entry;
use yp_journal::laws::a_journal_goes_on_entry_by_entry;
use yp_journal::receiver::ReceiverInfo;
use yp_queue::packet::Packet;
use yp_schema::schema::Schema;
use yp_slot::settling::Settled;
use yp_time::start::Start;
use yp_worker::offering::Sent;
use yp_worker::worker::Worker;

/// What a companion offered: the number of the receiver, the id of the subscription, and the position in the journal
/// of the worker that offered it.
#[derive(Clone, Copy, Drop)]
pub struct Offer {
    pub receiver: u32,
    pub sub: u32,
    pub position: u64,
}

/// The answer that the world tells of an offer. Where it tells of none, a companion that offers something isn't to
/// keep it.
pub fn answer_told(happened: &Happened) -> Settled
    ensures { result ≡ answer_told happened.now }
{
    match happened {
        Happened::Took { .. } => Settled::Took,
        Happened::Appended(_) => Settled::Full,
        Happened::Absorbed(_) => Settled::Full,
        Happened::Full { .. } => Settled::Full,
        Happened::Taken(_) => Settled::Full,
        Happened::Nothing => Settled::Full,
    }
}

/// What an offer comes to, by the answer to it.
pub fn offer_comes(settled: Settled, offer: Option<Offer>) -> Happened
    ensures { result ≡ offer_comes settled offer }
{
    let Some(offer) = offer else {
        return Happened::Nothing;
    };
    let Offer {
        receiver,
        sub,
        position,
    } = offer;
    match settled {
        Settled::Took => Happened::Took { receiver, position },
        Settled::Full => Happened::Full {
            receiver,
            sub,
            position,
        },
    }
}

/// Has a worker offer what it has to offer first, tells it the answer, and gives what was sent.
fn offer_by(
    alloc: Global,
    schema: &Schema,
    settled: Settled,
    worker: &mut Worker,
) -> Result<Option<Sent>, NoMemory>
    requires { (receivers : List Declared) × Accompanies schema.now receivers worker.old }
    ensures { OnOk result ((receivers : List Declared) → Accompanies schema.now receivers worker.old → Accompanies schema.now receivers worker.new) }
{
    match worker.next_offer(alloc, schema)? {
        Some(sent) => {
            worker.settle(alloc, settled);
            Ok(Some(sent))
        }
        None => Ok(None),
    }
}

/// Has a worker take the next command of a journal, and gives the entry that it makes. `None` comes where it has
/// something to offer, which no queue accepts then, and where no command is left.
fn take_command(
    alloc: Global,
    schema: &Schema,
    commands: &[Command],
    worker: &mut Worker,
) -> Result<Option<Entry>, NoMemory>
    requires journal { (receivers : List Declared) × (Accompanies schema.now receivers worker.old × All (MayCome schema.now receivers) commands.now) }
    requires few { length commands.now < 2 ^ 31 }
    ensures follows { OnOk result ((receivers : List Declared) → Accompanies schema.now receivers worker.old → Accompanies schema.now receivers worker.new) }
    ensures command { IfOk result (λ made. IfSome made (HasItsCommand commands.now)) }
{
    a_journal_goes_on_entry_by_entry();
    match worker.next_offer(alloc, schema)? {
        Some(_) => {
            worker.settle(alloc, Settled::Full);
            Ok(None)
        }
        None => {
            let position = worker.state().position() as usize;
            let Some(command) = commands.get(position) else {
                return Ok(None);
            };
            let command = command.copy(alloc)?;
            let entry = worker.accept(alloc, schema, 0, position as u32 + 1, command)?;
            Ok(Some(entry))
        }
    }
}

/// So many workers before the first entry.
fn open_workers(
    alloc: Global,
    schema: &Schema,
    start: &Start,
    receivers: &[ReceiverInfo],
    workers: u32,
) -> Result<Vec<Worker>, NoMemory>
    requires few { length receivers.now < 2 ^ 32 }
    ensures count { IfOk result (λ opened. length opened.items ≡ workers) }
    ensures stand { IfOk result (λ opened. All (Accompanies schema.now receivers.now) opened.items) }
{
    let mut opened = Vec::new(alloc);
    for worker in 0..workers {
        opened.push(Worker::open(alloc, schema, start, receivers, worker, workers)?)?;
    }
    Ok(opened)
}

/// For each of so many receivers, that nothing is kept yet.
fn none_kept(alloc: Global, receivers: usize) -> Result<Vec<Kept>, NoMemory>
    ensures { IfOk result (λ kept. kept.items ≡ replicate receivers []) }
{
    let mut kept = Vec::new(alloc);
    for _receiver in 0..receivers {
        kept.push(Kept::none(alloc))?;
    }
    Ok(kept)
}

/// A worker beside each of a world's, and for each receiver the packets of these workers that its queue accepted and
/// that it didn't take yet.
#[derive(Drop)]
pub struct Companions {
    workers: Vec<Worker>,
    kept: Vec<Kept>,
}

impl Companions {
    /// The companions of so many workers, before the first event.
    pub fn open(
        alloc: Global,
        schema: &Schema,
        start: &Start,
        receivers: &[ReceiverInfo],
        workers: u32,
    ) -> Result<Companions, NoMemory>
        requires { length receivers.now < 2 ^ 32 }
        ensures count { IfOk result (λ opened. length opened.workers.items ≡ workers) }
        ensures stand { IfOk result (λ opened. All (Accompanies schema.now receivers.now) opened.workers.items) }
        ensures kept { IfOk result (λ opened. opened.kept.items ≡ replicate (length receivers.now) []) }
    {
        Ok(Companions {
            workers: open_workers(alloc, schema, start, receivers, workers)?,
            kept: none_kept(alloc, receivers.len())?,
        })
    }

    /// Has the companion of the worker of a number take the next command of a journal, and gives the entry that it
    /// makes. `None` comes where it makes none: it has something to offer, which no queue accepts then, no command is
    /// left, or there is no such worker.
    pub fn absorb(
        &mut self,
        alloc: Global,
        schema: &Schema,
        commands: &[Command],
        worker: u32,
    ) -> Result<Option<Entry>, NoMemory>
        requires journal { MayGoOn schema.now commands.now self.old.workers.items }
        requires few { length commands.now < 2 ^ 31 }
        ensures follows { OnOk result ((receivers : List Declared) → All (Accompanies schema.now receivers) self.old.workers.items → All (Accompanies schema.now receivers) self.new.workers.items) }
        ensures command { IfOk result (λ made. IfSome made (HasItsCommand commands.now)) }
        ensures kept { self.new.kept ≡ self.old.kept }
    {
        let number = worker as usize;
        if number >= self.workers.len() {
            return Ok(None);
        }
        take_command(alloc, schema, commands, &mut self.workers[number])
    }

    /// Has the companion of the worker of a number offer what it has to offer first, tells it the answer, and keeps
    /// the packet where this says that the queue accepted it. `None` comes where it has nothing to offer, and where
    /// there is no such worker.
    pub fn offer(
        &mut self,
        alloc: Global,
        schema: &Schema,
        worker: u32,
        settled: Settled,
    ) -> Result<Option<Offer>, NoMemory>
        requires { (receivers : List Declared) × All (Accompanies schema.now receivers) self.old.workers.items }
        ensures follows { OnOk result ((receivers : List Declared) → All (Accompanies schema.now receivers) self.old.workers.items → All (Accompanies schema.now receivers) self.new.workers.items) }
        ensures kept { IfOk result (λ offer. KeepsOffer settled offer self.old.kept.items self.new.kept.items) }
    {
        let number = worker as usize;
        if number >= self.workers.len() {
            return Ok(None);
        }
        let position = self.workers[number].state().position();
        match offer_by(alloc, schema, settled, &mut self.workers[number])? {
            Some(sent) => {
                let Sent {
                    receiver,
                    packet,
                    ..
                } = sent;
                let offer = Offer {
                    receiver,
                    sub: packet.sub,
                    position,
                };
                self.keep_by(settled, receiver, packet)?;
                Ok(Some(offer))
            }
            None => Ok(None),
        }
    }

    /// Keeps a packet for the receiver of a number, if the answer to it is that the queue accepted it.
    fn keep_by(&mut self, settled: Settled, receiver: u32, packet: Packet) -> Result<(), NoMemory>
        ensures workers { self.new.workers ≡ self.old.workers }
        ensures kept { OnOk result (self.new.kept.items ≡ kept_by settled self.old.kept.items receiver packet) }
    {
        let number = receiver as usize;
        match settled {
            Settled::Took => {
                if number >= self.kept.len() {
                    return Ok(());
                }
                self.kept[number].keep(packet)
            }
            Settled::Full => Ok(()),
        }
    }

    /// What it comes to that the receiver of a number takes: the oldest packet that is kept for it goes.
    pub fn take(&mut self, receiver: u32) -> Happened
        ensures workers { self.new.workers ≡ self.old.workers }
        ensures oldest { result ≡ take_comes (slice_get (kept_for self.old.kept.items receiver) 0) }
        ensures rest { self.new.kept.items ≡ slice_set self.old.kept.items receiver (drop 1 (kept_for self.old.kept.items receiver)) }
    {
        let number = receiver as usize;
        if number >= self.kept.len() {
            return Happened::Nothing;
        }
        match self.kept[number].take() {
            Some(packet) => Happened::Taken(packet),
            None => Happened::Nothing,
        }
    }
}

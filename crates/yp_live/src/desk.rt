//! The desk of a receiver.
ghost use Rattle.std.specs.Prelude.{◌≡◌, ◌≤◌, ℕ, List, length, IfOk, OnOk, string_bytes};
ghost use Rattle.yp_schema.specs.declared.schema.SchemaNode.{SchemaNode};
ghost use Rattle.yp_promise.specs.Received.{CanBeShown};
ghost use Rattle.yp_serial.specs.Serial.{first_served};
ghost use Rattle.yp_live.specs.Counts.{count_desk, count_log, counts_entry, desk_rows, is_told};
ghost use Rattle.yp_live.specs.Desks.{desk_answer, desk_at, desk_offered, desk_text, desk_took};
ghost use Rattle.yp_offer_log.specs.Logs.{left_after};

use crate::counted::Counted;
use crate::trees::count_rows;
use circular_buffer::HeapCircularBuffer;
use std::alloc::Global;
use std::marker::Model;
use std::sync::ledger::Ledger;
use yp_base::memory::{Duplicate, NoMemory};
use yp_base::notice::Notice;
use yp_base::steps::Steps;
use yp_base::txt::Txt;
use yp_journal::receiver::ReceiverInfo;
use yp_offer_log::logged::{Logged, log_text};
use yp_queue::local::LocalQueue;
use yp_queue::packet::{Offered, Packet};
use yp_receiver::holdings::Holdings;
use yp_report::trees::push_trees;
use yp_schema::schema::Schema;
use yp_slot::settling::Settled;
use yp_worker::offering::Sent;

/// What a receiver has: its name, whether it takes each packet at once, what is kept of the offers to it, how
/// many packets it took, its queue, with the notifications of the packets there, and what it holds of each
/// subscription. Contracts see a record of these.
#[derive(Drop)]
pub struct Desk {
    name: Txt,
    automatic: bool,
    log: Vec<Logged>,
    taken: usize,
    queue: LocalQueue,
    waiting: HeapCircularBuffer<Notice>,
    trees: Holdings,
}

impl Model for Desk {
    ghost use Rattle.std.specs.Prelude.{◌≡◌, ◌+◌, ◌≤◌, length};
    ghost use Rattle.yp_live.specs.Desks.{DeskState};

    ghost Value = { DeskState };

    ghost view = { λ d. record { name = d.name; automatic = d.automatic; log = d.log.items; taken = d.taken; queue = d.queue; waiting = d.waiting.items; trees = d.trees } };

    // A notification waits for each packet in the queue, and of each packet that was accepted there is a line.
    ghost invariant = { λ d. (length d.waiting.items ≡ length d.queue.packets) × (d.waiting.capacity ≡ d.queue.places) × (d.taken + length d.waiting.items ≤ length d.log.items) };
}

/// Whether what is kept of an offer is told, where so many packets that were taken are not told yet.
fn is_told(logged: &Logged, taken: usize) -> bool
    ensures { result ≡ is_told logged.now taken }
{
    match logged {
        Logged::Line { .. } => taken > 0,
        Logged::FullAt { .. } => true,
    }
}

/// How many packets that were taken are not told after it.
fn left_after(logged: &Logged, taken: usize) -> usize
    ensures { result ≡ left_after logged.now taken }
{
    match logged {
        Logged::Line { .. } => taken.saturating_sub(1),
        Logged::FullAt { .. } => taken,
    }
}

/// Whether it is counted.
fn is_counted(logged: &Logged, counted: Counted) -> bool
    ensures { result ≡ counts_entry counted logged.now }
{
    match logged {
        Logged::Line { kind, .. } => counted.has_kind(*kind),
        Logged::FullAt { .. } => counted.has_full_queues(),
    }
}

/// How many of a log are told and counted, where so many packets were taken.
fn count_log(log: &[Logged], taken: usize, counted: Counted) -> usize
    ensures { result ≡ count_log counted taken log.now }
{
    let mut left = taken;
    let mut count = 0;
    for logged in log {
        if is_told(logged, left) && is_counted(logged, counted) {
            count += 1;
        }
        left = left_after(logged, left);
    }
    count
}

impl Desk {
    /// The desk of a receiver that nothing was offered to.
    pub fn new(alloc: Global, receiver: &ReceiverInfo) -> Result<Desk, NoMemory>
        requires { 1 ≤ receiver.now.places }
        ensures { IfOk result (λ desk. (nodes : List SchemaNode) (start number : ℕ) → desk ≡ desk_at nodes start first_served number receiver.now) }
    {
        let places = receiver.places;
        Ok(Desk {
            name: receiver.name.copy(alloc)?,
            automatic: receiver.auto,
            log: Vec::new(alloc),
            taken: 0,
            queue: LocalQueue::with_places(alloc, places)?,
            waiting: HeapCircularBuffer::with_capacity(alloc, places as usize)?,
            trees: Holdings::new(alloc),
        })
    }

    /// Takes the oldest packet, where one stands in the queue, and hears its notification.
    fn take_one(&mut self, alloc: Global) -> Result<(), NoMemory>
        ensures { OnOk result (self.new ≡ desk_took 1 self.old) }
    {
        match self.waiting.pop_front() {
            Some(notice) => {
                self.queue.take();
                self.taken += 1;
                self.trees.hear(alloc, notice)
            }
            None => Ok(()),
        }
    }

    /// Takes up to so many packets, the oldest first.
    pub fn take(&mut self, alloc: Global, count: u32) -> Result<(), NoMemory>
        ensures { OnOk result (self.new ≡ desk_took count self.old) }
    {
        for _round in 0..count {
            self.take_one(alloc)?;
        }
        Ok(())
    }

    /// Offers a packet to the queue. Where this accepts it, the line is kept and the notification waits, and a
    /// receiver that takes each packet at once takes it; where it is full, it is kept that it was so at this
    /// position.
    pub fn offer(&mut self, alloc: Global, sent: Sent, at: u64) -> Result<Settled, NoMemory>
        ensures answer { IfOk result (λ settled. settled ≡ desk_answer self.old) }
        ensures state { OnOk result (self.new ≡ desk_offered sent.packet sent.notice at self.old) }
    {
        let Sent { packet, notice, .. } = sent;
        let Packet {
            sub,
            position,
            kind,
            line,
        } = packet;
        // The queue and the log share one text. Room in the log comes first, so that nothing is lost past the
        // answer of the queue.
        let packet = Packet {
            sub,
            position,
            kind,
            line: line.copy(alloc)?,
        };
        self.log.reserve(1)?;
        match self.queue.offer(packet) {
            Offered::Took => {
                self.waiting.push_back(notice);
                self.log.push(Logged::Line { kind, line })?;
                if self.automatic {
                    self.take_one(alloc)?;
                }
                Ok(Settled::Took)
            }
            Offered::Full(_) => {
                self.log.push(Logged::FullAt { sub, position: at })?;
                Ok(Settled::Full)
            }
        }
    }

    /// How often something is told of the offers to it.
    pub fn count(&self, counted: Counted) -> usize
        ensures { result ≡ count_desk counted self.now }
    {
        count_log(self.log.as_slice(), self.taken, counted)
    }

    /// How many rows it holds.
    pub fn count_rows<L: Ledger>(
        &self,
        alloc: Global,
        steps: &mut Steps<L>,
    ) -> Result<usize, NoMemory>
        ensures { IfOk result (λ count. count ≡ desk_rows self.now) }
    {
        count_rows(alloc, &self.trees, steps)
    }

    /// What is told of the offers to it, and after that the lines of what it holds.
    pub fn into_text(self, alloc: Global, schema: &Schema) -> Result<String, NoMemory>
        requires { CanBeShown schema.now self.trees }
        ensures { IfOk result (λ text. string_bytes text ≡ desk_text schema.now self) }
    {
        let Desk {
            name,
            log,
            taken,
            trees,
            ..
        } = self;
        let mut text = log_text(alloc, name.as_str(), log, taken)?;
        push_trees(alloc, &mut text, schema, name.as_str(), trees)?;
        Ok(text)
    }
}

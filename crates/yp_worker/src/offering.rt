//! What a worker offers.
ghost use Rattle.std.specs.Prelude.{◌≡◌, ◌<◌, ℕ, List, true, false, IfOk, OnOk, OnErr};
ghost use Rattle.yp_journal.specs.declared.entry.Entry.{Entry};
ghost use Rattle.yp_journal.specs.declared.receiver.ReceiverInfo.{ReceiverInfo};
ghost use Rattle.yp_attempt.specs.Moments.{Moment};
ghost use Rattle.yp_attempt.specs.Tracks.{Answer, item_made};
ghost use Rattle.yp_moment.specs.Entries.{moments_of};
ghost use Rattle.yp_moment.specs.Notices.{notice_of};
ghost use Rattle.yp_moment.specs.Windows.{recorded};
ghost use Rattle.yp_roster.specs.Rosters.{IsFoundAt, IsNextAt};
ghost use Rattle.yp_slot.specs.Slots.{IsPresent};
ghost use Rattle.yp_worker.specs.Contents.{AreSelected};
ghost use Rattle.yp_worker.specs.Packets.{packet_of};
ghost use Rattle.yp_worker.specs.Workers.{HasFollowed, HasFound, IsWorkerOf, IsAtWork};

use crate::contents::Selected;
use crate::saying::{Worded, say};
use crate::worker::{Out, Worker};
use crate::writing::line_around;
use std::alloc::Global;
use std::marker::Brand;
use std::sync::ledger::{Blank, Ledger};
use yp_base::memory::NoMemory;
use yp_base::notice::Notice;
use yp_base::steps::Steps;
use yp_queue::packet::Packet;
use yp_roster::roster::{Offer, Roster};
use yp_schema::schema::Schema;
use yp_slot::present::Present;
use yp_time::start::Start;

/// What is sent: the number of the receiver that it is for, its packet, and the notification of which this has
/// the line.
#[derive(Drop)]
pub struct Sent {
    pub receiver: u32,
    pub packet: Packet,
    pub notice: Notice,
}

/// What is sent for an offer of a roster that was found, of which it counts no step.
fn write<L: Ledger>(
    alloc: Global,
    start: &Start,
    present: &Present,
    roster: &Roster,
    offer: Offer,
    contents: &mut Vec<Selected>,
    blank: Blank,
) -> Result<Sent, NoMemory>
    requires name { blank.name ≡ L.name }
    requires parts { blank.parts ≡ L.parts }
    requires some { 0 < L.parts }
    requires present { IsPresent present.now.schema.now present.now.state.now present.now.readers.now }
    requires found { (mine : List ℕ) × ((past : List Moment) × ((answers : List Answer) × IsFoundAt present.now.schema.now present.now.state.now mine past answers offer roster.now.slots.items)) }
    requires contents { AreSelected present.now.schema.now present.now.state.now contents.old.items }
    ensures to { IfOk result (λ sent. (mine : List ℕ) (past : List Moment) (answers : List Answer) (found : IsFoundAt present.now.schema.now present.now.state.now mine past answers offer roster.now.slots.items)
        → sent.receiver ≡ found.track.feed.receiver) }
    ensures packet { IfOk result (λ sent. (mine : List ℕ) (past : List Moment) (answers : List Answer) (found : IsFoundAt present.now.schema.now present.now.state.now mine past answers offer roster.now.slots.items)
        → sent.packet ≡ packet_of present.now.schema.now start.now found.track.feed.sub (item_made recorded found.track offer.item present.now.state.now.position present.now.state.now.stamp)) }
    ensures notice { IfOk result (λ sent. (mine : List ℕ) (past : List Moment) (answers : List Answer) (found : IsFoundAt present.now.schema.now present.now.state.now mine past answers offer roster.now.slots.items)
        → sent.notice ≡ notice_of found.track.feed.sub (item_made recorded found.track offer.item present.now.state.now.position present.now.state.now.stamp)) }
    ensures contents { OnOk result (AreSelected present.now.schema.now present.now.state.now contents.new.items) }
{
    let mut steps = Steps::<L>::open(blank);
    let Offer {
        place,
        item,
        changes,
    } = offer;
    let slot = &roster.slots[place];
    let worded = say(alloc, present, slot, item, changes, contents, &mut steps)?;
    let Worded { said, carried } = worded;
    let line = line_around(
        alloc,
        present.schema,
        start,
        said.tick,
        &said.notice,
        &carried,
    )?;
    let packet = Packet {
        sub: slot.feed.sub(),
        position: said.position,
        kind: said.kind,
        line,
    };
    Ok(Sent {
        receiver: slot.feed.receiver(),
        packet,
        notice: said.notice,
    })
}

impl Worker {
    /// Looks for the next offer of its roster, and counts no step of it.
    fn look<L: Ledger>(
        &mut self,
        alloc: Global,
        schema: &Schema,
        blank: Blank,
    ) -> Result<Option<Offer>, NoMemory>
        requires name { blank.name ≡ L.name }
        requires parts { blank.parts ≡ L.parts }
        requires some { 0 < L.parts }
        requires stands { IsAtWork schema.now self.old }
        ensures followed { OnOk result ((start : ℕ) (receivers : List ReceiverInfo) (mine : List ℕ) (entries : List Entry) (answers : List Answer)
            → IsWorkerOf schema.now start receivers mine entries answers self.old → HasFollowed schema.now start receivers mine entries self.new) }
        ensures next { IfOk result (λ offer. (start : ℕ) (receivers : List ReceiverInfo) (mine : List ℕ) (entries : List Entry) (answers : List Answer)
            → IsWorkerOf schema.now start receivers mine entries answers self.old → IsNextAt schema.now self.new.state mine (moments_of schema.now receivers entries) answers offer self.new.roster.slots.items) }
        ensures spent { self.new.spent ≡ self.old.spent }
    {
        let mut steps = Steps::<L>::open(blank);
        let present = Present {
            schema,
            state: &self.state,
            readers: &self.readers,
        };
        let offer = self.roster.next_offer(alloc, &present, &mut steps)?;
        Ok(offer)
    }

    /// The next offer, as it is sent; `None` exactly where nothing is offered. The queue's answer to it is to
    /// be settled before anything else. After `NoMemory` the worker is spent.
    pub fn next_offer(&mut self, alloc: Global, schema: &Schema) -> Result<Option<Sent>, NoMemory>
        requires { IsAtWork schema.now self.old }
        ensures found { IfOk result (λ found. (start : ℕ) (receivers : List ReceiverInfo) (mine : List ℕ) (entries : List Entry) (answers : List Answer)
            → IsWorkerOf schema.now start receivers mine entries answers self.old → HasFound schema.now start receivers mine entries answers found self.new) }
        ensures spent { OnErr result (self.new.spent ≡ true) }
        ensures unspent { OnOk result (self.new.spent ≡ false) }
    {
        self.spent = true;
        match self.look::<Brand>(alloc, schema, Blank::new(1))? {
            Some(offer) => {
                let out = Out {
                    place: offer.place,
                    item: offer.item,
                };
                let present = Present {
                    schema,
                    state: &self.state,
                    readers: &self.readers,
                };
                let (start, roster) = (&self.start, &self.roster);
                let contents = &mut self.contents;
                let blank = Blank::new(1);
                let sent = write::<Brand>(alloc, start, &present, roster, offer, contents, blank)?;
                self.out = Some(out);
                self.spent = false;
                Ok(Some(sent))
            }
            None => {
                self.spent = false;
                Ok(None)
            }
        }
    }
}

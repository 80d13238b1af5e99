//! What is said of an item.
ghost use Rattle.std.specs.Prelude.{◌≡◌, ◌≤◌, ℕ, List, false, true, Some, IfOk, IfSome, OnOk};
ghost use Rattle.yp_base.specs.declared.notice.Notice.TheVariants.{Changes as ChangesNotice};
ghost use Rattle.yp_schema.specs.declared.schema.SchemaNode.{SchemaNode};
ghost use Rattle.yp_encode.specs.Sendable.{IsSendable};
ghost use Rattle.yp_time.specs.Ticks.{tick_limit};
ghost use Rattle.yp_filter.specs.View.{filter_view};
ghost use Rattle.yp_attempt.specs.Tracks.{All, Edits, Notice as NoticeBody, Track, item_made, made_frozen, made_here};
ghost use Rattle.yp_moment.specs.Windows.{recorded};
ghost use Rattle.yp_slot.specs.Slots.{IsSendableRecord, IsKeptAt, IsOffered, IsOfferOf, IsPresent, IsSlotOf, frozen_of};
ghost use Rattle.yp_worker.specs.Contents.{AreSelected, selected};
ghost use Rattle.yp_worker.specs.Packets.{IsTextOf, said_of};
ghost use Rattle.yp_moment.specs.Notices.{state_notice};

use crate::contents::{Selected, content_of};
use std::alloc::Global;
use std::sync::ledger::Ledger;
use yp_base::memory::{Duplicate, NoMemory};
use yp_base::notice::{Changes, Notice};
use yp_base::series::Series;
use yp_base::steps::Steps;
use yp_base::txt::Txt;
use yp_feed::item::Item;
use yp_queue::packet::PacketKind;
use yp_select::laws::filtered_selection_can_be_written;
use yp_slot::laws::a_slot_offers_all_that_is_selected;
use yp_slot::present::Present;
use yp_slot::records::Record;
use yp_slot::slot::{Frozen, Slot};

/// What is said: the position and the tick at which it was made, the kind of its packet, and the notification.
#[derive(Drop)]
pub struct Said {
    pub position: u64,
    pub tick: u64,
    pub kind: PacketKind,
    pub notice: Notice,
}

/// What is said, with the text of what an update carries, where others share it.
#[derive(Drop)]
pub struct Worded {
    pub said: Said,
    pub carried: Option<Txt>,
}

/// The notification of a change of a subscription's state.
fn state_notice(alloc: Global, sub: u32, position: u64, item: Item) -> Notice
    ensures notice { result ≡ state_notice sub position item }
    ensures sendable { (nodes : List SchemaNode) → IsSendable nodes result }
{
    match item {
        Item::Started => Notice::Started { id: sub },
        Item::Modified => Notice::Modified { id: sub },
        Item::Suspended => Notice::Suspended { id: sub },
        Item::Resumed => Notice::Resumed { id: sub },
        Item::Terminated => Notice::Terminated { id: sub },
        Item::Incomplete => changes_notice(sub, position, Series::from_vec(Vec::new(alloc)), true),
        Item::Sync => changes_notice(sub, position, Series::from_vec(Vec::new(alloc)), false),
        Item::Changes => changes_notice(sub, position, Series::from_vec(Vec::new(alloc)), false),
        Item::Periodic => changes_notice(sub, position, Series::from_vec(Vec::new(alloc)), false),
    }
}

/// The notification of changes.
fn changes_notice(sub: u32, position: u64, changes: Changes, incomplete: bool) -> Notice
    ensures { result ≡ ChangesNotice sub position changes incomplete }
{
    Notice::Changes {
        id: sub,
        patch_id: position,
        changes,
        incomplete,
    }
}

/// A change of a subscription's state, as it is said now.
fn say_state(alloc: Global, present: &Present, slot: &Slot, item: Item) -> Worded
    ensures said { result.said ≡ said_of slot.now.feed.sub (made_here present.now.state.now.position present.now.state.now.stamp (NoticeBody item)) }
    ensures tick { result.said.tick ≤ tick_limit }
    ensures sendable { IsSendable present.now.schema.now result.said.notice }
    ensures carried { IfSome result.carried (IsTextOf present.now.schema.now result.said.notice) }
{
    let position = present.state.position();
    Worded {
        said: Said {
            position,
            tick: present.state.stamp(),
            kind: PacketKind::Notice,
            notice: state_notice(alloc, slot.feed.sub(), position, item),
        },
        carried: None,
    }
}

/// All that a slot's subscription selects, as it is said now.
fn say_all<L: Ledger>(
    alloc: Global,
    present: &Present,
    slot: &Slot,
    contents: &mut Vec<Selected>,
    steps: &mut Steps<L>,
) -> Result<Worded, NoMemory>
    requires present { IsPresent present.now.schema.now present.now.state.now present.now.readers.now }
    requires kept { IsKeptAt present.now.schema.now present.now.state.now slot.now }
    requires contents { AreSelected present.now.schema.now present.now.state.now contents.old.items }
    ensures said { IfOk result (λ worded. worded.said ≡ said_of slot.now.feed.sub (made_here present.now.state.now.position present.now.state.now.stamp (All (selected present.now.schema.now present.now.state.now (filter_view slot.now.filter) slot.now.feed.receiver)))) }
    ensures tick { IfOk result (λ worded. worded.said.tick ≤ tick_limit) }
    ensures sendable { IfOk result (λ worded. IsSendable present.now.schema.now worded.said.notice) }
    ensures carried { IfOk result (λ worded. IfSome worded.carried (IsTextOf present.now.schema.now worded.said.notice)) }
    ensures contents { OnOk result (AreSelected present.now.schema.now present.now.state.now contents.new.items) }
{
    filtered_selection_can_be_written();
    let content = content_of(alloc, present, slot, contents, steps)?;
    Ok(Worded {
        said: Said {
            position: present.state.position(),
            tick: present.state.stamp(),
            kind: PacketKind::Full,
            notice: Notice::Full {
                id: slot.feed.sub(),
                rows: content.rows,
            },
        },
        carried: Some(content.text),
    })
}

/// The record that a slot set aside, as it was made then.
fn say_frozen(
    alloc: Global,
    present: &Present,
    slot: &Slot,
    frozen: &Frozen,
) -> Result<Worded, NoMemory>
    requires { IsSendableRecord present.now.schema.now frozen.now }
    ensures said { IfOk result (λ worded. (n stamp : ℕ) → worded.said ≡ said_of slot.now.feed.sub (made_frozen (frozen_of (Some frozen.now)) n stamp)) }
    ensures tick { IfOk result (λ worded. worded.said.tick ≤ tick_limit) }
    ensures sendable { IfOk result (λ worded. IsSendable present.now.schema.now worded.said.notice) }
    ensures carried { IfOk result (λ worded. IfSome worded.carried (IsTextOf present.now.schema.now worded.said.notice)) }
{
    let edits = frozen.edits.copy(alloc)?;
    Ok(Worded {
        said: Said {
            position: frozen.position,
            tick: frozen.tick,
            kind: PacketKind::Incomplete,
            notice: changes_notice(slot.feed.sub(), frozen.position, edits, true),
        },
        carried: None,
    })
}

/// Changes, as they are said now.
fn say_changes(present: &Present, slot: &Slot, told: Record) -> Worded
    requires { IsOffered present.now.schema.now present.now.state.now.position told }
    ensures said { (from : ℕ) → result.said ≡ said_of slot.now.feed.sub (record { from = from; position = present.now.state.now.position; tick = present.now.state.now.stamp; body = Edits told.changes }) }
    ensures tick { result.said.tick ≤ tick_limit }
    ensures sendable { IsSendable present.now.schema.now result.said.notice }
    ensures carried { IfSome result.carried (IsTextOf present.now.schema.now result.said.notice) }
{
    let position = present.state.position();
    Worded {
        said: Said {
            position,
            tick: present.state.stamp(),
            kind: PacketKind::Changes,
            notice: Notice::Changes {
                id: slot.feed.sub(),
                patch_id: position,
                changes: told.changes,
                incomplete: false,
            },
        },
        carried: Some(told.text),
    }
}

/// What a slot's offer says. All that a class selects is made once, and its slots share it.
pub(crate) fn say<L: Ledger>(
    alloc: Global,
    present: &Present,
    slot: &Slot,
    item: Item,
    changes: Option<Record>,
    contents: &mut Vec<Selected>,
    steps: &mut Steps<L>,
) -> Result<Worded, NoMemory>
    requires present { IsPresent present.now.schema.now present.now.state.now present.now.readers.now }
    requires offer { (track : Track) × IsSlotOf present.now.schema.now present.now.state.now slot.now track × IsOfferOf present.now.schema.now present.now.state.now.position present.now.state.now.stamp track (record { item = Some item; changes = changes }) }
    requires contents { AreSelected present.now.schema.now present.now.state.now contents.old.items }
    ensures said { IfOk result (λ worded. (track : Track) → IsSlotOf present.now.schema.now present.now.state.now slot.now track
        → IsOfferOf present.now.schema.now present.now.state.now.position present.now.state.now.stamp track (record { item = Some item; changes = changes })
        → worded.said ≡ said_of slot.now.feed.sub (item_made recorded track item present.now.state.now.position present.now.state.now.stamp)) }
    ensures tick { IfOk result (λ worded. worded.said.tick ≤ tick_limit) }
    ensures sendable { IfOk result (λ worded. IsSendable present.now.schema.now worded.said.notice) }
    ensures carried { IfOk result (λ worded. IfSome worded.carried (IsTextOf present.now.schema.now worded.said.notice)) }
    ensures contents { OnOk result (AreSelected present.now.schema.now present.now.state.now contents.new.items) }
{
    a_slot_offers_all_that_is_selected();
    match item {
        Item::Sync => say_all(alloc, present, slot, contents, steps),
        Item::Periodic => say_all(alloc, present, slot, contents, steps),
        Item::Changes => match changes {
            Some(told) => Ok(say_changes(present, slot, told)),
            None => unreachable!(),
        },
        Item::Incomplete => match &slot.frozen {
            Some(frozen) => say_frozen(alloc, present, slot, frozen),
            None => Ok(say_state(alloc, present, slot, Item::Incomplete)),
        },
        Item::Started => Ok(say_state(alloc, present, slot, Item::Started)),
        Item::Modified => Ok(say_state(alloc, present, slot, Item::Modified)),
        Item::Suspended => Ok(say_state(alloc, present, slot, Item::Suspended)),
        Item::Resumed => Ok(say_state(alloc, present, slot, Item::Resumed)),
        Item::Terminated => Ok(say_state(alloc, present, slot, Item::Terminated)),
    }
}

//! Laws of slots; nothing runs.
ghost use Rattle.std.specs.Prelude.{◌≡◌, ℕ, [], Bool, false, length, List, None, Some};
ghost use Rattle.yp_base.specs.declared.notice.Trigger.{Trigger};
ghost use Rattle.yp_filter.specs.View.{filter_view};
ghost use Rattle.yp_kept.specs.Selection.{selection};
ghost use Rattle.yp_feed.specs.declared.item.Item.TheVariants.{Periodic, Sync};
ghost use Rattle.yp_feed.specs.declared.item.Control.TheVariants.{End, Modify, Resync};
ghost use Rattle.yp_registry.specs.Registry.{live_at};
ghost use Rattle.yp_terms.specs.Terms.{AreTermsOf, Terms};
ghost use Rattle.yp_schema.specs.declared.schema.SchemaNode.{SchemaNode};
ghost use Rattle.yp_journal.specs.History.{JournalState, may_read};
ghost use Rattle.yp_attempt.specs.Moments.{Controls};
ghost use Rattle.yp_attempt.specs.Tracks.{Track, current, freeze_tried, offered_item};
ghost use Rattle.yp_attempt.specs.Workers.{ready};
ghost use Rattle.yp_moment.specs.Windows.{recorded};
ghost use Rattle.yp_slot.specs.declared.classes.Class.{Class};
ghost use Rattle.yp_slot.specs.declared.following.Entered.{Entered};
ghost use Rattle.yp_slot.specs.declared.slot.Slot.{Slot};
ghost use Rattle.yp_slot.specs.Classes.{IsClassOf, member_of};
ghost use Rattle.yp_slot.specs.Slots.{HasEnded, IsQuiet, IsSlotOf};
ghost use Rattle.yp_slot.specs.Steps.{ComesAfter, IsEntered, IsEnteredByPatch, IsPatchOf, IsStepOf, LeavesSelections, entered_moment, entered_track, touches, with_next};

use yp_moment::acts::{no_id_is_given_twice, what_has_ended_stays_so};
use yp_nacm::laws::same_rules_are_one;
use yp_registry::laws::{
    a_call_that_is_done_has_its_subscription, a_configuration_adds_one_subscription,
    an_amendment_changes_one_subscription, an_end_takes_one_subscription_away,
    an_id_is_configured_once,
};
use yp_touch::laws::{
    a_step_without_roots_leaves_the_roots, absorbed_roots_are_those_of_the_window,
};

/// A record is set aside once: where the rule for it was tried, it holds no more at the same position.
pub fn a_record_is_set_aside_once()
    ensures { (n stamp : ℕ) (track : Track) → freeze_tried recorded n stamp (freeze_tried recorded n stamp track) ≡ freeze_tried recorded n stamp track }
{}

/// A slot that offers nothing stands for a track that was looked at, and that offers nothing.
pub fn a_quiet_slot_was_looked_at()
    ensures looked { (nodes : List SchemaNode) (state : JournalState) (slot : Slot) (track : Track) → IsQuiet state slot → IsSlotOf nodes state slot track
        → ready recorded state.position state.stamp track ≡ track }
    ensures none { (nodes : List SchemaNode) (state : JournalState) (slot : Slot) (track : Track) → IsQuiet state slot → IsSlotOf nodes state slot track
        → offered_item recorded state.stamp track ≡ None }
{
    absorbed_roots_are_those_of_the_window();
}

/// What a slot's filter selects for its receiver is what its track has last, where that offers all that is
/// selected: the subscription is live then.
pub fn a_slot_offers_all_that_is_selected()
    ensures sync { (nodes : List SchemaNode) (state : JournalState) (slot : Slot) (track : Track) (stamp : ℕ) → IsSlotOf nodes state slot track → offered_item recorded stamp track ≡ Some Sync
        → selection nodes (filter_view slot.filter) (may_read nodes state slot.feed.receiver) state.rows ≡ current track }
    ensures periodic { (nodes : List SchemaNode) (state : JournalState) (slot : Slot) (track : Track) (stamp : ℕ) → IsSlotOf nodes state slot track → offered_item recorded stamp track ≡ Some Periodic
        → selection nodes (filter_view slot.filter) (may_read nodes state slot.feed.receiver) state.rows ≡ current track }
{}

/// What an entry finds of the subscription to which it does something: one that goes on by other terms or is
/// synchronised again was live before it, and the latter leaves each subscription as it is; one that ends has
/// ended after it. The terms that are handed are of the schema, and each entry leaves the receivers.
pub fn what_an_act_finds()
    ensures receivers { (e : Entered) (before : JournalState) → IsEntered e before → e.present.state.now.receivers ≡ before.receivers }
    ensures modified { (e : Entered) (before : JournalState) → IsEntered e before → (sub : ℕ) (trigger : Trigger) (notify : Bool) → (entered_moment e before).act ≡ Controls sub (Modify trigger notify)
        → (was : Terms) × (live_at sub before.registry.live ≡ Some was) }
    ensures resynced { (e : Entered) (before : JournalState) → IsEntered e before → (sub : ℕ) → (entered_moment e before).act ≡ Controls sub Resync
        → ComesAfter before e.present.state.now × ((was : Terms) × (live_at sub before.registry.live ≡ Some was)) }
    ensures ended { (e : Entered) (before : JournalState) → IsEntered e before → (sub : ℕ) → (entered_moment e before).act ≡ Controls sub End → HasEnded e.present.state.now sub }
    ensures terms { (e : Entered) (before : JournalState) → IsEntered e before → (terms : Terms) → live_at terms.id e.present.state.now.registry.live ≡ Some terms
        → AreTermsOf e.present.schema.now (length e.present.state.now.receivers) terms }
{
    an_amendment_changes_one_subscription();
    an_end_takes_one_subscription_away();
    a_configuration_adds_one_subscription();
    an_id_is_configured_once();
    a_call_that_is_done_has_its_subscription();
    what_has_ended_stays_so();
    no_id_is_given_twice();
}

/// An entry that leaves the rows, and what users may read, leaves each slot that it does nothing to.
pub fn an_entry_that_moves_no_selection_leaves_slots()
    ensures { (e : Entered) (before : JournalState) → LeavesSelections e before → (slot : Slot) (track : Track) → touches (entered_moment e before).act slot.feed.sub ≡ false
        → IsSlotOf e.present.schema.now before slot track → IsSlotOf e.present.schema.now e.present.state.now slot (entered_track e before track) }
{
    an_amendment_changes_one_subscription();
    an_end_takes_one_subscription_away();
    a_configuration_adds_one_subscription();
    an_id_is_configured_once();
    a_call_that_is_done_has_its_subscription();
    what_has_ended_stays_so();
    no_id_is_given_twice();
    same_rules_are_one();
    absorbed_roots_are_those_of_the_window();
}

/// A patch that was entered is one between the two states (`patch`). A slot that stands for a track with what
/// is selected after it has gone on by the entry (`next`), and so has one as it is, where the step of its class
/// has no root (`unmoved`).
pub fn what_a_patch_makes_of_slots()
    ensures patch { (e : Entered) (before : JournalState) → IsEnteredByPatch e before → IsPatchOf e.present.schema.now before e.present.state.now e.changed.now }
    ensures next { (e : Entered) (before : JournalState) → IsEnteredByPatch e before → (slot : Slot) (track : Track) → IsSlotOf e.present.schema.now e.present.state.now slot (with_next e.present.schema.now e.present.state.now track)
        → IsSlotOf e.present.schema.now e.present.state.now slot (entered_track e before track) }
    ensures unmoved { (e : Entered) (before : JournalState) → IsEnteredByPatch e before → (class : Class) → IsStepOf e.present.schema.now before e.present.state.now class []
        → (slot : Slot) (track : Track) → IsClassOf e.present.state.now class (member_of slot) → IsSlotOf e.present.schema.now before slot track
        → IsSlotOf e.present.schema.now e.present.state.now slot (entered_track e before track) }
{
    same_rules_are_one();
    absorbed_roots_are_those_of_the_window();
    a_step_without_roots_leaves_the_roots();
}

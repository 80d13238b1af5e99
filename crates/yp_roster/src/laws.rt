//! Laws of rosters of a journal; nothing runs.
ghost use Rattle.std.specs.Prelude.{◌≡◌, ◌<◌, ◌++◌, ◌∷◌, [], ℕ, List, length, slice_index_or};
ghost use Rattle.yp_schema.specs.declared.schema.SchemaNode.{SchemaNode};
ghost use Rattle.yp_schema.specs.WellFormed.{IsSchema};
ghost use Rattle.yp_journal.specs.declared.entry.Entry.{Entry};
ghost use Rattle.yp_journal.specs.declared.receiver.ReceiverInfo.{ReceiverInfo};
ghost use Rattle.yp_journal.specs.History.{IsLegal, JournalState, first_state, state_of};
ghost use Rattle.yp_attempt.specs.Moments.{MayFollow, Moment};
ghost use Rattle.yp_attempt.specs.Tracks.{Answer};
ghost use Rattle.yp_moment.specs.Entries.{moments_of};
ghost use Rattle.yp_slot.specs.declared.following.Entered.{Entered};
ghost use Rattle.yp_roster.specs.declared.roster.Offer.{Offer};
ghost use Rattle.yp_slot.specs.declared.slot.Slot.{Slot};
ghost use Rattle.yp_roster.specs.Rosters.{IsFoundAt, IsIdleAt, IsRosterAt, IsRosterOf, IsSound};
ghost use Rattle.yp_slot.specs.Slots.{IsSlotOf};
ghost use Rattle.yp_slot.specs.Steps.{IsEntered, entered_moment};

use yp_journal::laws::{
    a_journal_goes_on_entry_by_entry, a_journal_keeps_a_datastore, a_journal_keeps_users_and_names,
};
use yp_moment::acts::a_legal_journal_keeps_its_registry;
use yp_moment::laws::{entries_of_a_legal_journal_may_follow, one_entry_more_is_one_moment_more};

/// A roster that was asked for its next offer still stands for the same entries and answers, whether it found
/// one or none.
pub fn a_roster_that_was_asked_stands_as_before()
    ensures idle { (nodes : List SchemaNode) (state : JournalState) (mine : List ℕ) (past : List Moment) (answers : List Answer) (slots : List Slot)
        → IsIdleAt nodes state mine past answers slots → IsRosterAt nodes state mine past answers slots }
    ensures found { (nodes : List SchemaNode) (state : JournalState) (mine : List ℕ) (past : List Moment) (answers : List Answer) (offer : Offer) (slots : List Slot)
        → IsFoundAt nodes state mine past answers offer slots → IsRosterAt nodes state mine past answers slots }
{}

/// The slot of an offer is there, and stands for the track that offers: it is of that subscription and that
/// receiver.
pub fn the_slot_of_an_offer_stands_for_its_track()
    ensures place { (nodes : List SchemaNode) (state : JournalState) (mine : List ℕ) (past : List Moment) (answers : List Answer) (offer : Offer) (slots : List Slot)
        → IsFoundAt nodes state mine past answers offer slots → offer.place < length slots }
    ensures slot { (nodes : List SchemaNode) (state : JournalState) (mine : List ℕ) (past : List Moment) (answers : List Answer) (offer : Offer) (slots : List Slot)
        → (found : IsFoundAt nodes state mine past answers offer slots) → (slot : Slot) → slot ≡ slice_index_or slots offer.place slot → IsSlotOf nodes state slot found.track }
{}

/// Each state of a legal journal is as an entry has to find and to leave it for a roster.
pub fn the_states_of_a_legal_journal_are_sound()
    ensures { (nodes : List SchemaNode) (receivers : List ReceiverInfo) (entries : List Entry) → IsLegal nodes (first_state receivers) entries
        → IsSound nodes (state_of nodes (first_state receivers) entries) }
{
    a_legal_journal_keeps_its_registry();
    a_journal_goes_on_entry_by_entry();
    a_journal_keeps_a_datastore();
    a_journal_keeps_users_and_names();
}

/// The next entry of a legal journal may follow what its entries are to feeds; and a roster that goes on by it
/// is one of the journal with this entry more.
pub fn a_roster_follows_a_journal()
    ensures follows { (entered : Entered) (receivers : List ReceiverInfo) (entries : List Entry) → IsSchema entered.present.schema.now
        → IsLegal entered.present.schema.now (first_state receivers) (entries ++ entered.entry.now ∷ []) → IsEntered entered (state_of entered.present.schema.now (first_state receivers) entries)
        → MayFollow (moments_of entered.present.schema.now receivers entries) (entered_moment entered (state_of entered.present.schema.now (first_state receivers) entries)) }
    ensures roster { (entered : Entered) (receivers : List ReceiverInfo) (entries : List Entry) (mine : List ℕ) (answers : List Answer) (slots : List Slot) → IsSchema entered.present.schema.now
        → IsLegal entered.present.schema.now (first_state receivers) (entries ++ entered.entry.now ∷ []) → IsEntered entered (state_of entered.present.schema.now (first_state receivers) entries)
        → IsRosterAt entered.present.schema.now entered.present.state.now mine (moments_of entered.present.schema.now receivers entries ++ entered_moment entered (state_of entered.present.schema.now (first_state receivers) entries) ∷ []) answers slots
        → IsRosterOf entered.present.schema.now receivers mine (entries ++ entered.entry.now ∷ []) answers slots }
{
    a_journal_goes_on_entry_by_entry();
    entries_of_a_legal_journal_may_follow();
    one_entry_more_is_one_moment_more();
}

//! Laws of what legal journals make for receivers; nothing runs.
ghost use Rattle.std.specs.Prelude.{◌≡◌, ℕ, ◌+◌, ◌≤◌, ◌++◌, ◌||◌, not, List, [], ◌∷◌, length};
ghost use Rattle.yp_schema.specs.declared.schema.SchemaNode.{SchemaNode};
ghost use Rattle.yp_schema.specs.WellFormed.{IsSchema};
ghost use Rattle.yp_nacm.specs.Same.{are_same_rules};
ghost use Rattle.yp_terms.specs.declared.ask.Ask.{Ask};
ghost use Rattle.yp_journal.specs.declared.entry.Entry.{Entry};
ghost use Rattle.yp_journal.specs.declared.receiver.ReceiverInfo.{ReceiverInfo};
ghost use Rattle.yp_journal.specs.History.{first_state, next_state, state_of, state_at, rules_at, may_read, IsLegal};
ghost use Rattle.yp_feed.specs.Machine.{is_mirrored, resyncs};
ghost use Rattle.yp_attempt.specs.Attempts.{replay};
ghost use Rattle.yp_attempt.specs.Content.{IsLawful};
ghost use Rattle.yp_attempt.specs.Moments.{AllMayFollow};
ghost use Rattle.yp_attempt.specs.Runs.{first_run};
ghost use Rattle.yp_attempt.specs.Tracks.{Answer, Attempt};
ghost use Rattle.yp_mirror.specs.Links.{IsRunOf, IsAttemptOf};
ghost use Rattle.yp_mirror.specs.Stories.{is_control_of, story_of, Leads};
ghost use Rattle.yp_moment.specs.Concealed.{NamesReadable};
ghost use Rattle.yp_moment.specs.Entries.{Grants, selected_at, moment_of, moments_of};
ghost use Rattle.yp_moment.specs.Windows.{recorded};

use crate::acts::{
    a_configuration_starts_its_subscription, a_legal_journal_keeps_its_registry,
    an_establishment_starts_its_subscription, no_id_is_given_twice,
};
use yp_journal::laws::a_journal_keeps_a_datastore;
use yp_mirror::laws::{
    a_journal_tells_its_story, every_attempt_tells_of_what_was_selected,
    nothing_else_changes_while_an_attempt_waits, what_a_journal_makes_is_a_run_of_its_story,
};
use yp_registry::laws::{
    a_call_is_done_or_leaves_the_registry, a_configuration_adds_one_subscription,
    an_establishment_adds_one_subscription, an_id_is_configured_once, an_id_is_given_once,
};
use yp_touch::laws::{a_record_leads_from_the_first_to_the_last, a_window_conceals};

/// In one selection alone no place changed. And where no kind of edits is excluded, the record of a window
/// of selections has an edit where a place changed.
#[tactic(auto, using(crate::proofs::Recording::lawful))]
pub fn what_feeds_know_of_selections_is_lawful()
    ensures { IsLawful recorded }
{}

/// The entries of a legal journal may come one after another: stamps don't fall, and no id is given twice.
pub fn entries_of_a_legal_journal_may_follow()
    ensures { (nodes : List SchemaNode) (receivers : List ReceiverInfo) (entries : List Entry)
        → IsSchema nodes → IsLegal nodes (first_state receivers) entries → AllMayFollow [] (moments_of nodes receivers entries) }
{
    an_establishment_adds_one_subscription();
    an_id_is_given_once();
    a_call_is_done_or_leaves_the_registry();
    an_id_is_configured_once();
    a_configuration_adds_one_subscription();
    a_legal_journal_keeps_its_registry();
    no_id_is_given_twice();
}

/// One entry more is one moment more.
#[tactic(auto, using(crate::proofs::Telling::one_more))]
pub fn one_entry_more_is_one_moment_more()
    ensures { (nodes : List SchemaNode) (receivers : List ReceiverInfo) (entries : List Entry) (entry : Entry)
        → moments_of nodes receivers (entries ++ entry ∷ []) ≡ moments_of nodes receivers entries ++ moment_of nodes (state_of nodes (first_state receivers) entries) entry ∷ [] }
{}

/// A legal journal tells a receiver of a subscription: at each position what the subscription selects there;
/// by each entry whether it modifies, synchronises again or ends the subscription, or the own rules of the
/// receiver's user change; and whether the receiver's copy is to be what is selected, and whether it
/// resynchronises, by the trigger that was asked for.
pub fn a_legal_journal_tells_what_is_selected()
    ensures want { (nodes : List SchemaNode) (receivers : List ReceiverInfo) (entries : List Entry) (receiver id n : ℕ)
        → n ≤ length entries → (story_of (moments_of nodes receivers entries) receiver).want id n ≡ selected_at nodes (state_at nodes receivers entries n) id receiver }
    ensures changes { (nodes : List SchemaNode) (receivers : List ReceiverInfo) (entries : List Entry) (receiver id : ℕ)
        → (before : List Entry) (entry : Entry) (after : List Entry) → entries ≡ before ++ entry ∷ after
        → (story_of (moments_of nodes receivers entries) receiver).changes id (length before + 1)
        ≡ (is_control_of id (moment_of nodes (state_of nodes (first_state receivers) before) entry).act
        || not (are_same_rules (rules_at (state_of nodes (first_state receivers) before) receiver) (rules_at (next_state nodes (state_of nodes (first_state receivers) before) entry.command) receiver))) }
    ensures mirrored { (nodes : List SchemaNode) (receivers : List ReceiverInfo) (entries : List Entry) (receiver : ℕ)
        → IsSchema nodes → IsLegal nodes (first_state receivers) entries
        → (before : List Entry) (entry : Entry) (after : List Entry) (id : ℕ) (ask : Ask) → entries ≡ before ++ entry ∷ after
        → Grants entry id ask → (story_of (moments_of nodes receivers entries) receiver).mirrored id ≡ is_mirrored ask.trigger }
    ensures resyncing { (nodes : List SchemaNode) (receivers : List ReceiverInfo) (entries : List Entry) (receiver : ℕ)
        → IsSchema nodes → IsLegal nodes (first_state receivers) entries
        → (before : List Entry) (entry : Entry) (after : List Entry) (id : ℕ) (ask : Ask) → entries ≡ before ++ entry ∷ after
        → Grants entry id ask → (story_of (moments_of nodes receivers entries) receiver).resyncing id ≡ resyncs ask.trigger }
{
    a_journal_tells_its_story();
    entries_of_a_legal_journal_may_follow();
    an_establishment_starts_its_subscription();
    a_configuration_starts_its_subscription();
}

/// Where no kind of edits is excluded, a record of what a subscription selected at some positions of a legal
/// journal leads from the first selection to the last.
pub fn records_lead_from_selection_to_selection()
    ensures { (nodes : List SchemaNode) (receivers : List ReceiverInfo) (entries : List Entry) (receiver : ℕ)
        → IsSchema nodes → IsLegal nodes (first_state receivers) entries → Leads recorded (story_of (moments_of nodes receivers entries) receiver) }
{
    a_journal_keeps_a_datastore();
    a_record_leads_from_the_first_to_the_last();
}

/// What a legal journal makes for a receiver, with whatever answers of its queue, is a run of the receiver
/// over the story of the journal: so all that is said of such runs is said of it.
pub fn what_a_legal_journal_makes_is_a_run_of_its_story()
    ensures { (nodes : List SchemaNode) (receivers : List ReceiverInfo) (entries : List Entry) (receiver : ℕ) (answers : List Answer)
        → IsSchema nodes → IsLegal nodes (first_state receivers) entries
        → IsRunOf recorded (story_of (moments_of nodes receivers entries) receiver) receiver (replay recorded (receiver ∷ []) first_run (moments_of nodes receivers entries) answers).run }
{
    what_feeds_know_of_selections_is_lawful();
    entries_of_a_legal_journal_may_follow();
    records_lead_from_selection_to_selection();
    what_a_journal_makes_is_a_run_of_its_story();
}

/// What a legal journal makes for a receiver names nothing that its user may not read: neither by the policy
/// at the position at which it was made, nor by the one at the position at which it was offered.
pub fn attempts_name_nothing_unreadable()
    ensures made { (nodes : List SchemaNode) (receivers : List ReceiverInfo) (entries : List Entry) (receiver : ℕ) (answers : List Answer)
        → IsSchema nodes → IsLegal nodes (first_state receivers) entries
        → (id : ℕ) (before : List Attempt) (a : Attempt) → IsAttemptOf (replay recorded (receiver ∷ []) first_run (moments_of nodes receivers entries) answers).run id before a
        → NamesReadable (may_read nodes (state_at nodes receivers entries a.made.position) receiver) a.made.body }
    ensures offered { (nodes : List SchemaNode) (receivers : List ReceiverInfo) (entries : List Entry) (receiver : ℕ) (answers : List Answer)
        → IsSchema nodes → IsLegal nodes (first_state receivers) entries
        → (id : ℕ) (before : List Attempt) (a : Attempt) → IsAttemptOf (replay recorded (receiver ∷ []) first_run (moments_of nodes receivers entries) answers).run id before a
        → NamesReadable (may_read nodes (state_at nodes receivers entries a.at) receiver) a.made.body }
{
    what_a_legal_journal_makes_is_a_run_of_its_story();
    every_attempt_tells_of_what_was_selected();
    nothing_else_changes_while_an_attempt_waits();
    a_window_conceals();
}

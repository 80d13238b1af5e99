//! Laws of what the entries of legal journals do to subscriptions; nothing runs.
ghost use Rattle.std.specs.Prelude.{◌≡◌, ℕ, ◌≤◌, ◌==◌, ◌++◌, true, false, List, [], ◌∷◌, take, Option, Some, None, IsSomeAnd};
ghost use Rattle.std.specs.List.{list_any, AllByRecursion};
ghost use Rattle.yp_base.specs.declared.notice.Trigger.{Trigger};
ghost use Rattle.yp_schema.specs.declared.schema.SchemaNode.{SchemaNode};
ghost use Rattle.yp_schema.specs.WellFormed.{IsSchema};
ghost use Rattle.yp_nacm.specs.declared.policy.Policy.{Policy};
ghost use Rattle.yp_terms.specs.declared.ask.Amend.{Amend};
ghost use Rattle.yp_terms.specs.declared.ask.Ask.{Ask};
ghost use Rattle.yp_terms.specs.Amends.{amended_trigger};
ghost use Rattle.yp_registry.specs.Configuring.{numbers_named};
ghost use Rattle.yp_registry.specs.Ids.{HasRisingIds};
ghost use Rattle.yp_registry.specs.Registry.{IsRegistryOf, Subscriptions, live_at};
ghost use Rattle.yp_terms.specs.Terms.{Terms, with_anchor};
ghost use Rattle.yp_time.specs.Ticks.{tick_limit};
ghost use Rattle.yp_feed.specs.declared.item.Control.TheVariants as feeds;
ghost use Rattle.yp_feed.specs.Machine.{amended};
ghost use Rattle.yp_journal.specs.declared.command.Command.{Command};
ghost use Rattle.yp_journal.specs.declared.command.Command.TheVariants.{Establish, Modify, Delete, Kill, Resync, Configure, Reconfigure, Unconfigure};
ghost use Rattle.yp_journal.specs.declared.entry.Entry.{Entry};
ghost use Rattle.yp_journal.specs.declared.receiver.ReceiverInfo.{ReceiverInfo};
ghost use Rattle.yp_journal.specs.declared.reply.Reply.TheVariants.{Done, Id};
ghost use Rattle.yp_journal.specs.History.{JournalState, first_state, state_of, next_state, reply_to, is_refusal, IsLegal};
ghost use Rattle.yp_attempt.specs.Moments.{Quiet, Starts, Controls, Drops};
ghost use Rattle.yp_mirror.specs.Living.{has_ended, has_receiver};
ghost use Rattle.yp_moment.specs.Entries.{selected_at, moment_of, moments_of};
ghost use Rattle.yp_moment.specs.Followed.{CanBeFollowed};
ghost use Rattle.yp_moment.specs.Ids.{was_given};
ghost use Rattle.yp_moment.specs.Living.{IsLiveAt};

use yp_journal::laws::a_journal_keeps_users_and_names;
use yp_registry::laws::{
    a_call_is_done_or_leaves_the_registry, a_call_that_is_done_has_its_subscription,
    a_configuration_adds_one_subscription, a_configuration_keeps_a_registry,
    an_amendment_changes_one_subscription, an_amendment_keeps_a_registry, an_end_keeps_a_registry,
    an_end_takes_one_subscription_away, an_establishment_adds_one_subscription,
    an_establishment_keeps_a_registry, an_id_is_configured_once, an_id_is_given_once, ids_rise,
    ids_rise_after_each_call, other_calls_leave_what_is_taken,
};

/// The ids of the live subscriptions rise throughout each journal. A legal one keeps its registry one of the
/// schema, and its stamps are ticks.
pub fn a_legal_journal_keeps_its_registry()
    ensures ids { (nodes : List SchemaNode) (receivers : List ReceiverInfo) (entries : List Entry) → HasRisingIds (state_of nodes (first_state receivers) entries).registry }
    ensures registry { (nodes : List SchemaNode) (receivers : List ReceiverInfo) (entries : List Entry)
        → IsLegal nodes (first_state receivers) entries → IsRegistryOf nodes (state_of nodes (first_state receivers) entries).registry }
    ensures stamp { (nodes : List SchemaNode) (receivers : List ReceiverInfo) (entries : List Entry)
        → IsLegal nodes (first_state receivers) entries → (state_of nodes (first_state receivers) entries).stamp ≤ tick_limit }
{
    ids_rise();
    ids_rise_after_each_call();
    an_establishment_keeps_a_registry();
    an_amendment_keeps_a_registry();
    a_configuration_keeps_a_registry();
    an_end_keeps_a_registry();
    a_journal_keeps_users_and_names();
}

/// The trigger with which a legal journal starts or modifies a subscription can be followed: its period is no
/// shorter than the shortest, and it has its anchor. And the id of one that starts has 32 bits.
pub fn what_feeds_are_handed_can_be_followed()
    ensures { (nodes : List SchemaNode) (receivers : List ReceiverInfo) (entries : List Entry)
        → IsLegal nodes (first_state receivers) entries → AllByRecursion (λ m. CanBeFollowed m.act) (moments_of nodes receivers entries) }
{
    ids_rise();
    ids_rise_after_each_call();
    an_establishment_keeps_a_registry();
    an_amendment_keeps_a_registry();
    a_configuration_keeps_a_registry();
    an_end_keeps_a_registry();
    a_journal_keeps_users_and_names();
}

/// An id that was given stays given, whatever the command. One that is given by a command was given to none
/// before.
pub fn no_id_is_given_twice()
    ensures stays { (nodes : List SchemaNode) (state : JournalState) (command : Command) (id : ℕ)
        → was_given id state.registry ≡ true → was_given id (next_state nodes state command).registry ≡ true }
    ensures established { (nodes : List SchemaNode) (state : JournalState) (by : ℕ) (ask : Ask) (id : ℕ) → reply_to nodes state (Establish by ask) ≡ Id id
        → (was_given id state.registry ≡ false) × (was_given id (next_state nodes state (Establish by ask)).registry ≡ true) }
    ensures configured { (nodes : List SchemaNode) (state : JournalState) (id : ℕ) (names : List (List ℕ)) (ask : Ask) → reply_to nodes state (Configure id names ask) ≡ Done
        → (was_given id state.registry ≡ false) × (was_given id (next_state nodes state (Configure id names ask)).registry ≡ true) }
{
    an_id_is_given_once();
    an_id_is_configured_once();
    other_calls_leave_what_is_taken();
}

/// A live subscription has an id that was given. One whose id was given and that isn't live any more stays
/// so: whatever entries come, it selects nothing.
pub fn what_has_ended_stays_so()
    ensures given { (registry : Subscriptions) (id : ℕ) (terms : Terms) → HasRisingIds registry → live_at id registry.live ≡ Some terms → was_given id registry ≡ true }
    ensures ended { (nodes : List SchemaNode) (state : JournalState) (command : Command) (id : ℕ) → was_given id state.registry ≡ true → live_at id state.registry.live ≡ None
        → live_at id (next_state nodes state command).registry.live ≡ None }
    ensures selected { (nodes : List SchemaNode) (state : JournalState) (entries : List Entry) (id receiver : ℕ) → was_given id state.registry ≡ true → live_at id state.registry.live ≡ None
        → selected_at nodes (state_of nodes state entries) id receiver ≡ [] }
{
    no_id_is_given_twice();
    an_establishment_adds_one_subscription();
    an_amendment_changes_one_subscription();
    an_end_takes_one_subscription_away();
    a_configuration_adds_one_subscription();
}

/// A command that is refused does nothing to any subscription.
pub fn a_refused_command_does_nothing()
    ensures { (nodes : List SchemaNode) (state : JournalState) (entry : Entry) → is_refusal entry.reply ≡ true → (moment_of nodes state entry).act ≡ Quiet }
{}

/// An establishment that is given an id starts the subscription of this id: with the trigger that was asked
/// for, a periodic one with its anchor, for the receiver that asked and no other, and not as a configured
/// one. And each moment has the stamp of its entry.
pub fn an_establishment_starts_its_subscription()
    ensures starts { (nodes : List SchemaNode) (receivers : List ReceiverInfo) (entries : List Entry)
        → IsSchema nodes → IsLegal nodes (first_state receivers) entries
        → (before : List Entry) (entry : Entry) (after : List Entry) (by id : ℕ) (ask : Ask) → entries ≡ before ++ entry ∷ after
        → entry.command ≡ Establish by ask → entry.reply ≡ Id id
        → (moment_of nodes (state_of nodes (first_state receivers) before) entry).act
        ≡ Starts id (with_anchor (state_of nodes (first_state receivers) before).stamp ask.trigger) false (λ receiver. list_any (λ other. other == receiver) (by ∷ [])) }
    ensures stamp { (nodes : List SchemaNode) (receivers : List ReceiverInfo) (entries : List Entry)
        → IsSchema nodes → IsLegal nodes (first_state receivers) entries
        → (before : List Entry) (entry : Entry) (after : List Entry) → entries ≡ before ++ entry ∷ after
        → (moment_of nodes (state_of nodes (first_state receivers) before) entry).stamp ≡ entry.stamp }
{
    an_establishment_adds_one_subscription();
    an_id_is_given_once();
    a_legal_journal_keeps_its_registry();
}

/// A subscription that is configured starts with the id that was chosen and the trigger that was asked for, a
/// periodic one with its anchor, for the receivers that were named, and as a configured one.
pub fn a_configuration_starts_its_subscription()
    ensures { (nodes : List SchemaNode) (receivers : List ReceiverInfo) (entries : List Entry)
        → IsSchema nodes → IsLegal nodes (first_state receivers) entries
        → (before : List Entry) (entry : Entry) (after : List Entry) (id : ℕ) (names : List (List ℕ)) (ask : Ask) → entries ≡ before ++ entry ∷ after
        → entry.command ≡ Configure id names ask → entry.reply ≡ Done
        → (moment_of nodes (state_of nodes (first_state receivers) before) entry).act
        ≡ Starts id (with_anchor (state_of nodes (first_state receivers) before).stamp ask.trigger) true (λ receiver. list_any (λ other. other == receiver) (numbers_named (state_of nodes (first_state receivers) before).registry names)) }
{
    a_call_is_done_or_leaves_the_registry();
    an_id_is_configured_once();
    a_configuration_adds_one_subscription();
    a_legal_journal_keeps_its_registry();
}

/// A subscription that is modified is live, and its feeds go on by its amended trigger: this is what they make
/// of it themselves. Receivers are told so where it was configured, and not where one of them modified it.
pub fn an_amendment_modifies_its_subscription()
    ensures modified { (nodes : List SchemaNode) (receivers : List ReceiverInfo) (entries : List Entry)
        → IsSchema nodes → IsLegal nodes (first_state receivers) entries
        → (before : List Entry) (entry : Entry) (after : List Entry) (by id : ℕ) (amend : Amend) → entries ≡ before ++ entry ∷ after
        → entry.command ≡ Modify by id amend → entry.reply ≡ Done
        → IsSomeAnd (live_at id (state_of nodes (first_state receivers) before).registry.live)
        (λ terms. (moment_of nodes (state_of nodes (first_state receivers) before) entry).act
        ≡ Controls id (feeds.Modify (amended_trigger (state_of nodes (first_state receivers) before).stamp amend.trigger terms.trigger) false)) }
    ensures reconfigured { (nodes : List SchemaNode) (receivers : List ReceiverInfo) (entries : List Entry)
        → IsSchema nodes → IsLegal nodes (first_state receivers) entries
        → (before : List Entry) (entry : Entry) (after : List Entry) (id : ℕ) (amend : Amend) → entries ≡ before ++ entry ∷ after
        → entry.command ≡ Reconfigure id amend → entry.reply ≡ Done
        → IsSomeAnd (live_at id (state_of nodes (first_state receivers) before).registry.live)
        (λ terms. (moment_of nodes (state_of nodes (first_state receivers) before) entry).act
        ≡ Controls id (feeds.Modify (amended_trigger (state_of nodes (first_state receivers) before).stamp amend.trigger terms.trigger) true)) }
    ensures trigger { (now : ℕ) (given : Option Trigger) (kept : Trigger) → amended kept (amended_trigger now given kept) ≡ amended_trigger now given kept }
{
    a_call_is_done_or_leaves_the_registry();
    a_call_that_is_done_has_its_subscription();
    an_amendment_changes_one_subscription();
}

/// A receiver that asks for a full update has its feed synchronised again.
pub fn a_resynchronisation_is_owed()
    ensures { (nodes : List SchemaNode) (state : JournalState) (entry : Entry) (by id : ℕ) → entry.command ≡ Resync by id → entry.reply ≡ Done
        → (moment_of nodes state entry).act ≡ Controls id feeds.Resync }
{}

/// A subscription that its receiver deletes is dropped, and nothing more is told of it. One that is killed or
/// taken out of the configuration ends, which its receivers are told. After that it selects nothing.
pub fn an_end_is_told_or_not()
    ensures deleted { (nodes : List SchemaNode) (state : JournalState) (entry : Entry) (by id : ℕ) → entry.command ≡ Delete by id → entry.reply ≡ Done
        → (moment_of nodes state entry).act ≡ Drops id }
    ensures killed { (nodes : List SchemaNode) (state : JournalState) (entry : Entry) (by id : ℕ) → entry.command ≡ Kill by id → entry.reply ≡ Done
        → (moment_of nodes state entry).act ≡ Controls id feeds.End }
    ensures unconfigured { (nodes : List SchemaNode) (state : JournalState) (entry : Entry) (id : ℕ) → entry.command ≡ Unconfigure id → entry.reply ≡ Done
        → (moment_of nodes state entry).act ≡ Controls id feeds.End }
    ensures none_after_deletion { (nodes : List SchemaNode) (state : JournalState) (by id receiver : ℕ) → reply_to nodes state (Delete by id) ≡ Done
        → selected_at nodes (next_state nodes state (Delete by id)) id receiver ≡ [] }
    ensures none_after_kill { (nodes : List SchemaNode) (state : JournalState) (by id receiver : ℕ) → reply_to nodes state (Kill by id) ≡ Done
        → selected_at nodes (next_state nodes state (Kill by id)) id receiver ≡ [] }
    ensures none_unconfigured { (nodes : List SchemaNode) (state : JournalState) (id receiver : ℕ) → reply_to nodes state (Unconfigure id) ≡ Done
        → selected_at nodes (next_state nodes state (Unconfigure id)) id receiver ≡ [] }
{
    a_call_is_done_or_leaves_the_registry();
    an_end_takes_one_subscription_away();
}

/// A subscription that has a receiver by the entries of a legal journal up to a position, and hasn't ended by
/// them, is live there: the registry has it, for this receiver.
pub fn what_has_a_receiver_is_live_until_it_ends()
    ensures { (nodes : List SchemaNode) (receivers : List ReceiverInfo) (entries : List Entry) → IsLegal nodes (first_state receivers) entries
        → (receiver id n : ℕ) → has_receiver id receiver (take n (moments_of nodes receivers entries)) ≡ true → has_ended id (take n (moments_of nodes receivers entries)) ≡ false
        → IsLiveAt nodes receivers entries receiver id n }
{
    ids_rise();
    ids_rise_after_each_call();
    an_id_is_given_once();
    an_establishment_adds_one_subscription();
    an_id_is_configured_once();
    a_configuration_adds_one_subscription();
    an_amendment_changes_one_subscription();
    an_end_takes_one_subscription_away();
    a_call_is_done_or_leaves_the_registry();
    a_call_that_is_done_has_its_subscription();
    a_legal_journal_keeps_its_registry();
    no_id_is_given_twice();
}

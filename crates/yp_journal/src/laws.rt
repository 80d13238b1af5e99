//! Laws of journals, which the definitions keep; nothing runs.
ghost use Rattle.std.specs.Prelude.{◌≡◌, ◌+◌, ◌++◌, ◌∷◌, [], List, length, map, true, ◌≢◌};
ghost use Rattle.yp_schema.specs.declared.schema.SchemaNode.{SchemaNode};
ghost use Rattle.yp_schema.specs.Datastore.{IsDatastore};
ghost use Rattle.yp_nacm.specs.declared.policy.Policy.{Policy};
ghost use Rattle.yp_journal.specs.declared.command.Command.{Command};
ghost use Rattle.yp_journal.specs.declared.command.Command.TheVariants.{Rules};
ghost use Rattle.yp_journal.specs.declared.entry.Entry.{Entry};
ghost use Rattle.yp_journal.specs.declared.receiver.ReceiverInfo.{ReceiverInfo};
ghost use Rattle.yp_journal.specs.History.{JournalState, first_state, one_further, next_state, reply_to, is_refusal, state_after, state_of, MayFollow, IsLegal};

use yp_edit::laws::a_patch_keeps_a_datastore;

/// A refused command changes the position alone.
#[tactic(auto, using(crate::specs::JournalLaws::refusal_alone))]
pub fn a_refusal_moves_the_position_alone()
    ensures refusal_alone { (nodes : List SchemaNode) (state : JournalState) (command : Command)
        → is_refusal (reply_to nodes state command) ≡ true → next_state nodes state command ≡ one_further state }
{}

/// The state after one command or entry more is what the command leaves of the state before, the position
/// is one further with each entry, and the receivers stay.
#[tactic(auto, using(crate::specs::JournalLaws::state_more, crate::specs::JournalLaws::entries_more, crate::specs::JournalLaws::position_of, crate::specs::JournalLaws::receivers_stay))]
pub fn a_journal_goes_on_entry_by_entry()
    ensures commands { (nodes : List SchemaNode) (state : JournalState) (commands : List Command) (command : Command)
        → state_after nodes state (commands ++ command ∷ []) ≡ next_state nodes (state_after nodes state commands) command }
    ensures entries { (nodes : List SchemaNode) (state : JournalState) (entries : List Entry) (entry : Entry)
        → state_of nodes state (entries ++ entry ∷ []) ≡ next_state nodes (state_of nodes state entries) entry.command }
    ensures position { (nodes : List SchemaNode) (state : JournalState) (entries : List Entry)
        → (state_of nodes state entries).position ≡ state.position + length entries }
    ensures receivers { (nodes : List SchemaNode) (state : JournalState) (entries : List Entry)
        → (state_of nodes state entries).receivers ≡ state.receivers }
{}

/// A policy stays until another one comes, and one that comes leaves the rows and the registry.
#[tactic(auto, using(crate::specs::JournalLaws::policy_stays))]
pub fn a_policy_stays_until_another_comes()
    ensures stays { (nodes : List SchemaNode) (state : JournalState) (command : Command)
        → ((policy : Policy) → command ≢ Rules policy) → (next_state nodes state command).policy ≡ state.policy }
    ensures comes { (nodes : List SchemaNode) (state : JournalState) (policy : Policy) → (next_state nodes state (Rules policy)).policy ≡ policy }
    ensures rows { (nodes : List SchemaNode) (state : JournalState) (policy : Policy) → (next_state nodes state (Rules policy)).rows ≡ state.rows }
    ensures registry { (nodes : List SchemaNode) (state : JournalState) (policy : Policy) → (next_state nodes state (Rules policy)).registry ≡ state.registry }
{}

/// The registry has the users and the names of the receivers, and no command changes these; so it has as
/// many users as there are receivers.
#[tactic(auto, using(crate::specs::JournalLaws::next_users, crate::specs::JournalLaws::next_names, crate::specs::JournalLaws::users_stay, crate::specs::JournalLaws::names_stay))]
pub fn a_journal_keeps_users_and_names()
    ensures opening_users { (receivers : List ReceiverInfo) → (first_state receivers).registry.users ≡ map (λ receiver. receiver.user) receivers }
    ensures opening_names { (receivers : List ReceiverInfo) → (first_state receivers).registry.names ≡ map (λ receiver. receiver.name) receivers }
    ensures next_users { (nodes : List SchemaNode) (state : JournalState) (command : Command)
        → (next_state nodes state command).registry.users ≡ state.registry.users }
    ensures next_names { (nodes : List SchemaNode) (state : JournalState) (command : Command)
        → (next_state nodes state command).registry.names ≡ state.registry.names }
    ensures users { (nodes : List SchemaNode) (state : JournalState) (entries : List Entry)
        → (state_of nodes state entries).registry.users ≡ state.registry.users }
    ensures names { (nodes : List SchemaNode) (state : JournalState) (entries : List Entry)
        → (state_of nodes state entries).registry.names ≡ state.registry.names }
{}

/// A legal journal stays legal with one entry more that may follow.
#[tactic(auto, using(crate::specs::JournalLaws::legal_more))]
pub fn a_legal_journal_goes_on()
    ensures legal_more { (nodes : List SchemaNode) (state : JournalState) (entries : List Entry) (entry : Entry)
        → IsLegal nodes state entries → MayFollow nodes (state_of nodes state entries) entry → IsLegal nodes state (entries ++ entry ∷ []) }
{}

/// A journal that goes on from the state that another leaves is one with it: it leaves the same state, and is legal where
/// both are.
#[tactic(auto, using(crate::specs::JournalLaws::state_both, crate::specs::JournalLaws::legal_both))]
pub fn a_journal_goes_on_where_another_ends()
    ensures state { (nodes : List SchemaNode) (state : JournalState) (entries more : List Entry)
        → state_of nodes state (entries ++ more) ≡ state_of nodes (state_of nodes state entries) more }
    ensures legal { (nodes : List SchemaNode) (state : JournalState) (entries more : List Entry)
        → IsLegal nodes state entries → IsLegal nodes (state_of nodes state entries) more → IsLegal nodes state (entries ++ more) }
{}

/// The rows that the first command finds, none, are a datastore of each schema, and each command leaves a
/// datastore a datastore; so all entries do.
pub fn a_journal_keeps_a_datastore()
    ensures opening { (nodes : List SchemaNode) (receivers : List ReceiverInfo) → IsDatastore nodes (first_state receivers).rows }
    ensures command { (nodes : List SchemaNode) (state : JournalState) (command : Command)
        → IsDatastore nodes state.rows → IsDatastore nodes (next_state nodes state command).rows }
    ensures entries { (nodes : List SchemaNode) (state : JournalState) (entries : List Entry)
        → IsDatastore nodes state.rows → IsDatastore nodes (state_of nodes state entries).rows }
{
    a_patch_keeps_a_datastore();
}

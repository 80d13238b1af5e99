//! Laws of the registry, which the definitions keep; nothing runs.
ghost use Rattle.std.specs.Prelude.{◌≡◌, ◌≢◌, ◌+◌, ◌<◌, ◌≤◌, ℕ, List, Option, Some, None, Ok, Err, IsSomeAnd, length, not, option_map, false, true};
ghost use Rattle.yp_base.specs.declared.notice.Trigger.{Trigger};
ghost use Rattle.yp_nacm.specs.declared.policy.Policy.{Policy};
ghost use Rattle.yp_schema.specs.declared.schema.SchemaNode.{SchemaNode};
ghost use Rattle.yp_terms.specs.declared.ask.Amend.{Amend};
ghost use Rattle.yp_terms.specs.declared.ask.Ask.{Ask};
ghost use Rattle.yp_terms.specs.declared.refused.Refused.{Refused};
ghost use Rattle.yp_terms.specs.Amends.{HasGivenAnchor, is_other_kind, amended_trigger, amended_terms};
ghost use Rattle.yp_terms.specs.Terms.{has_period, is_established_by, has_sync, HasAnchor, Terms};
ghost use Rattle.yp_registry.specs.Amending.{changed_terms, modified_by, modify_answer, reconfigure_answer, reconfigured};
ghost use Rattle.yp_registry.specs.Calls.{delete_answer, deleted_by, done_unless, kill_answer, killed_by, left_unless, resync_answer, unconfigure_answer, unconfigured, live_without};
ghost use Rattle.yp_registry.specs.Configuring.{configure_answer, in_order, is_id_taken, newly_configured};
ghost use Rattle.yp_registry.specs.Ids.{HasRisingIds};
ghost use Rattle.yp_registry.specs.Registry.{IsRegistryOf, Subscriptions, establish_answer, established, live_at, next_id, no_subscriptions, terms_for};
ghost use Rattle.yp_time.specs.Ticks.{tick_limit};

use yp_filter::laws::a_filter_that_is_read_fits;

/// The ids of the live subscriptions rise from the first call on.
pub fn ids_rise()
    ensures first { (users names : List (List ℕ)) → HasRisingIds (no_subscriptions users names) }
    ensures kept { (nodes : List SchemaNode) (policy : Policy) (registry : Subscriptions) (by : ℕ) (ask : Ask) (now : ℕ)
        → HasRisingIds registry → HasRisingIds (established nodes policy registry by ask now) }
{}

/// The id that is given is the next one. No live subscription has it, each later one is past it, and so
/// none is given twice.
pub fn an_id_is_given_once()
    ensures next { (nodes : List SchemaNode) (policy : Policy) (registry : Subscriptions) (by : ℕ) (ask : Ask) (now id : ℕ)
        → establish_answer nodes policy registry by ask now ≡ Ok id → (id ≡ next_id registry.given) × (id < next_id (established nodes policy registry by ask now).given) }
    ensures never_falls { (nodes : List SchemaNode) (policy : Policy) (registry : Subscriptions) (by : ℕ) (ask : Ask) (now : ℕ)
        → registry.given ≤ (established nodes policy registry by ask now).given }
    ensures fresh { (registry : Subscriptions) → HasRisingIds registry → live_at (next_id registry.given) registry.live ≡ None }
{}

/// By the id that is given the new terms are found, and by each other id what was found before.
pub fn an_establishment_adds_one_subscription()
    ensures found { (nodes : List SchemaNode) (policy : Policy) (registry : Subscriptions) (by : ℕ) (ask : Ask) (now id : ℕ)
        → HasRisingIds registry → establish_answer nodes policy registry by ask now ≡ Ok id
        → live_at id (established nodes policy registry by ask now).live ≡ Some (terms_for nodes registry by ask now) }
    ensures others { (nodes : List SchemaNode) (policy : Policy) (registry : Subscriptions) (by : ℕ) (ask : Ask) (now other : ℕ)
        → other ≢ next_id registry.given → live_at other (established nodes policy registry by ask now).live ≡ live_at other registry.live }
{}

/// A refusal leaves the registry as it was.
pub fn a_refusal_leaves_the_registry()
    ensures { (nodes : List SchemaNode) (policy : Policy) (registry : Subscriptions) (by : ℕ) (ask : Ask) (now : ℕ) (refusal : Refused)
        → establish_answer nodes policy registry by ask now ≡ Err refusal → established nodes policy registry by ask now ≡ registry }
{}

/// A registry without subscriptions is one of each schema, and an establishment, refused or not, leaves a
/// registry of the schema one.
pub fn an_establishment_keeps_a_registry()
    ensures first { (nodes : List SchemaNode) (users names : List (List ℕ)) → IsRegistryOf nodes (no_subscriptions users names) }
    ensures kept { (nodes : List SchemaNode) (policy : Policy) (registry : Subscriptions) (by : ℕ) (ask : Ask) (now : ℕ)
        → by < length registry.users → HasAnchor ask.trigger → now ≤ tick_limit → IsRegistryOf nodes registry
        → IsRegistryOf nodes (established nodes policy registry by ask now) }
{
    a_filter_that_is_read_fits();
}

/// An establishment, refused or not, leaves the receivers as they were declared.
pub fn an_establishment_leaves_the_receivers()
    ensures users { (nodes : List SchemaNode) (policy : Policy) (registry : Subscriptions) (by : ℕ) (ask : Ask) (now : ℕ)
        → (established nodes policy registry by ask now).users ≡ registry.users }
    ensures names { (nodes : List SchemaNode) (policy : Policy) (registry : Subscriptions) (by : ℕ) (ask : Ask) (now : ℕ)
        → (established nodes policy registry by ask now).names ≡ registry.names }
{}

/// A further call that is refused leaves the registry as it was, and one that is done what it is to leave.
pub fn a_call_is_done_or_leaves_the_registry()
    ensures refused { (refusal : Option Refused) (before after : Subscriptions) (refused : Refused) → done_unless refusal ≡ Err refused → left_unless refusal before after ≡ before }
    ensures done { (refusal : Option Refused) (before after : Subscriptions) → done_unless refusal ≡ Ok tt → left_unless refusal before after ≡ after }
{}

/// A further call that is done is about a live subscription that it may be about.
pub fn a_call_that_is_done_has_its_subscription()
    ensures modified { (nodes : List SchemaNode) (policy : Policy) (registry : Subscriptions) (by id : ℕ) (amend : Amend)
        → modify_answer nodes policy registry by id amend ≡ Ok tt → IsSomeAnd (live_at id registry.live) (λ terms. (is_established_by by terms ≡ true) × (is_other_kind amend.trigger (Some terms) ≡ false)) }
    ensures reconfigured { (nodes : List SchemaNode) (registry : Subscriptions) (id : ℕ) (amend : Amend)
        → reconfigure_answer nodes registry id amend ≡ Ok tt → IsSomeAnd (live_at id registry.live) (λ terms. (terms.configured ≡ true) × (is_other_kind amend.trigger (Some terms) ≡ false)) }
    ensures deleted { (policy : Policy) (registry : Subscriptions) (by id : ℕ) → delete_answer policy registry by id ≡ Ok tt → IsSomeAnd (live_at id registry.live) (λ terms. is_established_by by terms ≡ true) }
    ensures killed { (policy : Policy) (registry : Subscriptions) (by id : ℕ) → kill_answer policy registry by id ≡ Ok tt → IsSomeAnd (live_at id registry.live) (λ terms. not terms.configured ≡ true) }
    ensures resynced { (policy : Policy) (registry : Subscriptions) (by id : ℕ)
        → resync_answer policy registry by id ≡ Ok tt → IsSomeAnd (live_at id registry.live) (λ terms. (is_established_by by terms ≡ true) × (has_sync terms.trigger ≡ true)) }
    ensures unconfigured { (registry : Subscriptions) (id : ℕ) → unconfigure_answer registry id ≡ Ok tt → IsSomeAnd (live_at id registry.live) (λ terms. terms.configured ≡ true) }
{}

/// An amendment, refused or not, leaves a registry of the schema one.
pub fn an_amendment_keeps_a_registry()
    ensures modified { (nodes : List SchemaNode) (policy : Policy) (registry : Subscriptions) (by id : ℕ) (amend : Amend) (now : ℕ)
        → HasGivenAnchor amend.trigger → now ≤ tick_limit → IsRegistryOf nodes registry → IsRegistryOf nodes (modified_by nodes policy registry by id amend now) }
    ensures reconfigured { (nodes : List SchemaNode) (registry : Subscriptions) (id : ℕ) (amend : Amend) (now : ℕ)
        → HasGivenAnchor amend.trigger → now ≤ tick_limit → IsRegistryOf nodes registry → IsRegistryOf nodes (reconfigured nodes registry id amend now) }
{
    a_filter_that_is_read_fits();
}

/// So does a configuration.
pub fn a_configuration_keeps_a_registry()
    ensures { (nodes : List SchemaNode) (registry : Subscriptions) (id : ℕ) (receivers : List (List ℕ)) (ask : Ask) (now : ℕ)
        → HasAnchor ask.trigger → now ≤ tick_limit → IsRegistryOf nodes registry → IsRegistryOf nodes (newly_configured nodes registry id receivers ask now) }
{
    a_filter_that_is_read_fits();
}

/// So does a call that ends a subscription.
pub fn an_end_keeps_a_registry()
    ensures deleted { (nodes : List SchemaNode) (policy : Policy) (registry : Subscriptions) (by id : ℕ) → IsRegistryOf nodes registry → IsRegistryOf nodes (deleted_by policy registry by id) }
    ensures killed { (nodes : List SchemaNode) (policy : Policy) (registry : Subscriptions) (by id : ℕ) → IsRegistryOf nodes registry → IsRegistryOf nodes (killed_by policy registry by id) }
    ensures unconfigured { (nodes : List SchemaNode) (registry : Subscriptions) (id : ℕ) → IsRegistryOf nodes registry → IsRegistryOf nodes (unconfigured registry id) }
{}

/// The ids of the live subscriptions rise after each further call too.
pub fn ids_rise_after_each_call()
    ensures modified { (nodes : List SchemaNode) (policy : Policy) (registry : Subscriptions) (by id : ℕ) (amend : Amend) (now : ℕ) → HasRisingIds registry → HasRisingIds (modified_by nodes policy registry by id amend now) }
    ensures reconfigured { (nodes : List SchemaNode) (registry : Subscriptions) (id : ℕ) (amend : Amend) (now : ℕ) → HasRisingIds registry → HasRisingIds (reconfigured nodes registry id amend now) }
    ensures deleted { (policy : Policy) (registry : Subscriptions) (by id : ℕ) → HasRisingIds registry → HasRisingIds (deleted_by policy registry by id) }
    ensures killed { (policy : Policy) (registry : Subscriptions) (by id : ℕ) → HasRisingIds registry → HasRisingIds (killed_by policy registry by id) }
    ensures unconfigured { (registry : Subscriptions) (id : ℕ) → HasRisingIds registry → HasRisingIds (unconfigured registry id) }
    ensures configured { (nodes : List SchemaNode) (registry : Subscriptions) (id : ℕ) (receivers : List (List ℕ)) (ask : Ask) (now : ℕ) → HasRisingIds registry → HasRisingIds (newly_configured nodes registry id receivers ask now) }
{}

/// An id that is configured is taken from then on, whatever is called, and is never configured again. No live
/// subscription has it before.
pub fn an_id_is_configured_once()
    ensures taken { (nodes : List SchemaNode) (registry : Subscriptions) (id : ℕ) (receivers : List (List ℕ)) (ask : Ask) (now : ℕ)
        → configure_answer nodes registry id receivers ask ≡ Ok tt → is_id_taken id (newly_configured nodes registry id receivers ask now) ≡ true }
    ensures stays { (nodes : List SchemaNode) (registry : Subscriptions) (id : ℕ) (receivers : List (List ℕ)) (ask : Ask) (now : ℕ) (other : ℕ)
        → is_id_taken other registry ≡ true → is_id_taken other (newly_configured nodes registry id receivers ask now) ≡ true }
    ensures refused { (nodes : List SchemaNode) (registry : Subscriptions) (id : ℕ) (receivers : List (List ℕ)) (ask : Ask)
        → is_id_taken id registry ≡ true → configure_answer nodes registry id receivers ask ≢ Ok tt }
    ensures fresh { (nodes : List SchemaNode) (registry : Subscriptions) (id : ℕ) (receivers : List (List ℕ)) (ask : Ask)
        → HasRisingIds registry → configure_answer nodes registry id receivers ask ≡ Ok tt → live_at id registry.live ≡ None }
{}

/// No other call takes an id or frees one.
pub fn other_calls_leave_what_is_taken()
    ensures established { (nodes : List SchemaNode) (policy : Policy) (registry : Subscriptions) (by : ℕ) (ask : Ask) (now : ℕ) → (established nodes policy registry by ask now).taken ≡ registry.taken }
    ensures modified { (nodes : List SchemaNode) (policy : Policy) (registry : Subscriptions) (by id : ℕ) (amend : Amend) (now : ℕ) → (modified_by nodes policy registry by id amend now).taken ≡ registry.taken }
    ensures reconfigured { (nodes : List SchemaNode) (registry : Subscriptions) (id : ℕ) (amend : Amend) (now : ℕ) → (reconfigured nodes registry id amend now).taken ≡ registry.taken }
    ensures deleted { (policy : Policy) (registry : Subscriptions) (by id : ℕ) → (deleted_by policy registry by id).taken ≡ registry.taken }
    ensures killed { (policy : Policy) (registry : Subscriptions) (by id : ℕ) → (killed_by policy registry by id).taken ≡ registry.taken }
    ensures unconfigured { (registry : Subscriptions) (id : ℕ) → (unconfigured registry id).taken ≡ registry.taken }
{}

/// Each further call, refused or not, leaves the receivers as they were declared.
pub fn each_call_leaves_the_receivers()
    ensures modified { (nodes : List SchemaNode) (policy : Policy) (registry : Subscriptions) (by id : ℕ) (amend : Amend) (now : ℕ) → ((modified_by nodes policy registry by id amend now).users ≡ registry.users) × ((modified_by nodes policy registry by id amend now).names ≡ registry.names) }
    ensures reconfigured { (nodes : List SchemaNode) (registry : Subscriptions) (id : ℕ) (amend : Amend) (now : ℕ) → ((reconfigured nodes registry id amend now).users ≡ registry.users) × ((reconfigured nodes registry id amend now).names ≡ registry.names) }
    ensures deleted { (policy : Policy) (registry : Subscriptions) (by id : ℕ) → ((deleted_by policy registry by id).users ≡ registry.users) × ((deleted_by policy registry by id).names ≡ registry.names) }
    ensures killed { (policy : Policy) (registry : Subscriptions) (by id : ℕ) → ((killed_by policy registry by id).users ≡ registry.users) × ((killed_by policy registry by id).names ≡ registry.names) }
    ensures unconfigured { (registry : Subscriptions) (id : ℕ) → ((unconfigured registry id).users ≡ registry.users) × ((unconfigured registry id).names ≡ registry.names) }
    ensures configured { (nodes : List SchemaNode) (registry : Subscriptions) (id : ℕ) (receivers : List (List ℕ)) (ask : Ask) (now : ℕ) → ((newly_configured nodes registry id receivers ask now).users ≡ registry.users) × ((newly_configured nodes registry id receivers ask now).names ≡ registry.names) }
{}

/// By the id of an amended subscription its amended terms are found, and by each other id what was found
/// before.
pub fn an_amendment_changes_one_subscription()
    ensures found { (nodes : List SchemaNode) (amend : Amend) (now id : ℕ) (live : List Terms)
        → live_at id (changed_terms id (amended_terms nodes amend now) live) ≡ option_map (amended_terms nodes amend now) (live_at id live) }
    ensures others { (nodes : List SchemaNode) (amend : Amend) (now id other : ℕ) (live : List Terms)
        → other ≢ id → live_at other (changed_terms id (amended_terms nodes amend now) live) ≡ live_at other live }
{}

/// By the id of a subscription that has ended none is found, and by each other id what was found before.
pub fn an_end_takes_one_subscription_away()
    ensures found { (id : ℕ) (live : List Terms) → live_at id (live_without id live) ≡ None }
    ensures others { (id other : ℕ) (live : List Terms) → other ≢ id → live_at other (live_without id live) ≡ live_at other live }
{}

/// By a new id the terms are found that are put in their place, and by each other id what was found before.
pub fn a_configuration_adds_one_subscription()
    ensures found { (new : Terms) (live : List Terms) → live_at new.id live ≡ None → live_at new.id (in_order new live) ≡ Some new }
    ensures others { (new : Terms) (live : List Terms) (other : ℕ) → other ≢ new.id → live_at other (in_order new live) ≡ live_at other live }
{}

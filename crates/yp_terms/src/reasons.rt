//! The reasons to refuse a call that need only what it asks for and the terms that it is about, each tested by
//! itself.
ghost use Rattle.std.specs.Prelude.{◌≡◌, option_copied, option_map, true, Err, IfOk, Ok, Some, if◌then◌else◌};
ghost use Rattle.yp_base.specs.Results.{or_fault};
ghost use Rattle.yp_filter.specs.Fits.{filter_fits};
ghost use Rattle.yp_filter.specs.View.{filter_view};
ghost use Rattle.yp_terms.specs.Amends.{amend_reasons, given_filter, is_given_short, is_other_kind, is_unread};
ghost use Rattle.yp_terms.specs.Refusals.{Gives, first_refusal, or_refused};
ghost use Rattle.yp_terms.specs.Terms.{asked_by, is_json, is_operational, is_too_short};

use crate::ask::{Amend, FilterAsk};
use crate::refused::Refused;
use crate::terms::Terms;
use crate::triggers::differ_in_kind;
use std::alloc::Global;
use yp_base::notice::Trigger;
use yp_filter::fault::FilterFault;
use yp_filter::filter::Filter;
use yp_schema::schema::Schema;
use yp_value::payload::Payload;

/// The shortest period, in ticks of a hundredth of a second.
pub const SHORTEST_PERIOD: u32 = 10;

/// Whether an encoding is JSON's, by its name alone or with its module's.
pub fn is_json(encoding: &str) -> bool
    ensures { result ≡ is_json encoding.now }
{
    encoding == "encode-json" || encoding == "ietf-subscribed-notifications:encode-json"
}

/// Whether a datastore is the operational one.
pub fn is_operational(datastore: &str) -> bool
    ensures { result ≡ is_operational datastore.now }
{
    datastore == "ietf-datastores:operational"
}

/// Reads the filter that is asked for. It is refused where it is an XPath filter, or a subtree filter with a
/// fault.
pub fn read_filter(alloc: Global, schema: &Schema, asked: &FilterAsk) -> Result<Filter, Refused>
    ensures read { Gives filter_view result (or_fault Refused.FilterUnsupported (asked_by schema.now asked.now)) }
    ensures fits { IfOk result (λ filter. filter_fits schema.now (filter_view filter) ≡ true) }
{
    match asked {
        FilterAsk::All => Ok(Filter::All),
        FilterAsk::Subtree(json) => read_subtree(alloc, schema, json),
        FilterAsk::XPath => Err(Refused::FilterUnsupported),
    }
}

/// Reads a subtree filter.
fn read_subtree(alloc: Global, schema: &Schema, json: &Payload) -> Result<Filter, Refused>
    ensures read { Gives filter_view result (or_fault Refused.FilterUnsupported (asked_by schema.now (FilterAsk.Subtree json.now))) }
    ensures fits { IfOk result (λ filter. filter_fits schema.now (filter_view filter) ≡ true) }
{
    match Filter::read(alloc, schema, &json.json(alloc)?) {
        Ok(filter) => Ok(filter),
        Err(error) => match error.fault {
            FilterFault::Memory => Err(Refused::Memory),
            _ => Err(Refused::FilterUnsupported),
        },
    }
}

/// Whether updates are periodic and their period is shorter than the shortest.
pub fn is_too_short(trigger: &Trigger) -> bool
    ensures { result ≡ is_too_short trigger.now }
{
    match trigger {
        Trigger::Periodic { period, .. } => *period < SHORTEST_PERIOD,
        Trigger::OnChange { .. } => false,
    }
}

/// Reads the filter that is given, where one is and that can be done.
fn read_given(
    alloc: Global,
    schema: &Schema,
    given: &Option<FilterAsk>,
) -> Result<Option<Filter>, Refused>
    ensures { Gives (λ filter. option_map filter_view filter) result (if is_unread schema.now given.now then Err Refused.FilterUnsupported else Ok (given_filter schema.now given.now)) }
{
    match given {
        Some(asked) => Ok(Some(read_filter(alloc, schema, asked)?)),
        None => Ok(None),
    }
}

/// Whether a trigger is given whose period is too short.
fn is_given_short(given: &Option<Trigger>) -> bool
    ensures { result ≡ is_given_short given.now }
{
    match given {
        Some(trigger) => is_too_short(trigger),
        None => false,
    }
}

/// Whether a trigger is given that is of the other kind than the subscription's.
fn is_other_kind(given: &Option<Trigger>, terms: &Terms) -> bool
    ensures { result ≡ is_other_kind given.now (Some terms.now) }
{
    match given {
        Some(trigger) => differ_in_kind(trigger, terms.trigger()),
        None => false,
    }
}

/// The filter that the subscription that was found is amended with, where one is given. The amendment is refused
/// where the filter can't be read, where the period that is given is too short, where no subscription was found,
/// and where the trigger that is given is of the other kind than its own: the first reason in this order is
/// answered.
pub fn admit_amendment(
    alloc: Global,
    schema: &Schema,
    amend: &Amend,
    found: Option<&Terms>,
) -> Result<Option<Filter>, Refused>
    ensures { Gives (λ filter. option_map filter_view filter) result (or_refused (first_refusal (amend_reasons schema.now amend.now (option_copied found.entry))) (given_filter schema.now amend.now.filter)) }
{
    let filter = read_given(alloc, schema, &amend.filter)?;
    if is_given_short(&amend.trigger) {
        return Err(Refused::PeriodUnsupported {
            hint: SHORTEST_PERIOD,
        });
    }
    match found {
        None => Err(Refused::NoSuchSubscription { resync: false }),
        Some(terms) => {
            if is_other_kind(&amend.trigger, terms) {
                Err(Refused::InvalidTrigger)
            } else {
                Ok(filter)
            }
        }
    }
}

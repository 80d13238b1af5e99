//! The call that configures a subscription (RFC 8639 section 2.5.2).
ghost use Rattle.std.specs.Prelude.{◌≡◌, ◌<◌, ◌≤◌, ◌^◌, ℕ, List, length, IfOk, OnErr, OnOk};
ghost use Rattle.std.specs.List.{slice_get};
ghost use Rattle.yp_filter.specs.Filters.{Asked};
ghost use Rattle.yp_filter.specs.View.{filter_view};
ghost use Rattle.yp_base.specs.Types.{is_among};
ghost use Rattle.yp_registry.specs.Configuring.{are_declared, configure_answer, configure_reasons, is_asked, is_configurable, newly_configured, numbers_named};
ghost use Rattle.yp_terms.specs.Refusals.{first_refusal, or_refused, Gives};
ghost use Rattle.yp_terms.specs.Terms.{asked_for, HasAnchor};
ghost use Rattle.yp_registry.specs.Registry.{IsRegistryOf};
ghost use Rattle.yp_time.specs.Ticks.{tick_limit};

use crate::laws::a_configuration_keeps_a_registry;
use crate::live::are_too_many;
use crate::registry::Registry;
use std::alloc::Global;
use yp_base::memory::NoMemory;
use yp_base::series::Series;
use yp_base::txt::Txt;
use yp_filter::filter::Filter;
use yp_schema::schema::Schema;
use yp_terms::ask::Ask;
use yp_terms::reasons::{SHORTEST_PERIOD, is_json, is_operational, is_too_short, read_filter};
use yp_terms::refused::Refused;
use yp_terms::terms::Terms;
use yp_terms::triggers::with_anchor;

/// The last id of configured subscriptions.
const LAST_CONFIGURED_ID: u32 = 2147483647;

/// What a configured subscription is admitted with: the numbers of its receivers, and its filter.
#[derive(Drop)]
struct Granted {
    numbers: Series<u32>,
    filter: Filter,
}

/// Whether an id is one of configured subscriptions.
fn is_configurable(id: u32) -> bool
    ensures { result ≡ is_configurable id }
{
    0 < id && id <= LAST_CONFIGURED_ID
}

/// Whether a text is among others.
fn is_among(text: &str, others: &[Txt]) -> bool
    ensures { result ≡ is_among text.now others.now }
{
    for other in others {
        if text == other.as_str() {
            return true;
        }
    }
    false
}

/// Whether all these are names of receivers.
fn are_declared(names: &[Txt], asked: &[Txt]) -> bool
    ensures { result ≡ are_declared names.now asked.now }
{
    for name in asked {
        if !is_among(name.as_str(), names) {
            return false;
        }
    }
    true
}

/// Whether the receiver of this number has one of the names that are asked for.
fn is_asked(names: &[Txt], asked: &[Txt], number: u32) -> bool
    ensures { result ≡ is_asked asked.now (slice_get names.now number) }
{
    match names.get(number as usize) {
        Some(name) => is_among(name.as_str(), asked),
        None => false,
    }
}

impl Registry {
    /// The numbers of the receivers that have one of these names, in the order of their declaration.
    fn numbers_named(&self, alloc: Global, asked: &[Txt]) -> Result<Series<u32>, NoMemory>
        requires { length self.now.users < 2 ^ 32 }
        ensures { IfOk result (λ numbers. numbers ≡ numbers_named self.now asked.now) }
    {
        let mut numbers = Vec::new(alloc);
        for number in 0..self.users().len() as u32 {
            if is_asked(self.names(), asked, number) {
                numbers.push(number)?;
            }
        }
        Ok(Series::from_vec(numbers))
    }

    /// What a configured subscription is admitted with, or the first reason to refuse it.
    fn admit_configuration(
        &self,
        alloc: Global,
        schema: &Schema,
        id: u32,
        receivers: &[Txt],
        ask: &Ask,
    ) -> Result<Granted, Refused>
        requires { length self.now.users < 2 ^ 32 }
        ensures { Gives {X = List ℕ × Asked} (λ granted. (granted.numbers, filter_view granted.filter)) result (or_refused (first_refusal (configure_reasons schema.now self.now id receivers.now ask.now)) (numbers_named self.now receivers.now, asked_for schema.now ask.now.filter)) }
    {
        if !is_json(ask.encoding.as_str()) {
            return Err(Refused::EncodingUnsupported);
        }
        if !is_operational(ask.datastore.as_str()) {
            return Err(Refused::DatastoreNotSubscribable);
        }
        let filter = read_filter(alloc, schema, &ask.filter)?;
        if is_too_short(&ask.trigger) {
            return Err(Refused::PeriodUnsupported {
                hint: SHORTEST_PERIOD,
            });
        }
        if !is_configurable(id) || self.is_id_taken(id) {
            return Err(Refused::InvalidId);
        }
        if !are_declared(self.names(), receivers) {
            return Err(Refused::InvalidReceiver);
        }
        let numbers = self.numbers_named(alloc, receivers)?;
        if are_too_many(self.live(), numbers.items().len()) {
            return Err(Refused::InsufficientResources);
        }
        Ok(Granted { numbers, filter })
    }

    /// Configures a subscription with this id for the receivers of these names at this tick (RFC 8639 section
    /// 2.5.2). The call is refused where the encoding isn't JSON, the datastore isn't the operational one, the
    /// filter can't be read or the period is below 10 ticks, where the id isn't from 1 to 2147483647 or was
    /// configured before, where a name isn't that of a receiver, and where more than 256 feeds would be live: the
    /// first reason in this order is answered. After a refusal, and where memory ran out, the registry is as it
    /// was, and the id is free.
    pub fn configure(
        &mut self,
        alloc: Global,
        schema: &Schema,
        id: u32,
        receivers: &[Txt],
        ask: &Ask,
        now: u64,
    ) -> Result<(), Refused>
        requires few { length self.old.users < 2 ^ 32 }
        requires anchor { HasAnchor ask.now.trigger }
        requires now { now ≤ tick_limit }
        ensures answer { Gives (λ done. done) result (configure_answer schema.now self.old id receivers.now ask.now) }
        ensures state { OnOk result (self.new ≡ newly_configured schema.now self.old id receivers.now ask.now now) }
        ensures unchanged { OnErr result (self.new ≡ self.old) }
        ensures kept { IsRegistryOf schema.now self.old → IsRegistryOf schema.now self.new }
    {
        a_configuration_keeps_a_registry();
        let Granted { numbers, filter } = self.admit_configuration(
            alloc, schema, id, receivers, ask,
        )?;
        let trigger = with_anchor(now, ask.trigger);
        self.add_configured(Terms::from_configuration(id, numbers, filter, trigger))?;
        Ok(())
    }
}

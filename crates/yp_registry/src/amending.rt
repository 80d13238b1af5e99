//! The calls that amend a live subscription (RFC 8639 sections 2.4.3 and 2.5.3, RFC 8641 section 4.4.2).
ghost use Rattle.std.specs.Prelude.{◌≡◌, ◌<◌, ◌≤◌, length, option_copied, option_map, OnErr, OnOk};
ghost use Rattle.yp_filter.specs.View.{filter_view};
ghost use Rattle.yp_terms.specs.Amends.{given_filter, HasGivenAnchor, amend_reasons};
ghost use Rattle.yp_registry.specs.Amending.{modified_by, modify_answer, modify_reasons, reconfigure_answer, reconfigure_reasons, reconfigured};
ghost use Rattle.yp_terms.specs.Refusals.{first_refusal, or_refused, Gives};
ghost use Rattle.yp_registry.specs.Registry.{IsRegistryOf};
ghost use Rattle.yp_time.specs.Ticks.{tick_limit};

use crate::laws::an_amendment_keeps_a_registry;
use crate::registry::Registry;
use std::alloc::Global;
use yp_filter::filter::Filter;
use yp_nacm::execute::{Operation, may_exec};
use yp_nacm::policy::Policy;
use yp_schema::schema::Schema;
use yp_terms::ask::Amend;
use yp_terms::reasons::admit_amendment;
use yp_terms::refused::Refused;

impl Registry {
    /// The filter that a modification gives, or the first reason to refuse it.
    fn admit_modification(
        &self,
        alloc: Global,
        schema: &Schema,
        policy: &Policy,
        by: u32,
        id: u32,
        amend: &Amend,
    ) -> Result<Option<Filter>, Refused>
        requires { by < length self.now.users }
        ensures { Gives (λ filter. option_map filter_view filter) result (or_refused (first_refusal (modify_reasons schema.now policy.now self.now by id amend.now)) (given_filter schema.now amend.now.filter)) }
    {
        if !may_exec(policy, self.user(by), Operation::Modify) {
            return Err(Refused::AccessDenied);
        }
        admit_amendment(alloc, schema, amend, self.own_at(by, id))
    }

    /// Modifies a subscription of the receiver of this number at this tick (RFC 8639 section 2.4.3, RFC 8641
    /// section 4.4.2). What isn't given stays as it is. A period that is given is counted from its anchor, or
    /// from this tick; of a trigger on change the dampening period alone is taken. The call is refused where its
    /// user may not make it, where the filter that is given can't be read or the period is below 10 ticks, where
    /// no live subscription of the id was established by this receiver, and where the trigger is of the other
    /// kind: the first reason in this order is answered. After a refusal, and where memory ran out, the registry
    /// is as it was.
    pub fn modify(
        &mut self,
        alloc: Global,
        schema: &Schema,
        policy: &Policy,
        by: u32,
        id: u32,
        amend: &Amend,
        now: u64,
    ) -> Result<(), Refused>
        requires receiver { by < length self.old.users }
        requires anchor { HasGivenAnchor amend.now.trigger }
        requires now { now ≤ tick_limit }
        ensures answer { Gives (λ done. done) result (modify_answer schema.now policy.now self.old by id amend.now) }
        ensures state { OnOk result (self.new ≡ modified_by schema.now policy.now self.old by id amend.now now) }
        ensures unchanged { OnErr result (self.new ≡ self.old) }
        ensures kept { IsRegistryOf schema.now self.old → IsRegistryOf schema.now self.new }
    {
        an_amendment_keeps_a_registry();
        let filter = self.admit_modification(alloc, schema, policy, by, id, amend)?;
        self.amend(id, filter, amend.trigger, now);
        Ok(())
    }

    /// The filter that a modification of a configured subscription gives, or the first reason to refuse it.
    fn admit_reconfiguration(
        &self,
        alloc: Global,
        schema: &Schema,
        id: u32,
        amend: &Amend,
    ) -> Result<Option<Filter>, Refused>
        ensures { Gives (λ filter. option_map filter_view filter) result (or_refused (first_refusal (reconfigure_reasons schema.now self.now id amend.now)) (given_filter schema.now amend.now.filter)) }
    {
        admit_amendment(alloc, schema, amend, self.configured_at(id))
    }

    /// Modifies a configured subscription at this tick (RFC 8639 section 2.5.3). What is given is taken as by
    /// `modify`. The call is refused where the filter that is given can't be read or the period is below 10
    /// ticks, where no live subscription of the id was configured, and where the trigger is of the other kind:
    /// the first reason in this order is answered. After a refusal, and where memory ran out, the registry is as
    /// it was.
    pub fn reconfigure(
        &mut self,
        alloc: Global,
        schema: &Schema,
        id: u32,
        amend: &Amend,
        now: u64,
    ) -> Result<(), Refused>
        requires anchor { HasGivenAnchor amend.now.trigger }
        requires now { now ≤ tick_limit }
        ensures answer { Gives (λ done. done) result (reconfigure_answer schema.now self.old id amend.now) }
        ensures state { OnOk result (self.new ≡ reconfigured schema.now self.old id amend.now now) }
        ensures unchanged { OnErr result (self.new ≡ self.old) }
        ensures kept { IsRegistryOf schema.now self.old → IsRegistryOf schema.now self.new }
    {
        an_amendment_keeps_a_registry();
        let filter = self.admit_reconfiguration(alloc, schema, id, amend)?;
        self.amend(id, filter, amend.trigger, now);
        Ok(())
    }
}

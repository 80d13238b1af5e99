//! Calls about subscriptions (RFC 8639 sections 2.4 and 2.5, RFC 8641 section 4.4).
ghost use Rattle.std.specs.Prelude.{◌≡◌, ◌≢◌, ◌<◌, ◌^◌, [], List, length, Err, IfOk, OnOk, OnErr};
ghost use Rattle.yp_terms.specs.declared.refused.Refused.TheVariants.{Memory};
ghost use Rattle.yp_terms.specs.Amends.{HasGivenAnchor};
ghost use Rattle.yp_registry.specs.Calls.{delete_answer, deleted_by, kill_answer, killed_by, resync_answer, unconfigure_answer, unconfigured};
ghost use Rattle.yp_registry.specs.Registry.{IsRegistryOf};
ghost use Rattle.yp_terms.specs.Terms.{HasAnchor};
ghost use Rattle.yp_schema.specs.declared.schema.SchemaNode.{SchemaNode};
ghost use Rattle.yp_journal.specs.declared.command.Command.TheVariants.{Modify, Configure, Reconfigure};
ghost use Rattle.yp_journal.specs.History.{after_establish, call_reply, establish_reply, next_state, one_further, reply_to, with_registry};

use crate::reply::Reply;
use crate::state::{Outcome, State, no_changes};
use std::alloc::Global;
use yp_base::memory::NoMemory;
use yp_base::txt::Txt;
use yp_schema::schema::Schema;
use yp_terms::ask::{Amend, Ask};
use yp_terms::refused::Refused;

impl State {
    /// Asks the registry for a subscription.
    pub(crate) fn establish(
        &mut self,
        alloc: Global,
        schema: &Schema,
        by: u32,
        ask: &Ask,
    ) -> Result<Outcome, NoMemory>
        requires receiver { by < length self.old.receivers }
        requires anchor { HasAnchor ask.now.trigger }
        requires position { self.old.position < 2 ^ 63 }
        ensures state { OnOk result (self.new ≡ after_establish schema.now self.old by ask.now) }
        ensures outcome { IfOk result (λ outcome. outcome ≡ record { stamp = self.old.stamp; reply = establish_reply schema.now self.old by ask.now; changed = [] }) }
        ensures unchanged { OnErr result (self.new ≡ self.old) }
        ensures kept { IsRegistryOf schema.now self.old.registry → IsRegistryOf schema.now self.new.registry }
    {
        let stamp = self.stamp;
        match self
            .registry
            .establish(alloc, schema, &self.policy, by, ask, stamp)
        {
            Ok(id) => Ok(self.advance(Reply::Id(id), no_changes(alloc))),
            Err(refusal) => self.refuse(alloc, refusal),
        }
    }

    /// Replies that a call is refused, unless memory ran out.
    fn refuse(&mut self, alloc: Global, refusal: Refused) -> Result<Outcome, NoMemory>
        requires { self.old.position < 2 ^ 63 }
        ensures state { OnOk result (self.new ≡ one_further self.old) }
        ensures outcome { IfOk result (λ outcome. outcome ≡ record { stamp = self.old.stamp; reply = Reply.Registry refusal; changed = [] }) }
        ensures told { OnOk result (refusal ≢ Memory) }
        ensures memory { OnErr result (refusal ≡ Memory) }
        ensures registry { self.new.registry ≡ self.old.registry }
        ensures unchanged { OnErr result (self.new ≡ self.old) }
    {
        match refusal {
            Refused::Memory => Err(NoMemory),
            _ => Ok(self.advance(Reply::Registry(refusal), no_changes(alloc))),
        }
    }

    /// Replies to a call that gives nothing.
    fn answer(&mut self, alloc: Global, answer: Result<(), Refused>) -> Result<Outcome, NoMemory>
        requires { self.old.position < 2 ^ 63 }
        ensures state { OnOk result (self.new ≡ one_further self.old) }
        ensures outcome { IfOk result (λ outcome. outcome ≡ record { stamp = self.old.stamp; reply = call_reply answer; changed = [] }) }
        ensures told { OnOk result (answer ≢ Err Memory) }
        ensures memory { OnErr result (answer ≡ Err Memory) }
        ensures registry { self.new.registry ≡ self.old.registry }
        ensures unchanged { OnErr result (self.new ≡ self.old) }
    {
        match answer {
            Ok(()) => Ok(self.advance(Reply::Done, no_changes(alloc))),
            Err(refusal) => self.refuse(alloc, refusal),
        }
    }

    /// A receiver modifies its subscription.
    #[tactic(auto, using(crate::proofs::Answering::told))]
    pub(crate) fn modify(
        &mut self,
        alloc: Global,
        schema: &Schema,
        by: u32,
        id: u32,
        amend: &Amend,
    ) -> Result<Outcome, NoMemory>
        requires receiver { by < length self.old.receivers }
        requires anchor { HasGivenAnchor amend.now.trigger }
        requires position { self.old.position < 2 ^ 63 }
        ensures state { OnOk result (self.new ≡ next_state schema.now self.old (Modify by id amend.now)) }
        ensures outcome { IfOk result (λ outcome. outcome ≡ record { stamp = self.old.stamp; reply = reply_to schema.now self.old (Modify by id amend.now); changed = [] }) }
        ensures unchanged { OnErr result (self.new ≡ self.old) }
        ensures kept { IsRegistryOf schema.now self.old.registry → IsRegistryOf schema.now self.new.registry }
    {
        let stamp = self.stamp;
        let answer = self
            .registry
            .modify(alloc, schema, &self.policy, by, id, amend, stamp);
        self.answer(alloc, answer)
    }

    /// A receiver deletes its subscription.
    pub(crate) fn delete(&mut self, alloc: Global, by: u32, id: u32) -> Result<Outcome, NoMemory>
        requires receiver { by < length self.old.receivers }
        requires position { self.old.position < 2 ^ 63 }
        ensures state { OnOk result (self.new ≡ with_registry self.old (deleted_by self.old.policy self.old.registry by id)) }
        ensures outcome { IfOk result (λ outcome. outcome ≡ record { stamp = self.old.stamp; reply = call_reply (delete_answer self.old.policy self.old.registry by id); changed = [] }) }
        ensures unchanged { OnErr result (self.new ≡ self.old) }
        ensures kept { (nodes : List SchemaNode) → IsRegistryOf nodes self.old.registry → IsRegistryOf nodes self.new.registry }
    {
        let answer = self.registry.delete(&self.policy, by, id);
        self.answer(alloc, answer)
    }

    /// A subscription of any receiver is ended.
    pub(crate) fn kill(&mut self, alloc: Global, by: u32, id: u32) -> Result<Outcome, NoMemory>
        requires receiver { by < length self.old.receivers }
        requires position { self.old.position < 2 ^ 63 }
        ensures state { OnOk result (self.new ≡ with_registry self.old (killed_by self.old.policy self.old.registry by id)) }
        ensures outcome { IfOk result (λ outcome. outcome ≡ record { stamp = self.old.stamp; reply = call_reply (kill_answer self.old.policy self.old.registry by id); changed = [] }) }
        ensures unchanged { OnErr result (self.new ≡ self.old) }
        ensures kept { (nodes : List SchemaNode) → IsRegistryOf nodes self.old.registry → IsRegistryOf nodes self.new.registry }
    {
        let answer = self.registry.kill(&self.policy, by, id);
        self.answer(alloc, answer)
    }

    /// A receiver asks for a full update of its subscription.
    pub(crate) fn resync(&mut self, alloc: Global, by: u32, id: u32) -> Result<Outcome, NoMemory>
        requires receiver { by < length self.old.receivers }
        requires position { self.old.position < 2 ^ 63 }
        ensures state { OnOk result (self.new ≡ one_further self.old) }
        ensures outcome { IfOk result (λ outcome. outcome ≡ record { stamp = self.old.stamp; reply = call_reply (resync_answer self.old.policy self.old.registry by id); changed = [] }) }
        ensures unchanged { OnErr result (self.new ≡ self.old) }
        ensures registry { self.new.registry ≡ self.old.registry }
    {
        let answer = self.registry.resync(&self.policy, by, id);
        self.answer(alloc, answer)
    }

    /// A subscription is configured.
    #[tactic(auto, using(crate::proofs::Answering::told))]
    pub(crate) fn configure(
        &mut self,
        alloc: Global,
        schema: &Schema,
        id: u32,
        receivers: &[Txt],
        ask: &Ask,
    ) -> Result<Outcome, NoMemory>
        requires few { length self.old.receivers < 2 ^ 32 }
        requires anchor { HasAnchor ask.now.trigger }
        requires position { self.old.position < 2 ^ 63 }
        ensures state { OnOk result (self.new ≡ next_state schema.now self.old (Configure id receivers.now ask.now)) }
        ensures outcome { IfOk result (λ outcome. outcome ≡ record { stamp = self.old.stamp; reply = reply_to schema.now self.old (Configure id receivers.now ask.now); changed = [] }) }
        ensures unchanged { OnErr result (self.new ≡ self.old) }
        ensures kept { IsRegistryOf schema.now self.old.registry → IsRegistryOf schema.now self.new.registry }
    {
        let stamp = self.stamp;
        let answer = self
            .registry
            .configure(alloc, schema, id, receivers, ask, stamp);
        self.answer(alloc, answer)
    }

    /// A configured subscription is modified.
    #[tactic(auto, using(crate::proofs::Answering::told))]
    pub(crate) fn reconfigure(
        &mut self,
        alloc: Global,
        schema: &Schema,
        id: u32,
        amend: &Amend,
    ) -> Result<Outcome, NoMemory>
        requires anchor { HasGivenAnchor amend.now.trigger }
        requires position { self.old.position < 2 ^ 63 }
        ensures state { OnOk result (self.new ≡ next_state schema.now self.old (Reconfigure id amend.now)) }
        ensures outcome { IfOk result (λ outcome. outcome ≡ record { stamp = self.old.stamp; reply = reply_to schema.now self.old (Reconfigure id amend.now); changed = [] }) }
        ensures unchanged { OnErr result (self.new ≡ self.old) }
        ensures kept { IsRegistryOf schema.now self.old.registry → IsRegistryOf schema.now self.new.registry }
    {
        let stamp = self.stamp;
        let answer = self.registry.reconfigure(alloc, schema, id, amend, stamp);
        self.answer(alloc, answer)
    }

    /// A configured subscription is taken away.
    pub(crate) fn unconfigure(&mut self, alloc: Global, id: u32) -> Result<Outcome, NoMemory>
        requires position { self.old.position < 2 ^ 63 }
        ensures state { OnOk result (self.new ≡ with_registry self.old (unconfigured self.old.registry id)) }
        ensures outcome { IfOk result (λ outcome. outcome ≡ record { stamp = self.old.stamp; reply = call_reply (unconfigure_answer self.old.registry id); changed = [] }) }
        ensures unchanged { OnErr result (self.new ≡ self.old) }
        ensures kept { (nodes : List SchemaNode) → IsRegistryOf nodes self.old.registry → IsRegistryOf nodes self.new.registry }
    {
        let answer = self.registry.unconfigure(id);
        self.answer(alloc, answer)
    }
}

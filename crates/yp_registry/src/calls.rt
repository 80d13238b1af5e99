//! The calls that end a live subscription, and the call to synchronise one again (RFC 8639 sections 2.4.4, 2.4.5
//! and 2.5.4, RFC 8641 section 4.4.4). They take no memory.
ghost use Rattle.std.specs.Prelude.{◌≡◌, ◌<◌, List, length, OnErr};
ghost use Rattle.yp_schema.specs.declared.schema.SchemaNode.{SchemaNode};
ghost use Rattle.yp_registry.specs.Calls.{delete_answer, deleted_by, kill_answer, killed_by, resync_answer, unconfigure_answer, unconfigured};
ghost use Rattle.yp_registry.specs.Registry.{IsRegistryOf};

use crate::registry::Registry;
use yp_nacm::execute::{Operation, may_exec};
use yp_nacm::policy::Policy;
use yp_terms::refused::Refused;
use yp_terms::triggers::has_sync;

impl Registry {
    /// Ends a subscription of the receiver of this number (RFC 8639 section 2.4.4). The call is refused where
    /// its user may not make it, and where no live subscription of the id was established by this receiver: one
    /// receiver is one session, also where two have one user. After a refusal the registry is as it was.
    pub fn delete(&mut self, policy: &Policy, by: u32, id: u32) -> Result<(), Refused>
        requires receiver { by < length self.old.users }
        ensures answer { result ≡ delete_answer policy.now self.old by id }
        ensures state { self.new ≡ deleted_by policy.now self.old by id }
        ensures unchanged { OnErr result (self.new ≡ self.old) }
        ensures kept { (nodes : List SchemaNode) → IsRegistryOf nodes self.old → IsRegistryOf nodes self.new }
    {
        if !may_exec(policy, self.user(by), Operation::Delete) {
            return Err(Refused::AccessDenied);
        }
        if self.own_at(by, id).is_none() {
            return Err(Refused::NoSuchSubscription { resync: false });
        }
        self.end(id);
        Ok(())
    }

    /// Ends a subscription that any receiver established (RFC 8639 section 2.4.5). The call is refused where
    /// the user of the receiver of this number may not make it, and where no live subscription of the id was
    /// established by a receiver. After a refusal the registry is as it was.
    pub fn kill(&mut self, policy: &Policy, by: u32, id: u32) -> Result<(), Refused>
        requires receiver { by < length self.old.users }
        ensures answer { result ≡ kill_answer policy.now self.old by id }
        ensures state { self.new ≡ killed_by policy.now self.old by id }
        ensures unchanged { OnErr result (self.new ≡ self.old) }
        ensures kept { (nodes : List SchemaNode) → IsRegistryOf nodes self.old → IsRegistryOf nodes self.new }
    {
        if !may_exec(policy, self.user(by), Operation::Kill) {
            return Err(Refused::AccessDenied);
        }
        if self.dynamic_at(id).is_none() {
            return Err(Refused::NoSuchSubscription { resync: false });
        }
        self.end(id);
        Ok(())
    }

    /// Asks for a full update of a subscription of the receiver of this number (RFC 8641 section 4.4.4). The
    /// call is refused where its user may not make it, where no live subscription of the id was established by
    /// this receiver, and where that one is periodic or without a full update at first. The registry stays as
    /// it was.
    pub fn resync(&mut self, policy: &Policy, by: u32, id: u32) -> Result<(), Refused>
        requires receiver { by < length self.old.users }
        ensures answer { result ≡ resync_answer policy.now self.old by id }
        ensures unchanged { self.new ≡ self.old }
    {
        if !may_exec(policy, self.user(by), Operation::Resync) {
            return Err(Refused::AccessDenied);
        }
        match self.own_at(by, id) {
            None => Err(Refused::NoSuchSubscription { resync: true }),
            Some(terms) => {
                if has_sync(terms.trigger()) {
                    Ok(())
                } else {
                    Err(Refused::OnChangeSyncUnsupported)
                }
            }
        }
    }

    /// Ends a configured subscription (RFC 8639 section 2.5.4). The call is refused where no live subscription
    /// of the id was configured. The id stays taken. After a refusal the registry is as it was.
    pub fn unconfigure(&mut self, id: u32) -> Result<(), Refused>
        ensures answer { result ≡ unconfigure_answer self.old id }
        ensures state { self.new ≡ unconfigured self.old id }
        ensures unchanged { OnErr result (self.new ≡ self.old) }
        ensures kept { (nodes : List SchemaNode) → IsRegistryOf nodes self.old → IsRegistryOf nodes self.new }
    {
        if self.configured_at(id).is_none() {
            return Err(Refused::NoSuchSubscription { resync: false });
        }
        self.end(id);
        Ok(())
    }
}

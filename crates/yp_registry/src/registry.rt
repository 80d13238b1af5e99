//! The registry of subscriptions, and the calls of receivers (RFC 8639 sections 2.4 and 2.5, RFC 8641 section
//! 4.4).
ghost use Rattle.std.specs.Prelude.{◌≡◌, ◌+◌, ◌<◌, ◌≤◌, length, option_copied, option_map, true, IfOk, OnErr, OnOk};
ghost use Rattle.yp_filter.specs.Fits.{filter_fits};
ghost use Rattle.yp_filter.specs.View.{filter_view};
ghost use Rattle.yp_terms.specs.Amends.{with_given};
ghost use Rattle.yp_registry.specs.Amending.{with_change};
ghost use Rattle.yp_registry.specs.Calls.{configured_at, dynamic_at, own_at, with_end};
ghost use Rattle.yp_registry.specs.Configuring.{is_id_taken, with_configured};
ghost use Rattle.yp_terms.specs.Refusals.{first_refusal, or_refused, Gives};
ghost use Rattle.yp_terms.specs.Terms.{asked_for, HasAnchor, with_anchor};
ghost use Rattle.yp_registry.specs.Registry.{Answers, IsRegistryOf, establish_answer, established, free_id, last_id, live_at, next_id, no_subscriptions, reasons_against, user_at, with_terms};
ghost use Rattle.yp_time.specs.Ticks.{tick_limit};

use crate::live;
use crate::live::are_too_many;
use std::alloc::Global;
use std::marker::Model;
use yp_base::leaf_type::Names;
use yp_base::memory::{Duplicate, NoMemory};
use yp_base::notice::Trigger;
use yp_base::series::Series;
use yp_base::txt::Txt;
use yp_filter::filter::Filter;
use yp_nacm::execute::{Operation, may_exec};
use yp_nacm::policy::Policy;
use yp_schema::schema::Schema;
use yp_terms::ask::Ask;
use yp_terms::reasons::{SHORTEST_PERIOD, is_json, is_operational, is_too_short, read_filter};
use yp_terms::refused::Refused;
use yp_terms::terms::Terms;
use yp_terms::triggers::with_anchor;

/// The id of the first dynamic subscription; later ones have the numbers that follow.
const FIRST_ID: u32 = 2147483648;

/// The live subscriptions, with the users and the names of the receivers.
#[derive(Drop)]
pub struct Registry {
    users: Names,
    names: Names,
    /// How many ids were given to dynamic subscriptions.
    given: u32,
    /// The ids that were configured, in that order.
    taken: Vec<u32>,
    live: Vec<Terms>,
}

impl Model for Registry {
    ghost use Rattle.yp_registry.specs.Coding.{coded_subscriptions};
    ghost use Rattle.yp_registry.specs.Registry.{Subscriptions};

    ghost Value = { Subscriptions };

    ghost coded = { coded_subscriptions };

    ghost view = { λ r. record { users = r.users; names = r.names; given = r.given; taken = r.taken.items; live = r.live.items } };
}

/// What a subscription is admitted with: its id, and its filter.
#[derive(Drop)]
struct Admitted {
    id: u32,
    filter: Filter,
}

impl Registry {
    /// The registry that the first call finds: no subscription, and receivers of these users and names, in
    /// the order of their declaration.
    pub fn new(alloc: Global, users: Names, names: Names) -> Registry
        ensures opening { result ≡ no_subscriptions users names }
    {
        Registry {
            users,
            names,
            given: 0,
            taken: Vec::new(alloc),
            live: Vec::new(alloc),
        }
    }

    /// The registry of these receivers after so many ids were given, of which none is live any more.
    #[cfg(test)]
    pub(crate) fn after(alloc: Global, users: Names, names: Names, given: u32) -> Registry {
        Registry {
            users,
            names,
            given,
            taken: Vec::new(alloc),
            live: Vec::new(alloc),
        }
    }

    /// Establishes a dynamic subscription for the receiver of this number at this tick (RFC 8639 section
    /// 2.4.2, RFC 8641 section 4.4.1), and gives its id. The call is refused where its user may not make it,
    /// where the encoding isn't JSON, the datastore isn't the operational one, the filter can't be read or
    /// the period is below 10 ticks, and where 256 feeds are live or no id is left: the first reason in this
    /// order is answered. After a refusal, and where memory ran out, the registry is as it was.
    pub fn establish(
        &mut self,
        alloc: Global,
        schema: &Schema,
        policy: &Policy,
        by: u32,
        ask: &Ask,
        now: u64,
    ) -> Result<u32, Refused>
        requires receiver { by < length self.old.users }
        requires anchor { HasAnchor ask.now.trigger }
        requires now { now ≤ tick_limit }
        ensures answer { Answers result (establish_answer schema.now policy.now self.old by ask.now now) }
        ensures state { OnOk result (self.new ≡ established schema.now policy.now self.old by ask.now now) }
        ensures unchanged { OnErr result (self.new ≡ self.old) }
        ensures kept { IsRegistryOf schema.now self.old → IsRegistryOf schema.now self.new }
    {
        let Admitted { id, filter } = self.admit(alloc, schema, policy, by, ask)?;
        let trigger = with_anchor(now, ask.trigger);
        self.add(Terms::dynamic(alloc, id, by, filter, trigger)?)?;
        Ok(id)
    }

    /// Takes in the terms of a dynamic subscription.
    fn add(&mut self, terms: Terms) -> Result<(), NoMemory>
        requires { next_id self.old.given ≤ last_id }
        ensures state { OnOk result (self.new ≡ with_terms self.old terms) }
        ensures unchanged { OnErr result (self.new ≡ self.old) }
    {
        self.live.push(terms)?;
        self.given += 1;
        Ok(())
    }

    /// What a subscription that is asked for is admitted with, or the first reason to refuse it.
    fn admit(
        &self,
        alloc: Global,
        schema: &Schema,
        policy: &Policy,
        by: u32,
        ask: &Ask,
    ) -> Result<Admitted, Refused>
        requires { by < length self.now.users }
        ensures filter { Gives (λ admitted. filter_view admitted.filter) result (or_refused (first_refusal (reasons_against schema.now policy.now self.now by ask.now)) (asked_for schema.now ask.now.filter)) }
        ensures fits { IfOk result (λ admitted. filter_fits schema.now (filter_view admitted.filter) ≡ true) }
        ensures id { IfOk result (λ admitted. admitted.id ≡ next_id self.now.given) }
    {
        if !may_exec(policy, self.user(by), Operation::Establish) {
            return Err(Refused::AccessDenied);
        }
        if !is_json(ask.encoding.as_str()) {
            return Err(Refused::EncodingUnsupported);
        }
        if !is_operational(ask.datastore.as_str()) {
            return Err(Refused::DatastoreNotSubscribable);
        }
        let filter = read_filter(alloc, schema, &ask.filter)?;
        if is_too_short(&ask.trigger) {
            return Err(Refused::PeriodUnsupported {
                hint: SHORTEST_PERIOD,
            });
        }
        match self.free_id() {
            Some(id) => Ok(Admitted { id, filter }),
            None => Err(Refused::InsufficientResources),
        }
    }

    /// The user of the receiver of this number.
    pub(crate) fn user(&self, number: u32) -> &str
        requires { number < length self.now.users }
        ensures { result.now ≡ user_at self.now.users number }
    {
        self.users.items()[number as usize].as_str()
    }

    /// The next id, unless there is no room for one subscription more.
    fn free_id(&self) -> Option<u32>
        ensures { result ≡ free_id self.now }
    {
        if are_too_many(self.live.as_slice(), 1) {
            return None;
        }
        FIRST_ID.checked_add(self.given)
    }

    /// The terms of the live subscription of an id, where there is one.
    fn at(&self, id: u32) -> Option<&Terms>
        ensures { option_copied result ≡ live_at id self.now.live }
    {
        self.live.iter().find(|terms| terms.id() == id)
    }

    /// The terms of the live subscription of an id that the receiver of this number established, where
    /// there is one.
    pub(crate) fn own_at(&self, by: u32, id: u32) -> Option<&Terms>
        ensures { option_copied result ≡ own_at by id self.now.live }
    {
        let terms = self.at(id)?;
        if terms.is_established_by(by) {
            Some(terms)
        } else {
            None
        }
    }

    /// Those of one that any receiver established.
    pub(crate) fn dynamic_at(&self, id: u32) -> Option<&Terms>
        ensures { option_copied result ≡ dynamic_at id self.now.live }
    {
        let terms = self.at(id)?;
        if terms.configured() {
            None
        } else {
            Some(terms)
        }
    }

    /// Those of one that was configured.
    pub(crate) fn configured_at(&self, id: u32) -> Option<&Terms>
        ensures { option_copied result ≡ configured_at id self.now.live }
    {
        let terms = self.at(id)?;
        if terms.configured() {
            Some(terms)
        } else {
            None
        }
    }

    /// Whether an id was configured.
    pub(crate) fn is_id_taken(&self, id: u32) -> bool
        ensures { result ≡ is_id_taken id self.now }
    {
        self.taken.as_slice().contains(&id)
    }

    /// Amends the terms of the live subscription of an id at this tick by what is given.
    pub(crate) fn amend(
        &mut self,
        id: u32,
        filter: Option<Filter>,
        trigger: Option<Trigger>,
        now: u64,
    )
        requires { now ≤ tick_limit }
        ensures { self.new ≡ with_change id (with_given now (option_map filter_view filter) trigger) self.old }
    {
        live::amend(&mut self.live, id, filter, trigger, now);
    }

    /// Ends the live subscription of an id.
    pub(crate) fn end(&mut self, id: u32)
        ensures { self.new ≡ with_end id self.old }
    {
        live::end(&mut self.live, id);
    }

    /// Takes in the terms of a configured subscription.
    pub(crate) fn add_configured(&mut self, terms: Terms) -> Result<(), NoMemory>
        ensures state { OnOk result (self.new ≡ with_configured self.old terms) }
        ensures unchanged { OnErr result (self.new ≡ self.old) }
    {
        let count = self.taken.len();
        self.taken.push(terms.id())?;
        match live::insert(&mut self.live, terms) {
            Ok(()) => Ok(()),
            Err(error) => {
                self.taken.truncate(count);
                Err(error)
            }
        }
    }

    /// The filter of a live subscription; `None` exactly where no live subscription has the id.
    pub fn filter(&self, id: u32) -> Option<&Filter>
        ensures { option_map (λ filter. filter_view filter.now) result ≡ option_map (λ terms. terms.asked) (live_at id self.now.live) }
    {
        Some(self.at(id)?.filter())
    }

    /// The trigger of a live subscription; `None` exactly where no live subscription has the id.
    pub fn trigger(&self, id: u32) -> Option<&Trigger>
        ensures { option_copied result ≡ option_map (λ terms. terms.trigger) (live_at id self.now.live) }
    {
        Some(self.at(id)?.trigger())
    }

    /// The numbers of the receivers of a live subscription; `None` exactly where no live subscription has
    /// the id.
    pub fn receivers(&self, id: u32) -> Option<&[u32]>
        ensures { option_map (λ receivers. receivers.now) result ≡ option_map (λ terms. terms.receivers) (live_at id self.now.live) }
    {
        Some(self.at(id)?.receivers())
    }

    /// The terms of the live subscriptions, in ascending order of their ids.
    pub fn live(&self) -> &[Terms]
        ensures { result.now ≡ self.now.live }
    {
        self.live.as_slice()
    }

    /// The users of the receivers, in the order of their declaration.
    pub fn users(&self) -> &[Txt]
        ensures { result.now ≡ self.now.users }
    {
        self.users.items()
    }

    /// The names of the receivers, in the order of their declaration.
    pub fn names(&self) -> &[Txt]
        ensures { result.now ≡ self.now.names }
    {
        self.names.items()
    }
}

/// Copies of terms.
fn copies_of(alloc: Global, live: &[Terms]) -> Result<Vec<Terms>, NoMemory>
    ensures { IfOk result (λ copies. copies.items ≡ live.now) }
{
    let mut copies = Vec::new(alloc);
    for terms in live {
        copies.push(terms.copy(alloc)?)?;
    }
    Ok(copies)
}

impl Duplicate for Registry {
    fn copy(&self, alloc: Global) -> Result<Registry, NoMemory> {
        Ok(Registry {
            users: self.users.copy(alloc)?,
            names: self.names.copy(alloc)?,
            given: self.given,
            taken: Vec::from_slice(alloc, self.taken.as_slice())?,
            live: copies_of(alloc, self.live.as_slice())?,
        })
    }
}

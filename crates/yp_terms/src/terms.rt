//! What a subscription is given.
ghost use Rattle.std.specs.Prelude.{◌≡◌, ◌≤◌, ◌∷◌, [], IfOk, false, option_map, true};
ghost use Rattle.yp_filter.specs.View.{filter_view};
ghost use Rattle.yp_terms.specs.Amends.{with_given};
ghost use Rattle.yp_terms.specs.Terms.{is_established_by};
ghost use Rattle.yp_time.specs.Ticks.{tick_limit};

use crate::triggers::amended_trigger;
use std::alloc::Global;
use std::marker::Model;
use yp_base::memory::{Duplicate, NoMemory};
use yp_base::notice::Trigger;
use yp_base::series::Series;
use yp_filter::filter::Filter;

/// The terms of a live subscription (RFC 8639 section 2.4.2): its id, the receivers that it is for, whether
/// it was configured, its filter, and when updates are sent.
#[derive(Drop)]
pub struct Terms {
    id: u32,
    receivers: Series<u32>,
    configured: bool,
    filter: Filter,
    trigger: Trigger,
}

impl Model for Terms {
    ghost use Rattle.yp_filter.specs.View.{filter_view};
    ghost use Rattle.yp_terms.specs.Coding.{coded_terms};
    ghost use Rattle.yp_terms.specs.Terms.{Terms};

    ghost Value = { Terms };

    ghost coded = { coded_terms };

    ghost view = { λ t. record { id = t.id; receivers = t.receivers; configured = t.configured; asked = filter_view t.filter; trigger = t.trigger } };
}

impl Terms {
    /// The terms of a dynamic subscription, for the receiver of this number. It takes memory for the list of
    /// receivers.
    pub fn dynamic(
        alloc: Global,
        id: u32,
        receiver: u32,
        filter: Filter,
        trigger: Trigger,
    ) -> Result<Terms, NoMemory>
        ensures { IfOk result (λ terms. terms ≡ record { id = id; receivers = receiver ∷ []; configured = false; asked = filter_view filter; trigger = trigger }) }
    {
        let mut receivers = Vec::new(alloc);
        receivers.push(receiver)?;
        Ok(Terms {
            id,
            receivers: Series::from_vec(receivers),
            configured: false,
            filter,
            trigger,
        })
    }

    /// The terms of a configured subscription, for the receivers of these numbers.
    pub fn from_configuration(
        id: u32,
        receivers: Series<u32>,
        filter: Filter,
        trigger: Trigger,
    ) -> Terms
        ensures { result ≡ record { id = id; receivers = receivers; configured = true; asked = filter_view filter; trigger = trigger } }
    {
        Terms {
            id,
            receivers,
            configured: true,
            filter,
            trigger,
        }
    }

    /// Amends the terms at this tick by what is given (RFC 8641 section 4.4.2). What isn't given stays. A trigger
    /// stays of its kind: a period that is given is counted from its anchor, or from this tick; of one on change
    /// the dampening period alone is taken.
    pub fn amend(&mut self, filter: Option<Filter>, trigger: Option<Trigger>, now: u64)
        requires { now ≤ tick_limit }
        ensures { self.new ≡ with_given now (option_map filter_view filter) trigger self.old }
    {
        if let Some(filter) = filter {
            self.filter = filter;
        }
        self.trigger = amended_trigger(now, trigger, self.trigger);
    }

    /// Whether the receiver of this number established the subscription: one receiver is one session. None
    /// established a configured one.
    pub fn is_established_by(&self, by: u32) -> bool
        ensures { result ≡ is_established_by by self.now }
    {
        !self.configured && self.receivers.items().contains(&by)
    }

    /// The subscription's id.
    pub fn id(&self) -> u32
        ensures { result ≡ self.now.id }
    {
        self.id
    }

    /// The numbers of its receivers, from 0 on in the order of their declaration.
    pub fn receivers(&self) -> &[u32]
        ensures { result.now ≡ self.now.receivers }
    {
        self.receivers.items()
    }

    /// Whether it was configured, and not established by a call.
    pub fn configured(&self) -> bool
        ensures { result ≡ self.now.configured }
    {
        self.configured
    }

    /// Its filter.
    pub fn filter(&self) -> &Filter
        ensures { filter_view result.now ≡ self.now.asked }
    {
        &self.filter
    }

    /// When updates are sent. A periodic trigger has its anchor.
    pub fn trigger(&self) -> &Trigger
        ensures { result.now ≡ self.now.trigger }
    {
        &self.trigger
    }
}

/// Copies of numbers.
fn copies_of(alloc: Global, numbers: &[u32]) -> Result<Series<u32>, NoMemory>
    ensures { IfOk result (λ copies. copies ≡ numbers.now) }
{
    let mut copies = Vec::new(alloc);
    copies.extend_from_slice(numbers)?;
    Ok(Series::from_vec(copies))
}

impl Duplicate for Terms {
    fn copy(&self, alloc: Global) -> Result<Terms, NoMemory> {
        Ok(Terms {
            id: self.id,
            receivers: copies_of(alloc, self.receivers())?,
            configured: self.configured,
            filter: self.filter.copy(alloc)?,
            trigger: self.trigger,
        })
    }
}

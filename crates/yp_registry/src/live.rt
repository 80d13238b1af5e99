//! Lists of live subscriptions: how many feeds they have, and what is put into one, changed there and taken
//! away.
ghost use Rattle.std.specs.Prelude.{◌≡◌, ◌+◌, ◌≤◌, length, nat_eq, nat_lt, option_map, OnErr, OnOk};
ghost use Rattle.std.specs.List.{position};
ghost use Rattle.yp_filter.specs.View.{filter_view};
ghost use Rattle.yp_terms.specs.Amends.{with_given};
ghost use Rattle.yp_registry.specs.Amending.{changed_terms};
ghost use Rattle.yp_registry.specs.Calls.{live_without};
ghost use Rattle.yp_registry.specs.Configuring.{in_order};
ghost use Rattle.yp_registry.specs.Registry.{feeds, most_feeds};
ghost use Rattle.yp_time.specs.Ticks.{tick_limit};

use yp_base::memory::NoMemory;
use yp_base::notice::Trigger;
use yp_filter::filter::Filter;
use yp_terms::terms::Terms;

/// How many feeds may be live: one for each receiver of each live subscription.
const MOST_FEEDS: usize = 256;

/// Whether so many feeds more than those of live subscriptions are too many.
#[tactic(auto, using(crate::proofs::Feeds::feeds_from))]
pub(crate) fn are_too_many(live: &[Terms], new: usize) -> bool
    ensures { result ≡ nat_lt most_feeds (feeds live.now + new) }
{
    let mut room = MOST_FEEDS;
    for terms in live {
        let count = terms.receivers().len();
        if count > room {
            return true;
        }
        room -= count;
    }
    new > room
}

/// The place of the first that has an id.
fn place_of(live: &[Terms], id: u32) -> Option<usize>
    ensures { result ≡ position (λ terms. nat_eq id terms.id) live.now }
{
    live.iter().position(|terms| terms.id() == id)
}

/// The place of the first that has a higher id.
fn place_past(live: &[Terms], id: u32) -> Option<usize>
    ensures { result ≡ position (λ terms. nat_lt id terms.id) live.now }
{
    live.iter().position(|terms| id < terms.id())
}

/// Amends the terms of an id at this tick by what is given.
pub(crate) fn amend(
    live: &mut Vec<Terms>,
    id: u32,
    filter: Option<Filter>,
    trigger: Option<Trigger>,
    now: u64,
)
    requires { now ≤ tick_limit }
    ensures { live.new.items ≡ changed_terms id (with_given now (option_map filter_view filter) trigger) live.old.items }
{
    if let Some(place) = place_of(live.as_slice(), id) {
        live[place].amend(filter, trigger, now);
    }
}

/// Takes the terms of an id away.
pub(crate) fn end(live: &mut Vec<Terms>, id: u32)
    ensures { live.new.items ≡ live_without id live.old.items }
{
    live.retain(|terms| terms.id() != id);
}

/// Puts terms in their place by id.
pub(crate) fn insert(live: &mut Vec<Terms>, terms: Terms) -> Result<(), NoMemory>
    ensures state { OnOk result (live.new.items ≡ in_order terms live.old.items) }
    ensures unchanged { OnErr result (live.new.items ≡ live.old.items) }
{
    match place_past(live.as_slice(), terms.id()) {
        Some(place) => live.insert(place, terms)?,
        None => live.push(terms)?,
    }
    Ok(())
}

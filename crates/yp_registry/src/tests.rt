//! Ids to the end of their range, and modifications that give up a filter, which no script and no case of calls
//! reaches.
ghost use Rattle.std.specs.Prelude.{IfOk};
ghost use Rattle.yp_terms.specs.Amends.{HasGivenAnchor};
ghost use Rattle.yp_terms.specs.Terms.{HasAnchor};

use crate::registry::Registry;
use std::alloc::Global;
use std::test::Fail;
use yp_base::leaf_type::Names;
use yp_base::memory::{Duplicate, NoMemory};
use yp_base::notice::{Kinds, Trigger};
use yp_base::series::Series;
use yp_base::txt::{Txt, text_of};
use yp_nacm::policy::Policy;
use yp_schema::schema::Schema;
use yp_terms::ask::{Amend, Ask, FilterAsk};
use yp_terms::refused::Refused;

// The last id.
const LAST_ID: u32 = 4294967295;

// How many ids come before the last but one.
const GIVEN: u32 = 2147483646;

fn txt(alloc: Global, text: &str) -> Result<Txt, NoMemory> {
    text_of(alloc, text)
}

// The one receiver ann.
fn ann(alloc: Global) -> Result<Names, NoMemory> {
    let mut names = Vec::new(alloc);
    names.push(txt(alloc, "ann")?)?;
    Ok(Series::from_vec(names))
}

// No operation.
fn none_of_all() -> Kinds {
    Kinds {
        create: false,
        delete: false,
        insert: false,
        moved: false,
        replace: false,
    }
}

// Everything in JSON of the operational datastore, on change.
fn everything(alloc: Global) -> Result<Ask, NoMemory>
    ensures { IfOk result (λ ask. HasAnchor ask.trigger) }
{
    Ok(Ask {
        encoding: txt(alloc, "encode-json")?,
        datastore: txt(alloc, "ietf-datastores:operational")?,
        filter: FilterAsk::All,
        trigger: Trigger::OnChange {
            dampening: 0,
            sync: true,
            excluded: none_of_all(),
        },
    })
}

// What ann is answered. Without a receiver it is a refusal that no call here has.
fn answer(
    alloc: Global,
    schema: &Schema,
    policy: &Policy,
    registry: &mut Registry,
) -> Result<u32, Refused> {
    if registry.users().is_empty() {
        return Err(Refused::AccessDenied);
    }
    let ask = everything(alloc)?;
    registry.establish(alloc, schema, policy, 0, &ask, 0)
}

// Whether these are the ids of the live subscriptions.
fn has_ids(registry: &Registry, ids: &[u32]) -> bool {
    registry.live().len() == ids.len()
        && registry
            .live()
            .iter()
            .zip(ids)
            .all(|(terms, id)| terms.id() == *id)
}

#[test]
fn the_last_id_is_given_once_and_then_none_is_left(rt: HostRuntime) -> Result<(), Fail> {
    let alloc = rt.alloc();
    let schema = Schema::read(alloc, &[])?;
    let policy = Policy::opening(alloc);
    let mut registry = Registry::after(alloc, ann(alloc)?, ann(alloc)?, GIVEN);
    assert_eq!(rt;
        answer(alloc, &schema, &policy, &mut registry),
        Ok(LAST_ID - 1)
    );
    assert!(rt; has_ids(&registry, &[LAST_ID - 1]));
    assert_eq!(rt; answer(alloc, &schema, &policy, &mut registry), Ok(LAST_ID));
    assert!(rt; has_ids(&registry, &[LAST_ID - 1, LAST_ID]));
    let none_left = Err(Refused::InsufficientResources);
    for _ in 0..3 {
        assert_eq!(rt; answer(alloc, &schema, &policy, &mut registry), none_left);
        assert!(rt; has_ids(&registry, &[LAST_ID - 1, LAST_ID]));
    }
    let mut copy = registry.copy(alloc)?;
    assert_eq!(rt; answer(alloc, &schema, &policy, &mut copy), none_left);
    assert!(rt; has_ids(&copy, &[LAST_ID - 1, LAST_ID]));
    Ok(())
}

#[test]
fn where_no_subscription_is_live_any_more_no_id_is_given_again(
    rt: HostRuntime,
) -> Result<(), Fail> {
    let alloc = rt.alloc();
    let schema = Schema::read(alloc, &[])?;
    let policy = Policy::opening(alloc);
    let mut registry = Registry::after(alloc, ann(alloc)?, ann(alloc)?, GIVEN + 2);
    let none_left = Err(Refused::InsufficientResources);
    for _ in 0..3 {
        assert_eq!(rt; answer(alloc, &schema, &policy, &mut registry), none_left);
        assert!(rt; registry.live().is_empty());
    }
    Ok(())
}

// The receivers a and b, which have one user.
fn two(alloc: Global, first: &str, second: &str) -> Result<Names, NoMemory> {
    let mut names = Vec::new(alloc);
    names.push(txt(alloc, first)?)?;
    names.push(txt(alloc, second)?)?;
    Ok(Series::from_vec(names))
}

fn registry_of_two(alloc: Global) -> Result<Registry, NoMemory> {
    Ok(Registry::new(alloc, two(alloc, "ann", "ann")?, two(alloc, "a", "b")?))
}

// Everything, with another dampening period.
fn dampened() -> Amend
    ensures { HasGivenAnchor result.trigger }
{
    Amend {
        filter: Some(FilterAsk::All),
        trigger: Some(Trigger::OnChange {
            dampening: 10,
            sync: false,
            excluded: none_of_all(),
        }),
    }
}

// Whether a subscription has this dampening period and, as before, a full update at first.
fn has_dampening(registry: &Registry, id: u32, period: u32) -> bool {
    match registry.trigger(id) {
        Some(
            Trigger::OnChange {
                dampening,
                sync,
                ..
            },
        ) => *dampening == period && *sync,
        _ => false,
    }
}

// What a receiver is answered that modifies a subscription. Without the receiver it is a refusal that no call
// here has, and so it is below.
fn modified(
    alloc: Global,
    schema: &Schema,
    policy: &Policy,
    registry: &mut Registry,
    by: u32,
    id: u32,
) -> Result<(), Refused> {
    if registry.users().len() <= by as usize {
        return Err(Refused::AccessDenied);
    }
    let amend = dampened().copy(alloc)?;
    registry.modify(alloc, schema, policy, by, id, &amend, 0)
}

// What is answered where a subscription of everything is configured for b and a.
fn configured(
    alloc: Global,
    schema: &Schema,
    registry: &mut Registry,
    id: u32,
) -> Result<(), Refused> {
    if registry.users().len() != 2 {
        return Err(Refused::AccessDenied);
    }
    let names = two(alloc, "b", "a")?;
    let ask = everything(alloc)?;
    registry.configure(alloc, schema, id, names.items(), &ask, 0)
}

fn reconfigured(
    alloc: Global,
    schema: &Schema,
    registry: &mut Registry,
    id: u32,
) -> Result<(), Refused> {
    registry.reconfigure(alloc, schema, id, &dampened(), 0)
}

#[test]
fn a_subscription_is_modified_to_have_no_filter(rt: HostRuntime) -> Result<(), Fail> {
    let alloc = rt.alloc();
    let schema = Schema::read(alloc, &[])?;
    let policy = Policy::opening(alloc);
    let mut registry = registry_of_two(alloc)?;
    let id = answer(alloc, &schema, &policy, &mut registry)?;
    assert_eq!(rt;
        modified(alloc, &schema, &policy, &mut registry, 0, id),
        Ok(())
    );
    assert!(rt; has_dampening(&registry, id, 10));
    Ok(())
}

#[test]
fn a_configured_subscription_is_modified_to_have_no_filter(rt: HostRuntime) -> Result<(), Fail> {
    let alloc = rt.alloc();
    let schema = Schema::read(alloc, &[])?;
    let mut registry = registry_of_two(alloc)?;
    assert_eq!(rt; configured(alloc, &schema, &mut registry, 7), Ok(()));
    assert_eq!(rt; reconfigured(alloc, &schema, &mut registry, 7), Ok(()));
    assert!(rt; has_dampening(&registry, 7, 10));
    Ok(())
}

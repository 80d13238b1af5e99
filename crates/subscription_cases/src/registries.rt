//! Calls of `yp_registry`: steps on one registry, each with its answer.
use crate::asks::texts;
use crate::filters::tell_filter;
use crate::subscriptions;
use case_frame::fault::{CaseFault, OrFault};
use case_frame::given::{id, items, named, part};
use case_frame::setting::Setting;
use case_frame::shown::{Answer, Told, plain, truth};
use serde_json::Value as Json;
use std::alloc::Global;
use yp_base::memory::Duplicate;
use yp_base::notice::Trigger;
use yp_base::txt::Txt;
use yp_filter::filter::Filter;
use yp_registry::registry::Registry;
use yp_schema::schema::Schema;

pub fn answer(alloc: Global, setting: &Setting, call: &str, arguments: &Json) -> Answer {
    Ok(match call {
        "registry" => Some(steps(alloc, setting, arguments)?),
        _ => None,
    })
}

/// The answers of steps on a registry of receivers, from no subscription on.
fn steps(alloc: Global, setting: &Setting, arguments: &Json) -> OrFault<String> {
    let users = texts(alloc, part(arguments, "users")?)?;
    let names = texts(alloc, part(arguments, "names")?)?;
    let mut registry = Registry::new(alloc, users, names);
    let mut told = Told::new(alloc);
    told.push("[");
    for each in items(part(arguments, "steps")?)? {
        told.comma();
        let (name, argument) = named(each)?;
        told.push(step(alloc, setting, &mut registry, name, argument)?.as_str());
    }
    told.push("]");
    told.done()
}

/// The answer of a step: a call, a look-up, or a copy that stands for the registry from here on.
fn step(
    alloc: Global,
    setting: &Setting,
    registry: &mut Registry,
    name: &str,
    argument: &Json,
) -> OrFault<String> {
    match name {
        "copy" => {
            *registry = registry.copy(alloc)?;
            truth(alloc, true)
        }
        _ => match subscriptions::answer(alloc, setting, registry, name, argument)? {
            Some(told) => Ok(told),
            None => look_up(alloc, &setting.schema, registry, name, argument),
        },
    }
}

/// The answer of a look-up.
fn look_up(
    alloc: Global,
    schema: &Schema,
    registry: &Registry,
    name: &str,
    argument: &Json,
) -> OrFault<String> {
    match name {
        "filter" => filter(alloc, schema, registry, id(argument)?),
        "trigger" => trigger(alloc, registry, id(argument)?),
        "receivers" => receivers(alloc, registry, id(argument)?),
        "live" => live(alloc, registry),
        "users" => shown(alloc, registry.users()),
        "names" => shown(alloc, registry.names()),
        _ => Err(CaseFault::BadArgument),
    }
}

// ---- look-ups

/// The nodes of a filter, `"all"` where it selects everything, or `null` where there is no subscription.
fn filter(alloc: Global, schema: &Schema, registry: &Registry, id: u32) -> OrFault<String> {
    let mut told = Told::new(alloc);
    match registry.filter(id) {
        Some(Filter::All) => told.quoted("all"),
        Some(filter) => tell_filter(alloc, schema, &mut told, filter),
        None => told.push("null"),
    }
    told.done()
}

/// A trigger, or `null`.
fn trigger(alloc: Global, registry: &Registry, id: u32) -> OrFault<String> {
    Ok(match registry.trigger(id) {
        Some(Trigger::Periodic { period, anchor }) => match anchor {
            Some(anchor) => format!(in alloc; "{{\"anchor\":{anchor},\"period\":{period}}}")?,
            None => format!(in alloc; "{{\"period\":{period}}}")?,
        },
        Some(
            Trigger::OnChange {
                dampening,
                sync,
                ..
            },
        ) => { format!(in alloc; "{{\"dampening\":{dampening},\"sync\":{sync}}}")? }
        None => plain(alloc, "null")?,
    })
}

/// The numbers of the receivers of a subscription, or `null`.
fn receivers(alloc: Global, registry: &Registry, id: u32) -> OrFault<String> {
    match registry.receivers(id) {
        Some(numbers) => numbers_shown(alloc, numbers),
        None => plain(alloc, "null"),
    }
}

/// The ids of the live subscriptions, each with its receivers.
fn live(alloc: Global, registry: &Registry) -> OrFault<String> {
    let mut told = Told::new(alloc);
    told.push("[");
    for terms in registry.live() {
        told.comma();
        let id = terms.id();
        told.put(format!(in alloc; "[{id},"));
        tell_numbers(alloc, &mut told, terms.receivers());
        told.push("]");
    }
    told.push("]");
    told.done()
}

fn numbers_shown(alloc: Global, numbers: &[u32]) -> OrFault<String> {
    let mut told = Told::new(alloc);
    tell_numbers(alloc, &mut told, numbers);
    told.done()
}

fn tell_numbers(alloc: Global, told: &mut Told, numbers: &[u32]) {
    told.push("[");
    for number in numbers {
        told.comma();
        told.put(format!(in alloc; "{number}"));
    }
    told.push("]");
}

/// Texts, in order.
fn shown(alloc: Global, texts: &[Txt]) -> OrFault<String> {
    let mut told = Told::new(alloc);
    told.push("[");
    told.texts(texts);
    told.push("]");
    told.done()
}

//! Calls about subscriptions on a registry, each with its answer.
ghost use Rattle.std.specs.Prelude.{◌<◌, IfOk, length};

use crate::asks::{amend, ask, texts, tick};
use case_frame::fault::{CaseFault, OrFault};
use case_frame::given::{id, number, part};
use case_frame::setting::Setting;
use case_frame::shown::{Answer, quoted, truth};
use serde_json::Value as Json;
use std::alloc::Global;
use yp_base::memory::Duplicate;
use yp_registry::registry::Registry;
use yp_terms::refused::Refused;
use yp_value::json::member;

// Receivers have numbers of 32 bits.
const MOST_RECEIVERS: usize = 4_294_967_295;

/// The answer of a step, where it is a call.
pub fn answer(
    alloc: Global,
    setting: &Setting,
    registry: &mut Registry,
    name: &str,
    json: &Json,
) -> Answer {
    Ok(match name {
        "establish" => Some(establish(alloc, setting, registry, json)?),
        "modify" => Some(modify(alloc, setting, registry, json)?),
        "delete" => Some(delete(alloc, setting, registry, json)?),
        "kill" => Some(kill(alloc, setting, registry, json)?),
        "resync" => Some(resync(alloc, setting, registry, json)?),
        "configure" => Some(configure(alloc, setting, registry, json)?),
        "reconfigure" => Some(reconfigure(alloc, setting, registry, json)?),
        "unconfigure" => Some(unconfigure(alloc, registry, json)?),
        _ => None,
    })
}

/// The number of the receiver that makes a call.
fn caller(registry: &Registry, json: &Json) -> OrFault<u32>
    ensures { IfOk result (λ by. by < length registry.now.users) }
{
    let by = id(part(json, "by")?)?;
    if by as usize >= registry.users().len() {
        return Err(CaseFault::BadArgument);
    }
    Ok(by)
}

/// The id that a call is about.
fn about(json: &Json) -> OrFault<u32> {
    id(part(json, "id")?)
}

/// A refusal, unless it is that memory ran out.
fn refusal(alloc: Global, refused: Refused) -> OrFault<String> {
    match refused {
        Refused::Memory => Err(CaseFault::Memory),
        refused => quoted(alloc, format!(in alloc; "{refused}")?.as_str()),
    }
}

/// What a call that gives nothing answers: `true`, or the refusal.
fn shown(alloc: Global, answer: Result<(), Refused>) -> OrFault<String> {
    match answer {
        Ok(()) => truth(alloc, true),
        Err(refused) => refusal(alloc, refused),
    }
}

/// The id that is given, or the refusal. Where the call is made `times` over, it is the last answer.
fn establish(
    alloc: Global,
    setting: &Setting,
    registry: &mut Registry,
    json: &Json,
) -> OrFault<String> {
    let before = match member(json, "times") {
        Some(times) => number(times)?.saturating_sub(1),
        None => 0,
    };
    for _ in 0..before {
        drop(established(alloc, setting, registry, json)?);
    }
    match established(alloc, setting, registry, json)? {
        Ok(id) => Ok(format!(in alloc; "{id}")?),
        Err(refused) => refusal(alloc, refused),
    }
}

/// What a call answers to a copy of what is asked for.
fn established(
    alloc: Global,
    setting: &Setting,
    registry: &mut Registry,
    json: &Json,
) -> OrFault<Result<u32, Refused>> {
    let ask = ask(alloc, json)?.copy(alloc)?;
    let by = caller(registry, json)?;
    let now = tick(json)?;
    Ok(registry.establish(alloc, &setting.schema, &setting.policy, by, &ask, now))
}

/// A receiver modifies its own subscription by a copy of what is given.
fn modify(
    alloc: Global,
    setting: &Setting,
    registry: &mut Registry,
    json: &Json,
) -> OrFault<String> {
    let amend = amend(alloc, json)?.copy(alloc)?;
    let by = caller(registry, json)?;
    let now = tick(json)?;
    let Setting { schema, policy } = setting;
    shown(
        alloc,
        registry.modify(alloc, schema, policy, by, about(json)?, &amend, now),
    )
}

/// A receiver deletes its own subscription.
fn delete(
    alloc: Global,
    setting: &Setting,
    registry: &mut Registry,
    json: &Json,
) -> OrFault<String> {
    let by = caller(registry, json)?;
    shown(alloc, registry.delete(&setting.policy, by, about(json)?))
}

/// An operator kills a subscription that any receiver established.
fn kill(alloc: Global, setting: &Setting, registry: &mut Registry, json: &Json) -> OrFault<String> {
    let by = caller(registry, json)?;
    shown(alloc, registry.kill(&setting.policy, by, about(json)?))
}

/// A receiver asks for a full update of its own subscription.
fn resync(
    alloc: Global,
    setting: &Setting,
    registry: &mut Registry,
    json: &Json,
) -> OrFault<String> {
    let by = caller(registry, json)?;
    shown(alloc, registry.resync(&setting.policy, by, about(json)?))
}

/// A subscription is configured.
fn configure(
    alloc: Global,
    setting: &Setting,
    registry: &mut Registry,
    json: &Json,
) -> OrFault<String> {
    let ask = ask(alloc, json)?;
    let names = texts(alloc, part(json, "receivers")?)?;
    let now = tick(json)?;
    if registry.users().len() > MOST_RECEIVERS {
        return Err(CaseFault::BadArgument);
    }
    shown(
        alloc,
        registry.configure(
            alloc,
            &setting.schema,
            about(json)?,
            names.items(),
            &ask,
            now,
        ),
    )
}

/// A configured subscription is modified.
fn reconfigure(
    alloc: Global,
    setting: &Setting,
    registry: &mut Registry,
    json: &Json,
) -> OrFault<String> {
    let amend = amend(alloc, json)?;
    let now = tick(json)?;
    shown(
        alloc,
        registry.reconfigure(alloc, &setting.schema, about(json)?, &amend, now),
    )
}

/// A configured subscription is taken away.
fn unconfigure(alloc: Global, registry: &mut Registry, json: &Json) -> OrFault<String> {
    shown(alloc, registry.unconfigure(about(json)?))
}

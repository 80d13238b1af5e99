//! What subscriptions are asked for and amended with, by the arguments of steps on a registry.
ghost use Rattle.std.specs.Prelude.{◌≤◌, IfOk, IfSome};
ghost use Rattle.yp_terms.specs.Amends.{HasGivenAnchor};
ghost use Rattle.yp_terms.specs.Terms.{HasAnchor};
ghost use Rattle.yp_time.specs.Ticks.{IsAnchor, tick_limit};

use case_frame::fault::{CaseFault, OrFault};
use case_frame::given::{id, items, no_kinds, number, text};
use serde_json::Value as Json;
use std::alloc::Global;
use yp_base::leaf_type::Names;
use yp_base::notice::Trigger;
use yp_base::series::Series;
use yp_base::txt::{Txt, text_of};
use yp_terms::ask::{Amend, Ask, FilterAsk};
use yp_value::json::member;
use yp_value::payload::Payload;

// The last tick.
const LAST_TICK: u64 = 1_000_000_000_000;

/// The texts of an argument.
pub fn texts(alloc: Global, json: &Json) -> OrFault<Names> {
    let mut texts = Vec::new(alloc);
    for each in items(json)? {
        texts.push(text_of(alloc, text(each)?)?)?;
    }
    Ok(Series::from_vec(texts))
}

/// The tick of a call, 0 where none is given.
pub fn tick(json: &Json) -> OrFault<u64>
    ensures { IfOk result (λ tick. tick ≤ tick_limit) }
{
    let tick = match member(json, "now") {
        Some(now) => number(now)?,
        None => 0,
    };
    if tick > LAST_TICK {
        return Err(CaseFault::BadArgument);
    }
    Ok(tick)
}

/// What is asked for. Where it isn't given, the encoding is `encode-json`, the datastore the operational one, the
/// filter none and the trigger on change, with a full update at first and without dampening.
pub fn ask(alloc: Global, json: &Json) -> OrFault<Ask>
    ensures { IfOk result (λ ask. HasAnchor ask.trigger) }
{
    Ok(Ask {
        encoding: named_or(alloc, json, "encoding", "encode-json")?,
        datastore: named_or(alloc, json, "datastore", "ietf-datastores:operational")?,
        filter: filter_asked(alloc, json)?,
        trigger: trigger_asked(json)?,
    })
}

/// The text of a member, or this one.
fn named_or(alloc: Global, json: &Json, name: &str, or: &str) -> OrFault<Txt> {
    let text = match member(json, name) {
        Some(given) => text(given)?,
        None => or,
    };
    Ok(text_of(alloc, text)?)
}

/// The filter of an ask: of `xpath` an XPath filter, of `subtree` the JSON that stands there.
fn filter_asked(alloc: Global, json: &Json) -> OrFault<FilterAsk> {
    if member(json, "xpath").is_some() {
        return Ok(FilterAsk::XPath);
    }
    match member(json, "subtree") {
        Some(subtree) => Ok(FilterAsk::Subtree(Payload::from_json(alloc, subtree)?)),
        None => Ok(FilterAsk::All),
    }
}

/// The trigger of an ask: of `period` a periodic one, with its anchor where it is given, and else one on change.
fn trigger_asked(json: &Json) -> OrFault<Trigger>
    ensures { IfOk result HasAnchor }
{
    match member(json, "period") {
        Some(period) => Ok(Trigger::Periodic {
            period: id(period)?,
            anchor: anchor_asked(json)?,
        }),
        None => Ok(Trigger::OnChange {
            dampening: dampening_asked(json)?,
            sync: sync_asked(json)?,
            excluded: no_kinds(),
        }),
    }
}

fn anchor_asked(json: &Json) -> OrFault<Option<i64>>
    ensures { IfOk result (λ anchor. IfSome anchor IsAnchor) }
{
    match member(json, "anchor") {
        Some(anchor) => {
            let anchor = anchor.as_i64().ok_or(CaseFault::BadArgument)?;
            if anchor < -(LAST_TICK as i64) || anchor > LAST_TICK as i64 {
                return Err(CaseFault::BadArgument);
            }
            Ok(Some(anchor))
        }
        None => Ok(None),
    }
}

/// The dampening period, 0 where none is given.
fn dampening_asked(json: &Json) -> OrFault<u32> {
    match member(json, "dampening") {
        Some(dampening) => id(dampening),
        None => Ok(0),
    }
}

/// Whether a full update is sent at first, as it is where nothing is said.
fn sync_asked(json: &Json) -> OrFault<bool> {
    match member(json, "sync") {
        Some(sync) => sync.as_bool().ok_or(CaseFault::BadArgument),
        None => Ok(true),
    }
}

/// What a subscription is amended with: the filter and the trigger that are given, with the arguments of an ask.
pub fn amend(alloc: Global, json: &Json) -> OrFault<Amend>
    ensures { IfOk result (λ amend. HasGivenAnchor amend.trigger) }
{
    Ok(Amend {
        filter: filter_given(alloc, json)?,
        trigger: trigger_given(json)?,
    })
}

/// The filter, where one is given.
fn filter_given(alloc: Global, json: &Json) -> OrFault<Option<FilterAsk>> {
    if member(json, "xpath").is_some() || member(json, "subtree").is_some() {
        Ok(Some(filter_asked(alloc, json)?))
    } else {
        Ok(None)
    }
}

/// The trigger, where one is given.
fn trigger_given(json: &Json) -> OrFault<Option<Trigger>>
    ensures { IfOk result HasGivenAnchor }
{
    if member(json, "period").is_some() || member(json, "dampening").is_some() {
        Ok(Some(trigger_asked(json)?))
    } else {
        Ok(None)
    }
}

//! Lines that ask for subscriptions (RFC 8639 section 2.4.2, RFC 8641 section 4.4.1).
ghost use Rattle.std.specs.Prelude.{◌≡◌, ◌<◌, ◌≤◌, IfOk, IfSome, is_ok, length, option_map};
ghost use Rattle.std.specs.Option.{ForSome, ok_or};
ghost use Rattle.serde_json.specs.Find.{as_str};
ghost use Rattle.serde_json.specs.View.{view, items_view, members_view};
ghost use Rattle.yp_base.specs.Types.{is_among};
ghost use Rattle.yp_time.specs.Ticks.{IsAnchor};
ghost use Rattle.yp_command.specs.declared.fault.ScriptKind.TheVariants as kinds;
ghost use Rattle.yp_command.specs.Asks.{terms, members_of, may_have_all, has_only, number_said, number_there, anchor_at, anchor_said, periodic_said, dampening_said, sync_said, holds, operations, is_once, are_operations, kinds_in, excluded_by, excluded_said, on_change_said, trigger_said, xpath_said, filter_said, datastore_said, encoding_said, ask_said, by_said, establish_said};
ghost use Rattle.yp_command.specs.Commands.{IsBounded, anchor_of};
ghost use Rattle.yp_command.specs.Readings.{Tells};

use crate::fault::{Flaw, ScriptKind};
use crate::halt::{Halt, both, holding};
use crate::receivers::Receivers;
use crate::words::{is_text, lacking, text_in, whole};
use serde_json::{Map, Value as Json};
use std::alloc::Global;
use yp_base::notice::{Kinds, Trigger};
use yp_base::txt::{Txt, text_of};
use yp_cause::cause::{Cause, Wrong};
use yp_cause::excerpt::Excerpt;
use yp_journal::command::Command;
use yp_terms::ask::{Ask, FilterAsk};
use yp_time::instant::anchor_ticks;
use yp_time::start::Start;
use yp_value::json::member;
use yp_value::payload::Payload;

/// The largest number of 32 bits.
const MOST: u64 = 4_294_967_295;

/// The objects of a line that makes a call about a subscription.
#[derive(Drop, Clone, Copy, PartialEq, Eq)]
pub enum AskPart {
    /// The whole call, where a receiver asks for a subscription.
    Establish,
    /// Where it modifies one.
    Modify,
    /// Where it makes another call about one: it names itself, and the subscription.
    Call,
    /// Where a subscription is configured.
    Configure,
    /// Where a configured one is modified.
    Reconfigure,
    /// Where one is taken away.
    Unconfigure,
    /// The terms of a periodic subscription.
    Periodic,
    /// The terms of a subscription on change.
    OnChange,
    /// What of them can be modified.
    Dampening,
}

/// Whether a call that gives a filter and a trigger may have a member of this name for one of them.
fn is_term(name: &str) -> bool
    ensures { result ≡ is_among name.now terms }
{
    name == "datastore-subtree-filter"
        || name == "datastore-xpath-filter"
        || name == "periodic"
        || name == "on-change"
}

/// Whether a part may have a member of this name.
fn may_have(part: AskPart, name: &str) -> bool
    ensures { result ≡ is_among name.now (members_of part) }
{
    match part {
        AskPart::Establish => {
            name == "by" || name == "datastore" || name == "encoding" || is_term(name)
        }
        AskPart::Modify => name == "by" || name == "id" || is_term(name),
        AskPart::Call => name == "by" || name == "id",
        AskPart::Configure => {
            name == "id"
                || name == "receivers"
                || name == "datastore"
                || name == "encoding"
                || is_term(name)
        }
        AskPart::Reconfigure => name == "id" || is_term(name),
        AskPart::Unconfigure => name == "id",
        AskPart::Periodic => name == "period" || name == "anchor-time",
        AskPart::OnChange => {
            name == "dampening-period" || name == "sync-on-start" || name == "excluded-change"
        }
        AskPart::Dampening => name == "dampening-period",
    }
}

/// Whether a part may have each of these members.
fn may_have_all(part: AskPart, members: &Map<String, Json>) -> bool
    ensures { result ≡ may_have_all part (members_view members.now.entries) }
{
    for (name, _) in members.iter() {
        if !may_have(part, name.as_str()) {
            return false;
        }
    }
    true
}

/// The first member that a part may not have.
fn first_other(alloc: Global, part: AskPart, members: &Map<String, Json>) -> Cause {
    for (name, _) in members.iter() {
        if !may_have(part, name.as_str()) {
            return Cause::unknown(alloc, name.as_str());
        }
    }
    Cause::of(Wrong::NoObject)
}

/// That a part is no object.
fn no_object(part: AskPart) -> Cause {
    match part {
        AskPart::Periodic => Cause::member("periodic", "is an object"),
        AskPart::OnChange | AskPart::Dampening => Cause::member("on-change", "is an object"),
        _ => Cause::of(Wrong::NoObject),
    }
}

/// Whether it is an object that has no members but those of a part, or what is wrong with it.
pub(crate) fn has_only(alloc: Global, part: AskPart, json: &Json) -> Result<(), Cause>
    ensures { is_ok result ≡ has_only part (view json.now) }
{
    match json {
        Json::Object(members) => {
            if may_have_all(part, members) {
                Ok(())
            } else {
                Err(first_other(alloc, part, members))
            }
        }
        _ => Err(no_object(part)),
    }
}

/// The whole number of 32 bits that a member of this name is.
fn read_number(json: &Json, name: &'static str) -> Result<u32, Halt>
    ensures { Tells result (number_said (view json.now)) }
{
    Ok(whole(json, name, 0, MOST)? as u32)
}

/// One that may not be left out.
pub(crate) fn read_number_there(json: Option<&Json>, name: &'static str) -> Result<u32, Halt>
    ensures { Tells result (number_there (option_map (λ json. view json.now) json.entry)) }
{
    match json {
        Some(json) => read_number(json, name),
        None => Err(Halt::Fault(Flaw::member(Cause::missing(name)))),
    }
}

/// The ticks from the start to the anchor of a text.
fn anchor_at(start: Option<Start>, text: &str) -> Option<i64>
    ensures read { result ≡ anchor_at start text.now }
    ensures within { IfSome result IsAnchor }
{
    match start {
        Some(start) => anchor_ticks(&start, text).ok(),
        None => None,
    }
}

/// The anchor, where one is given.
fn read_anchor(
    alloc: Global,
    start: Option<Start>,
    json: Option<&Json>,
) -> Result<Option<i64>, Halt>
    ensures read { Tells result (anchor_said start (option_map (λ json. view json.now) json.entry)) }
    ensures within { IfOk result (λ anchor. ForSome anchor IsAnchor) }
{
    match json {
        None => Ok(None),
        Some(Json::String(text)) => match anchor_at(start, text.as_str()) {
            Some(anchor) => Ok(Some(anchor)),
            None => Err(Halt::Fault(Flaw::no_instant(alloc, "anchor-time", text.as_str()))),
        },
        Some(_) => Err(Halt::Fault(Flaw::wrong("anchor-time", "is a text"))),
    }
}

/// The trigger of a periodic subscription.
fn read_periodic(alloc: Global, start: Option<Start>, json: &Json) -> Result<Trigger, Halt>
    ensures read { Tells result (periodic_said start (view json.now)) }
    ensures anchor { IfOk result (λ trigger. ForSome (anchor_of trigger) IsAnchor) }
{
    let period = read_number_there(member(json, "period"), "period");
    let anchor = read_anchor(alloc, start, member(json, "anchor-time"));
    let only = has_only(alloc, AskPart::Periodic, json);
    let (period, anchor) = holding(ScriptKind::Member, only, both(period, anchor))?;
    Ok(Trigger::Periodic { period, anchor })
}

/// The dampening period, which is 0 where none is given.
fn read_dampening(json: Option<&Json>) -> Result<u32, Halt>
    ensures { Tells result (dampening_said (option_map (λ json. view json.now) json.entry)) }
{
    match json {
        Some(json) => read_number(json, "dampening-period"),
        None => Ok(0),
    }
}

/// Whether a full update comes first, as it does where nothing is said.
fn read_sync(json: Option<&Json>) -> Result<bool, Halt>
    ensures { Tells result (sync_said (option_map (λ json. view json.now) json.entry)) }
{
    match json {
        None => Ok(true),
        Some(Json::Bool(sync)) => Ok(*sync),
        Some(_) => Err(Halt::Fault(Flaw::wrong("sync-on-start", "is `true` or `false`"))),
    }
}

/// Whether a text is among the items of an array.
fn holds(items: &[Json], word: &str) -> bool
    ensures { result ≡ holds word.now (items_view items.now) }
{
    for item in items {
        if is_text(item, word) {
            return true;
        }
    }
    false
}

/// The operations that an array names.
fn kinds_in(items: &[Json]) -> Kinds
    ensures { result ≡ kinds_in (items_view items.now) }
{
    Kinds {
        create: holds(items, "create"),
        delete: holds(items, "delete"),
        insert: holds(items, "insert"),
        moved: holds(items, "move"),
        replace: holds(items, "replace"),
    }
}

/// Whether a text is an operation.
fn is_operation(word: &str) -> bool
    ensures { result ≡ is_among word.now operations }
{
    word == "create" || word == "delete" || word == "insert" || word == "move" || word == "replace"
}

/// Whether an item is an operation that isn't among those after it.
fn is_once(item: &Json, after: &[Json]) -> bool
    ensures { result ≡ is_once (as_str (view item.now)) (items_view after.now) }
{
    match item.as_str() {
        Some(word) => is_operation(word) && !holds(after, word),
        None => false,
    }
}

/// Whether an array has operations alone, and none twice.
fn are_operations(items: &[Json]) -> bool
    ensures { result ≡ are_operations (items_view items.now) }
{
    let mut left = items;
    while let Some((first, after)) = left.split_first() {
        if !is_once(first, after) {
            return false;
        }
        left = after;
    }
    true
}

/// The operations of an array of distinct ones.
fn read_kinds(items: &[Json]) -> Result<Kinds, Halt>
    ensures { Tells result (excluded_by (items_view items.now)) }
{
    if are_operations(items) {
        Ok(kinds_in(items))
    } else {
        Err(Halt::Fault(no_operations()))
    }
}

/// That the operations that are excluded are none, or stand twice.
fn no_operations() -> Flaw
    ensures { result ≡ kinds.Member }
{
    Flaw::wrong(
        "excluded-change",
        "is an array of `create`, `delete`, `insert`, `move` and `replace`, each at most once",
    )
}

/// The operations that are excluded, none where nothing is said.
fn read_excluded(json: Option<&Json>) -> Result<Kinds, Halt>
    ensures { Tells result (excluded_said (option_map (λ json. view json.now) json.entry)) }
{
    match json {
        None => Ok(kinds_in(&[])),
        Some(Json::Array(items)) => read_kinds(items.as_slice()),
        Some(_) => Err(Halt::Fault(no_operations())),
    }
}

/// The trigger of a subscription on change, which may have the members of a part.
fn read_on_change(alloc: Global, part: AskPart, json: &Json) -> Result<Trigger, Halt>
    ensures read { Tells result (on_change_said part (view json.now)) }
    ensures anchor { IfOk result (λ trigger. ForSome (anchor_of trigger) IsAnchor) }
{
    let dampening = read_dampening(member(json, "dampening-period"));
    let sync = read_sync(member(json, "sync-on-start"));
    let excluded = read_excluded(member(json, "excluded-change"));
    let terms = both(dampening, both(sync, excluded));
    let only = has_only(alloc, part, json);
    let (dampening, (sync, excluded)) = holding(ScriptKind::Member, only, terms)?;
    Ok(Trigger::OnChange {
        dampening,
        sync,
        excluded,
    })
}

/// The trigger: just one of the two, of which one on change may have the members of a part.
pub(crate) fn read_trigger(
    alloc: Global,
    part: AskPart,
    start: Option<Start>,
    json: &Json,
) -> Result<Trigger, Halt>
    ensures read { Tells result (trigger_said part start (view json.now)) }
    ensures anchor { IfOk result (λ trigger. ForSome (anchor_of trigger) IsAnchor) }
{
    match member(json, "periodic") {
        Some(periodic) => match member(json, "on-change") {
            Some(_) => Err(Halt::Fault(Flaw::member(Cause::of(Wrong::TwoTriggers)))),
            None => read_periodic(alloc, start, periodic),
        },
        None => match member(json, "on-change") {
            Some(on_change) => read_on_change(alloc, part, on_change),
            None => Err(Halt::Fault(Flaw::member(Cause::of(Wrong::NoTrigger)))),
        },
    }
}

/// An XPath filter, or no filter.
fn read_xpath(json: Option<&Json>) -> Result<FilterAsk, Halt>
    ensures { Tells result (xpath_said (option_map (λ json. view json.now) json.entry)) }
{
    match json {
        None => Ok(FilterAsk::All),
        Some(Json::String(_)) => Ok(FilterAsk::XPath),
        Some(_) => Err(Halt::Fault(Flaw::wrong("datastore-xpath-filter", "is a text"))),
    }
}

/// The filter: at most one of the two.
pub(crate) fn read_filter(alloc: Global, json: &Json) -> Result<FilterAsk, Halt>
    ensures { Tells result (filter_said (view json.now)) }
{
    match member(json, "datastore-subtree-filter") {
        Some(filter) => match member(json, "datastore-xpath-filter") {
            Some(_) => Err(Halt::Fault(Flaw::member(Cause::of(Wrong::TwoFilters)))),
            None => Ok(FilterAsk::Subtree(Payload::from_json(alloc, filter)?)),
        },
        None => read_xpath(member(json, "datastore-xpath-filter")),
    }
}

/// The datastore's name.
fn read_datastore(alloc: Global, json: &Json) -> Result<Txt, Halt>
    ensures { Tells result (datastore_said (view json.now)) }
{
    match text_in(json, "datastore") {
        Some(text) => Ok(text_of(alloc, text)?),
        None => Err(Halt::Fault(lacking(json, "datastore", "is a text"))),
    }
}

/// The encoding's name, which is JSON's where none is given.
fn read_encoding(alloc: Global, json: &Json) -> Result<Txt, Halt>
    ensures { Tells result (encoding_said (view json.now)) }
{
    match member(json, "encoding") {
        Some(encoding) => match encoding.as_str() {
            Some(text) => Ok(text_of(alloc, text)?),
            None => Err(Halt::Fault(Flaw::wrong("encoding", "is a text"))),
        },
        None => Ok(text_of(alloc, "encode-json")?),
    }
}

/// What is asked for.
pub(crate) fn read_ask(alloc: Global, start: Option<Start>, json: &Json) -> Result<Ask, Halt>
    ensures read { Tells result (ask_said start (view json.now)) }
    ensures anchor { IfOk result (λ ask. ForSome (anchor_of ask.trigger) IsAnchor) }
{
    let names = both(read_encoding(alloc, json), read_datastore(alloc, json));
    let terms = both(
        read_filter(alloc, json),
        read_trigger(alloc, AskPart::OnChange, start, json),
    );
    let ((encoding, datastore), (filter, trigger)) = both(names, terms)?;
    Ok(Ask {
        encoding,
        datastore,
        filter,
        trigger,
    })
}

/// That no receiver has this name.
pub(crate) fn no_receiver(alloc: Global, name: &str) -> Flaw
    ensures { result ≡ kinds.Member }
{
    Flaw::member(Cause::about(Wrong::NoReceiver, Excerpt::of(alloc, name)))
}

/// The number of the receiver that asks.
pub(crate) fn read_by(alloc: Global, receivers: &Receivers, json: &Json) -> Result<u32, Halt>
    ensures { Tells result (by_said receivers.now (view json.now)) }
{
    match text_in(json, "by") {
        Some(name) => match receivers.number_of(name) {
            Some(by) => Ok(by as u32),
            None => Err(Halt::Fault(no_receiver(alloc, name))),
        },
        None => Err(Halt::Fault(lacking(json, "by", "is a text"))),
    }
}

/// The subscription that a line asks for, by the start and the receivers so far.
pub fn read_establish(
    alloc: Global,
    start: Option<Start>,
    receivers: &Receivers,
    json: &Json,
) -> Result<Command, Halt>
    ensures read { Tells result (establish_said start receivers.now (view json.now)) }
    ensures bounds { IfOk result IsBounded }
{
    let by = read_by(alloc, receivers, json);
    let parts = both(by, read_ask(alloc, start, json));
    let only = has_only(alloc, AskPart::Establish, json);
    let (by, ask) = holding(ScriptKind::Member, only, parts)?;
    Ok(Command::Establish { by, ask })
}

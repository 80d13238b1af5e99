//! Rule lists.
ghost use Rattle.std.specs.Prelude.{◌≡◌, [], IfOk, All};
ghost use Rattle.serde_json.specs.View.{view, items_view};
ghost use Rattle.yp_base.specs.Types.{is_among};
ghost use Rattle.yp_nacm_text.specs.Faults.{Reads};
ghost use Rattle.yp_nacm_text.specs.Members.{each_in};
ghost use Rattle.yp_nacm_text.specs.NameSets.{AddsName};
ghost use Rattle.yp_nacm.specs.Policies.{IsSubjectOf, IsListOf};
ghost use Rattle.yp_nacm_text.specs.Policies.{next_rule, list_in, next_list};

use crate::fault::{Place, PolicyFault, PolicyKind};
use crate::members::{Part, items_in, members_as, texts_of};
use crate::names::NameSet;
use crate::rule::read_rule;
use serde_json::Value as Json;
use std::alloc::Global;
use yp_base::series::Series;
use yp_base::txt::text_of;
use yp_nacm::policy::{RuleList, RuleLists, Rules};
use yp_schema::schema::Schema;
use yp_value::members::text_in;

/// The rules that items are, in a rule list of this number, or the first fault among them.
fn read_rules(
    alloc: Global,
    schema: &Schema,
    list: usize,
    items: &[Json],
) -> Result<Rules, PolicyFault>
    ensures read { Reads result (each_in (next_rule schema.now list) [] (items_view items.now)) }
    ensures paths { IfOk result (λ rules. All (λ rule. IsSubjectOf schema.now rule.subject) rules) }
{
    let mut rules = Vec::new(alloc);
    let mut names = NameSet::new(alloc);
    for item in items {
        let place = Place::Rule {
            list,
            rule: rules.len(),
        };
        rules.push(read_rule(alloc, schema, place, &mut names, item)?)?;
    }
    Ok(Series::from_vec(rules))
}

/// Reads the rule list of a number, whose name is then taken. Its own faults come before those of its
/// rules.
fn read_list<'a>(
    alloc: Global,
    schema: &Schema,
    number: usize,
    names: &mut NameSet<'a>,
    json: &'a Json,
) -> Result<RuleList, PolicyFault>
    ensures read { Reads result (list_in schema.now number (λ name. is_among name names.old) (view json.now)) }
    ensures name { IfOk result (λ list. AddsName names.old names.new list.name) }
    ensures paths { IfOk result (λ list. IsListOf schema.now list) }
{
    let place = Place::List(number);
    let fault = |kind| PolicyFault::At { place, kind };
    let members = members_as(Part::List, json).ok_or(fault(PolicyKind::Member))?;
    let name = text_in(members, "name").ok_or(fault(PolicyKind::Member))?;
    let groups = texts_of(alloc, members, "group")?.ok_or(fault(PolicyKind::Member))?;
    let items = items_in(members, "rule").ok_or(fault(PolicyKind::Member))?;
    if !names.take(name)? {
        return Err(fault(PolicyKind::DuplicateName));
    }
    Ok(RuleList {
        name: text_of(alloc, name)?,
        groups,
        rules: read_rules(alloc, schema, number, items)?,
    })
}

/// The rule lists that items are, or the first fault among them.
pub fn read_lists(alloc: Global, schema: &Schema, items: &[Json]) -> Result<RuleLists, PolicyFault>
    ensures read { Reads result (each_in (next_list schema.now) [] (items_view items.now)) }
    ensures paths { IfOk result (λ lists. All (IsListOf schema.now) lists) }
{
    let mut lists = Vec::new(alloc);
    let mut names = NameSet::new(alloc);
    for item in items {
        let number = lists.len();
        lists.push(read_list(alloc, schema, number, &mut names, item)?)?;
    }
    Ok(Series::from_vec(lists))
}

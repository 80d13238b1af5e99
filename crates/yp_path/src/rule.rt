//! Rule paths: reading.
ghost use Rattle.std.specs.Prelude.{◌≡◌, ◌<◌, length, All, IfOk, IfSome, Some, None, option_copied};
ghost use Rattle.yp_base.specs.Paths.{same_number};
ghost use Rattle.yp_schema.specs.Nodes.{is_in};
ghost use Rattle.yp_schema.specs.RulePaths.{IsRulePathOf};
ghost use Rattle.yp_path.specs.RulePaths.{pieces, node_named, key_named, given_for, is_new, each_once, key_value, rule_keys, with_predicates, rule_segment_in, rule_segments_in, rule_path_in};
ghost use Rattle.yp_path.specs.Targets.{Gives, asked};
ghost use Rattle.yp_path.specs.declared.mark.Place.TheVariants.{Outside};

use crate::cut::behind;
use crate::fault::{PathError, PathFault};
use crate::mark::{Place, cut_bare};
use crate::name::child_named;
use crate::predicate::{Predicate, name_of, read_part};
use crate::target::read_value;
use std::alloc::Global;
use yp_base::atom::Atom;
use yp_base::memory::NoMemory;
use yp_base::rule_path::{RuleKeys, RulePath, RuleSeg};
use yp_base::series::Series;
use yp_schema::schema::{Kind, Schema};
use yp_value::text::read_text_fits;

fn is_among(node: u32, nodes: &[u32]) -> bool
    ensures { result ≡ is_in node nodes.now }
{
    for other in nodes {
        if node == *other {
            return true;
        }
    }
    false
}

/// The node that a predicate's name stands for.
fn node_named(schema: &Schema, node: u32, name: &str) -> Option<u32>
    requires { node < length schema.now }
    ensures { result ≡ node_named schema.now node name.now }
{
    if name == "." {
        Some(node)
    } else {
        child_named(schema, Some(node), name)
    }
}

/// The key that a predicate's name stands for.
fn key_named(schema: &Schema, node: u32, keys: &[u32], name: &str) -> Option<u32>
    requires { node < length schema.now }
    ensures { result ≡ key_named schema.now node keys.now name.now }
{
    match node_named(schema, node, name) {
        Some(key) => { if is_among(key, keys) { Some(key) } else { None } }
        None => None,
    }
}

/// Whether a predicate stands for a key.
fn is_for(schema: &Schema, node: u32, keys: &[u32], key: u32, predicate: &Predicate) -> bool
    requires { node < length schema.now }
    ensures { result ≡ same_number (key_named schema.now node keys.now predicate.now.name) (Some key) }
{
    match key_named(schema, node, keys, predicate.name.as_str()) {
        Some(found) => found == key,
        None => false,
    }
}

/// The value that the first predicate for a key gives.
fn given_for<'a>(
    schema: &Schema,
    node: u32,
    keys: &[u32],
    key: u32,
    predicates: &'a [Predicate],
) -> Option<&'a str>
    requires { node < length schema.now }
    ensures { option_copied result ≡ given_for schema.now node keys.now key predicates.now }
{
    for predicate in predicates {
        if is_for(schema, node, keys, key, predicate) {
            return Some(predicate.value.as_str());
        }
    }
    None
}

/// Whether a predicate stands for a key, for which none of the others does.
fn is_new(
    schema: &Schema,
    node: u32,
    keys: &[u32],
    predicate: &Predicate,
    others: &[Predicate],
) -> bool
    requires { node < length schema.now }
    ensures { result ≡ is_new schema.now node keys.now others.now (key_named schema.now node keys.now predicate.now.name) }
{
    match key_named(schema, node, keys, predicate.name.as_str()) {
        Some(key) => given_for(schema, node, keys, key, others).is_none(),
        None => false,
    }
}

/// Whether each predicate stands for a key, and no two for the same.
fn each_once(schema: &Schema, node: u32, keys: &[u32], predicates: &[Predicate]) -> bool
    requires { node < length schema.now }
    ensures { result ≡ each_once schema.now node keys.now predicates.now }
{
    let mut rest = predicates;
    while let Some((predicate, others)) = rest.split_first() {
        if !is_new(schema, node, keys, predicate, others) {
            return false;
        }
        rest = others;
    }
    true
}

/// The value of a key: that which its predicate gives, or all.
fn read_key(
    alloc: Global,
    schema: &Schema,
    key: u32,
    given: Option<&str>,
) -> Result<Option<Option<Atom>>, NoMemory>
    requires { key < length schema.now }
    ensures { IfOk result (λ value. value ≡ key_value schema.now key (option_copied given.entry)) }
{
    match given {
        Some(text) => match read_value(alloc, schema, key, text)? {
            Some(value) => Ok(Some(Some(value))),
            None => Ok(None),
        },
        None => Ok(Some(None)),
    }
}

/// The values of a node's keys, by its predicates.
#[tactic(auto, using(crate::proofs::Cuts::put_between))]
fn read_rule_keys(
    alloc: Global,
    schema: &Schema,
    node: u32,
    keys: &[u32],
    predicates: &[Predicate],
) -> Result<Option<RuleKeys>, NoMemory>
    requires node { node < length schema.now }
    requires keys { All (λ key. key < length schema.now) keys.now }
    ensures { IfOk result (λ values. values ≡ rule_keys schema.now node keys.now predicates.now keys.now) }
{
    let mut values = Vec::new(alloc);
    for key in keys {
        match read_key(
            alloc,
            schema,
            *key,
            given_for(schema, node, keys, *key, predicates),
        )? {
            Some(value) => values.push(value)?,
            None => return Ok(None),
        }
    }
    Ok(Some(RuleKeys::from_vec(values)))
}

/// The segment at a node, by its keys and its predicates.
fn read_with_predicates(
    alloc: Global,
    schema: &Schema,
    node: u32,
    keys: &[u32],
    predicates: &[Predicate],
) -> Result<RuleSeg, PathFault>
    requires node { node < length schema.now }
    requires keys { All (λ key. key < length schema.now) keys.now }
    ensures read { Gives result (with_predicates schema.now node keys.now predicates.now) }
    ensures node { IfOk result (λ segment. segment.node ≡ node) }
{
    if !each_once(schema, node, keys, predicates) {
        return Err(PathFault::KeyCount);
    }
    match read_rule_keys(alloc, schema, node, keys, predicates)? {
        Some(keys) => Ok(RuleSeg { node, keys }),
        None => Err(PathFault::KeyValue),
    }
}

/// The segment at a node: a list has its keys, a leaf-list its value, any other node none.
#[tactic(auto, using(yp_schema::specs::SchemaLaws::keys_within))]
fn read_at_node(
    alloc: Global,
    schema: &Schema,
    node: u32,
    predicates: &[Predicate],
) -> Result<RuleSeg, PathFault>
    requires { node < length schema.now }
    ensures read { Gives result (with_predicates schema.now node (asked node schema.now) predicates.now) }
    ensures node { IfOk result (λ segment. segment.node ≡ node) }
{
    // What each schema keeps: the keys of its lists are nodes.
    let _count = schema.count();
    match schema.kind(node) {
        Kind::Container | Kind::Presence | Kind::Leaf => read_with_predicates(
            alloc,
            schema,
            node,
            &[],
            predicates,
        ),
        Kind::List => read_with_predicates(alloc, schema, node, schema.keys(node), predicates),
        Kind::LeafList => read_with_predicates(alloc, schema, node, &[node], predicates),
    }
}

/// A segment below a node, or at the top.
fn read_segment(
    alloc: Global,
    schema: &Schema,
    parent: Option<u32>,
    part: &str,
) -> Result<RuleSeg, PathFault>
    requires { IfSome parent (λ parent. parent < length schema.now) }
    ensures read { Gives result (rule_segment_in schema.now parent part.now) }
    ensures node { IfOk result (λ segment. segment.node < length schema.now) }
{
    let (name, read) = read_part(alloc, part)?;
    if name.is_empty() {
        return Err(PathFault::Syntax);
    }
    match read {
        Some(predicates) => match child_named(schema, parent, name) {
            Some(node) => read_at_node(alloc, schema, node, predicates.items()),
            None => Err(PathFault::UnknownNode),
        },
        None => Err(PathFault::Syntax),
    }
}

/// The segment that comes after so many others, below a node or at the top.
fn read_next(
    alloc: Global,
    schema: &Schema,
    parent: Option<u32>,
    part: &str,
    before: usize,
) -> Result<RuleSeg, PathError>
    requires { IfSome parent (λ parent. parent < length schema.now) }
    ensures read { Gives result (rule_segment_in schema.now parent part.now) }
    ensures node { IfOk result (λ segment. segment.node < length schema.now) }
{
    match read_segment(alloc, schema, parent, part) {
        Ok(segment) => Ok(segment),
        Err(fault) => {
            let name = name_of(part);
            let node = child_named(schema, parent, name);
            Err(PathError::at(alloc, fault, before, name, node))
        }
    }
}

/// The segments of a text without its leading `/`, from the top down.
#[tactic(auto, using(crate::proofs::RuleSegments::one_segment, crate::proofs::RuleSegments::last_segment, crate::proofs::RuleSegments::one_fault, crate::proofs::RuleSegments::last_fault))]
fn read_segments(alloc: Global, schema: &Schema, text: &str) -> Result<RulePath, PathError>
    ensures read { Gives result (rule_segments_in schema.now None (pieces 47 Outside text.now)) }
    ensures nodes { IfOk result (λ path. All (λ segment. segment.node < length schema.now) path) }
{
    let mut segments = Vec::new(alloc);
    let mut parent = None;
    let mut rest = text;
    while let Some((part, more)) = cut_bare(rest, b'/', Place::Outside) {
        let segment = read_next(alloc, schema, parent, part, segments.len())?;
        parent = Some(segment.node);
        segments.push(segment)?;
        rest = more;
    }
    let last = read_next(alloc, schema, parent, rest, segments.len())?;
    segments.push(last)?;
    Ok(Series::from_vec(segments))
}

/// The rule path that a text is (RFC 8341 section 3.5.2): segments of `/` and a name, in member form or
/// qualified, and predicates `[name='value']` or `[name="value"]` for keys, `[.='value']` for the value of
/// a leaf-list. Spaces may stand around a name, the `=` and a value. Keys stand in any order; one that no
/// predicate names stands for all values. The fault is the first of the leftmost segment that has one, which
/// the error names: `Syntax`, `UnknownNode`, `KeyCount` where a predicate names no key, or a key twice, and
/// `KeyValue` where a value is not of its key's type.
#[tactic(auto, using(crate::proofs::RuleSegments::unrooted))]
pub fn read_rule_path(alloc: Global, schema: &Schema, text: &str) -> Result<RulePath, PathError>
    ensures read { Gives result (rule_path_in schema.now text.now) }
    ensures path { IfOk result (λ path. IsRulePathOf schema.now path) }
    ensures nodes { IfOk result (λ path. All (λ segment. segment.node < length schema.now) path) }
{
    // What is read of a text fits its type.
    read_text_fits();
    match behind(text, '/') {
        Some(rest) => read_segments(alloc, schema, rest),
        None => Err(PathError::rootless()),
    }
}

//! The decision on reading one place (RFC 8341 section 3.4.5).
ghost use Rattle.std.specs.Prelude.{◌≡◌, ◌<◌, ◌≤◌, ◌++◌, ◌&&◌, IfSome, Some, length, take, true, false, nat_eq};
ghost use Rattle.yp_base.specs.Paths.{last_node};
ghost use Rattle.yp_schema.specs.Datastore.{is_path_of};
ghost use Rattle.yp_nacm.specs.Decision.{covers, decision, gives_keys, is_of_module, leaf_step, names_place, said};

use crate::compile::{UserRule, UserRules};
use yp_base::atom::Atom;
use yp_base::path::{Path, Seg};
use yp_base::rule_path::RuleSeg;
use yp_base::txt::Txt;
use yp_schema::schema::Schema;

/// Whether a rule's module or operation, `None` for each, is this one.
pub(crate) fn is_named(own: &Option<Txt>, name: &str) -> bool
    ensures { result ≡ is_of_module own.now name.now }
{
    match own {
        Some(own) => own.as_str() == name,
        None => true,
    }
}

/// Whether each key that a rule gives is the entry's.
fn are_given(given: &[Option<Atom>], keys: &[Atom]) -> bool
    ensures { result ≡ gives_keys given.now keys.now }
{
    match given.split_first() {
        None => keys.is_empty(),
        Some((first, more)) => match keys.split_first() {
            None => false,
            Some((key, rest)) => match first {
                None => are_given(more, rest),
                Some(own) => own == key && are_given(more, rest),
            },
        },
    }
}

/// Whether a rule's step is this one of a path, with the keys that it gives.
fn is_step(step: &RuleSeg, node: u32, keys: &[Atom]) -> bool
    ensures { result ≡ (nat_eq step.now.node node && gives_keys step.now.keys keys.now) }
{
    step.node == node && are_given(step.keys.items(), keys)
}

/// Whether what a rule's path names is a place, or stands above it. The place is at the end of these
/// segments, or a leaf below it.
fn is_at_or_above(steps: &[RuleSeg], segments: &[Seg], leaf: Option<u32>) -> bool
    ensures { result ≡ names_place steps.now (segments.now ++ leaf_step leaf) }
{
    let Some((step, more)) = steps.split_first() else {
        return true;
    };
    match segments.split_first() {
        Some((segment, rest)) => {
            is_step(step, segment.node, segment.keys.items()) && is_at_or_above(more, rest, leaf)
        }
        None => match leaf {
            Some(leaf) => is_step(step, leaf, &[]) && is_at_or_above(more, &[], None),
            None => false,
        },
    }
}

/// Whether the nodes of a rule's path are those of a place or of one above it, whatever keys are given.
fn has_nodes_of(steps: &[RuleSeg], segments: &[Seg], leaf: Option<u32>) -> bool
    ensures { result ≡ false → names_place steps.now (segments.now ++ leaf_step leaf) ≡ false }
{
    let Some((step, more)) = steps.split_first() else {
        return true;
    };
    match segments.split_first() {
        Some((segment, rest)) => step.node == segment.node && has_nodes_of(more, rest, leaf),
        None => match leaf {
            Some(leaf) => step.node == leaf,
            None => false,
        },
    }
}

/// Whether a rule's path names a place or one above it; a rule without a path is about each place. Most
/// paths name other nodes, so these are looked at before any key.
fn covers_place(rule: &UserRule, segments: &[Seg], leaf: Option<u32>) -> bool
    ensures { result ≡ covers rule.now.path (segments.now ++ leaf_step leaf) }
{
    match &rule.path {
        Some(path) => {
            has_nodes_of(path.items(), segments, leaf)
                && is_at_or_above(path.items(), segments, leaf)
        }
        None => true,
    }
}

/// What the first rule says that is about a place of this module, where there is one.
fn first_word(rules: &[UserRule], module: &str, segments: &[Seg], leaf: Option<u32>) -> Option<bool>
    ensures { result ≡ said module.now (segments.now ++ leaf_step leaf) rules.now }
{
    for rule in rules {
        if is_named(&rule.module, module) && covers_place(rule, segments, leaf) {
            return Some(rule.permit);
        }
    }
    None
}

/// The node of the place at the first `depth` segments of a path, or of the leaf below it.
#[tactic(auto, using(crate::proofs::Places::end_of_place, crate::proofs::Places::end_of_leaf, crate::proofs::Places::node_within))]
pub(crate) fn node_of_place(schema: &Schema, path: &Path, depth: usize, leaf: Option<u32>) -> u32
    requires depth { 1 ≤ depth }
    requires within { depth ≤ length path.now }
    requires path { is_path_of schema.now path.now ≡ true }
    requires leaf { IfSome leaf (λ leaf. leaf < length schema.now) }
    ensures end { last_node (take depth path.now ++ leaf_step leaf) ≡ Some result }
    ensures within { result < length schema.now }
{
    match leaf {
        Some(leaf) => leaf,
        None => path.items()[depth - 1].node,
    }
}

/// Whether a user with these rules may read the node at the first `depth` segments of a path, or at the
/// leaf below it (RFC 8341 section 3.4.5). It takes no memory, and a number of steps in proportion to
/// the rules and the depth.
pub fn permits(
    rules: &UserRules,
    schema: &Schema,
    path: &Path,
    depth: usize,
    leaf: Option<u32>,
) -> bool
    requires depth { 1 ≤ depth }
    requires within { depth ≤ length path.now }
    requires path { is_path_of schema.now path.now ≡ true }
    requires leaf { IfSome leaf (λ leaf. leaf < length schema.now) }
    ensures { result ≡ decision schema.now rules.now (take depth path.now ++ leaf_step leaf) }
{
    if !rules.enabled {
        return true;
    }
    let node = node_of_place(schema, path, depth, leaf);
    match first_word(
        rules.rules.items(),
        schema.module(node),
        &path.items()[..depth],
        leaf,
    ) {
        Some(permit) => permit,
        None => !schema.deny_all(node) && rules.read_permit,
    }
}

//! What a filter keeps (RFC 6241 section 6.2).
ghost use Rattle.std.specs.Prelude.{◌≡◌, [], ◌+◌, ◌<◌, ◌≤◌, length, take, drop, true, map, None, IfOk, OnOk, ◌||◌, ◌&&◌};
ghost use Rattle.std.specs.Cmp.Lexicographic.{slice_cmp};
ghost use Rattle.std.specs.Ordering.{is_eq};
ghost use Rattle.yp_base.specs.Order.{atom_cmp};
ghost use Rattle.yp_schema.specs.Datastore.{goes_down, is_path_of};
ghost use Rattle.yp_schema.specs.SchemaLaws.{node_after};
ghost use Rattle.yp_filter.specs.Filters.{set_size, filter_size};
ghost use Rattle.yp_filter.specs.Fits.{node_fits, set_fits, filter_fits};
ghost use Rattle.yp_filter.specs.View.{node_view, set_view, filter_view, nodes_of};
ghost use Rattle.yp_nacm.specs.Decision.{visible_rows};
ghost use Rattle.yp_kept.specs.Matches.{keys_asked, node_holds, all_hold};
ghost use Rattle.yp_kept.specs.Selection.{is_match, only_matches, node_names, set_names, node_selects, set_selects, enters, node_leads, set_leads, keeps, kept};
ghost use Rattle.yp_kept.specs.Visits.{match_count, match_visits, inner_count, inner_visits};

use crate::form::could_be_kept;
use crate::matching::match_holds;
use crate::visible::Visible;
use std::alloc::Global;
use std::sync::ledger::Ledger;
use yp_base::atom::Atom;
use yp_base::memory::NoMemory;
use yp_base::path::{Path, Seg};
use yp_base::row::Value;
use yp_base::steps::Steps;
use yp_filter::filter::{Filter, FilterNode, FilterSet};
use yp_nacm::readable::Readable;
use yp_schema::schema::{Kind, Schema};
use yp_tree::tree::Tree;

/// Whether a node of a filter holds at an instance, where it is a match node. It counts at most one visit,
/// and that for a match node.
fn node_holds<R: Readable, L: Ledger>(
    alloc: Global,
    visible: &Visible<R>,
    at: &[Seg],
    node: &FilterNode,
    steps: &mut Steps<L>,
) -> Result<bool, NoMemory>
    requires way { goes_down visible.now.schema.now None at.now ≡ true }
    requires fits { node_fits visible.now.schema.now (node_after None at.now) (node_view node.now) ≡ true }
    ensures holds { IfOk result (λ holds. holds ≡ node_holds visible.now.schema.now (visible_rows (R.may visible.now.readable.now visible.now.schema.now) visible.now.tree.now) at.now (node_view node.now)) }
    ensures visits { OnOk result (steps.new ≤ steps.old + match_count (node_view node.now)) }
{
    match node {
        FilterNode::Match { node, value } => match_holds(alloc, visible, at, *node, value, steps),
        FilterNode::UnknownMatch => Ok(false),
        _ => Ok(true),
    }
}

/// Whether each match node of a set holds at an instance. It counts at most a visit for each.
pub(crate) fn all_hold<R: Readable, L: Ledger>(
    alloc: Global,
    visible: &Visible<R>,
    at: &[Seg],
    set: &[FilterNode],
    steps: &mut Steps<L>,
) -> Result<bool, NoMemory>
    requires way { goes_down visible.now.schema.now None at.now ≡ true }
    requires fits { set_fits visible.now.schema.now (node_after None at.now) (nodes_of (map node_view set.now)) ≡ true }
    ensures holds { IfOk result (λ holds. holds ≡ all_hold visible.now.schema.now (visible_rows (R.may visible.now.readable.now visible.now.schema.now) visible.now.tree.now) at.now (nodes_of (map node_view set.now))) }
    ensures visits { OnOk result (steps.new ≤ steps.old + match_visits (nodes_of (map node_view set.now))) }
{
    for node in set {
        if !node_holds(alloc, visible, at, node, steps)? {
            return Ok(false);
        }
    }
    Ok(true)
}

fn is_match(node: &FilterNode) -> bool
    ensures { result ≡ is_match (node_view node.now) }
{
    match node {
        FilterNode::Match { .. } => true,
        FilterNode::UnknownMatch => true,
        _ => false,
    }
}

/// Whether a set has match nodes and nothing else.
#[tactic(auto, using(crate::proofs::Sets::all_then))]
pub(crate) fn only_matches(set: &[FilterNode]) -> bool
    ensures { result ≡ only_matches (nodes_of (map node_view set.now)) }
{
    for node in set {
        if !is_match(node) {
            return false;
        }
    }
    !set.is_empty()
}

/// Whether a set has a selection node of this child.
pub(crate) fn set_selects(node: u32, set: &[FilterNode]) -> bool
    ensures { result ≡ set_selects node (nodes_of (map node_view set.now)) }
{
    for each in set {
        if let FilterNode::Select { node: other } = each {
            if node == *other {
                return true;
            }
        }
    }
    false
}

/// Whether these are the keys of the row that a match on a node of this kind asks for.
fn are_asked(kind: Kind, value: &Value, keys: &[Atom]) -> bool
    ensures { result ≡ is_eq (slice_cmp atom_cmp (keys_asked kind value.now) keys.now) }
{
    if let Kind::LeafList = kind {
        if let Value::Atom(atom) = value {
            return match keys.split_first() {
                Some((key, rest)) => atom == key && rest.is_empty(),
                None => false,
            };
        }
    }
    keys.is_empty()
}

/// Whether a segment is that of the row that a node asks for, where it is a match node.
fn node_names(schema: &Schema, segment: &Seg, node: &FilterNode) -> bool
    requires { segment.now.node < length schema.now }
    ensures { result ≡ node_names schema.now segment.now (node_view node.now) }
{
    match node {
        FilterNode::Match { node, value } => {
            *node == segment.node
                && are_asked(schema.kind(segment.node), value, segment.keys.items())
        }
        _ => false,
    }
}

/// Whether a segment is that of a row that a match node asks for.
pub(crate) fn set_names(schema: &Schema, segment: &Seg, set: &[FilterNode]) -> bool
    requires { segment.now.node < length schema.now }
    ensures { result ≡ set_names schema.now segment.now (nodes_of (map node_view set.now)) }
{
    for node in set {
        if node_names(schema, segment, node) {
            return true;
        }
    }
    false
}

/// Whether a set keeps what is below an instance by itself, where none of its containment nodes does.
pub(crate) fn keeps_here(schema: &Schema, segment: &Seg, is_last: bool, set: &[FilterNode]) -> bool
    requires { segment.now.node < length schema.now }
    ensures { result ≡ ((is_last && set_names schema.now segment.now (nodes_of (map node_view set.now)))
        || only_matches (nodes_of (map node_view set.now)) || set_selects segment.now.node (nodes_of (map node_view set.now))) }
{
    if is_last && set_names(schema, segment, set) {
        return true;
    }
    only_matches(set) || set_selects(segment.node, set)
}

/// Whether a set can be processed at the instance at the first segments of a path, which is one of this
/// node. It counts at most one visit.
pub(crate) fn enters<R: Readable, L: Ledger>(
    alloc: Global,
    visible: &Visible<R>,
    path: &Path,
    depth: usize,
    node: u32,
    steps: &mut Steps<L>,
) -> Result<bool, NoMemory>
    requires node { node < length visible.now.schema.now }
    requires path { is_path_of visible.now.schema.now (take depth path.now) ≡ true }
    ensures enters { IfOk result (λ entered. entered ≡ enters visible.now.schema.now (visible_rows (R.may visible.now.readable.now visible.now.schema.now) visible.now.tree.now) (take depth path.now) node) }
    ensures visits { OnOk result (steps.new ≤ steps.old + 1) }
{
    match visible.schema.kind(node) {
        Kind::Container | Kind::Presence => Ok(true),
        Kind::List => {
            let entry = path.first(depth)?;
            Ok(visible.value_at(&entry, steps).is_some())
        }
        Kind::Leaf | Kind::LeafList => Ok(false),
    }
}

/// Whether a set at the instance at the first segments of a path keeps the path. It counts at most one visit
/// for each of its nodes.
#[cycle(keeps)]
#[tactic(auto, using(crate::proofs::Leading::parts_size))]
fn keeps<R: Readable, L: Ledger>(
    alloc: Global,
    visible: &Visible<R>,
    set: &FilterSet,
    path: &Path,
    depth: usize,
    steps: &mut Steps<L>,
) -> Result<bool, NoMemory>
    requires way { goes_down visible.now.schema.now None path.now ≡ true }
    requires depth { depth ≤ length path.now }
    requires fits { set_fits visible.now.schema.now (node_after None (take depth path.now)) (set_view set.now) ≡ true }
    ensures keeps { IfOk result (λ is. is ≡ keeps visible.now.schema.now (visible_rows (R.may visible.now.readable.now visible.now.schema.now) visible.now.tree.now) (set_view set.now) (take depth path.now) (drop depth path.now)) }
    ensures visits { OnOk result (steps.new ≤ steps.old + set_size (set_view set.now)) }
{
    let (at, rest) = path.items().split_at(depth);
    if !all_hold(alloc, visible, at, set.items(), steps)? {
        return Ok(false);
    }
    match rest.first() {
        None => Ok(true),
        Some(segment) => {
            if keeps_here(visible.schema, segment, rest.len() == 1, set.items()) {
                return Ok(true);
            }
            set_leads(alloc, visible, set, path, depth, steps)
        }
    }
}

/// Whether one of a set's containment nodes keeps the path. It counts at most one visit for each of these,
/// and one for each node in it.
#[cycle(keeps)]
fn set_leads<R: Readable, L: Ledger>(
    alloc: Global,
    visible: &Visible<R>,
    set: &FilterSet,
    path: &Path,
    depth: usize,
    steps: &mut Steps<L>,
) -> Result<bool, NoMemory>
    requires way { goes_down visible.now.schema.now None path.now ≡ true }
    requires depth { depth < length path.now }
    requires fits { set_fits visible.now.schema.now (node_after None (take depth path.now)) (set_view set.now) ≡ true }
    ensures leads { IfOk result (λ is. is ≡ set_leads visible.now.schema.now (visible_rows (R.may visible.now.readable.now visible.now.schema.now) visible.now.tree.now) (set_view set.now) (take depth path.now) (drop depth path.now)) }
    ensures visits { OnOk result (steps.new ≤ steps.old + inner_visits (set_view set.now)) }
{
    for node in set.items() {
        if node_leads(alloc, visible, node, path, depth, steps)? {
            return Ok(true);
        }
    }
    Ok(false)
}

/// Whether a node of a set keeps the path, where it is a containment node. It counts at most one visit for
/// itself, and one for each node in it.
#[cycle(keeps)]
#[tactic(auto, using(crate::proofs::Leading::fits_within, yp_filter::specs::ViewLaws::node_within))]
fn node_leads<R: Readable, L: Ledger>(
    alloc: Global,
    visible: &Visible<R>,
    node: &FilterNode,
    path: &Path,
    depth: usize,
    steps: &mut Steps<L>,
) -> Result<bool, NoMemory>
    requires way { goes_down visible.now.schema.now None path.now ≡ true }
    requires depth { depth < length path.now }
    requires fits { node_fits visible.now.schema.now (node_after None (take depth path.now)) (node_view node.now) ≡ true }
    ensures leads { IfOk result (λ is. is ≡ node_leads visible.now.schema.now (visible_rows (R.may visible.now.readable.now visible.now.schema.now) visible.now.tree.now) (node_view node.now) (take depth path.now) (drop depth path.now)) }
    ensures visits { OnOk result (steps.new ≤ steps.old + inner_count (node_view node.now)) }
{
    match node {
        FilterNode::Within { node, set } => {
            if path.items()[depth].node != *node {
                return Ok(false);
            }
            if !enters(alloc, visible, path, depth + 1, *node, steps)? {
                return Ok(false);
            }
            keeps(alloc, visible, set, path, depth + 1, steps)
        }
        _ => Ok(false),
    }
}

/// Whether a filter keeps the row at a path, among the rows that may be read: what may not be read decides
/// nothing. It counts at most one visit for each node of the filter. Where the filter's form alone says no,
/// no row is looked up.
#[tactic(auto, using(crate::specs::FormLaws::not_kept))]
pub fn kept<R: Readable, L: Ledger>(
    alloc: Global,
    schema: &Schema,
    filter: &Filter,
    readable: &R,
    tree: &Tree,
    path: &Path,
    steps: &mut Steps<L>,
) -> Result<bool, NoMemory>
    requires way { goes_down schema.now None path.now ≡ true }
    requires fits { filter_fits schema.now (filter_view filter.now) ≡ true }
    ensures kept { IfOk result (λ is. is ≡ kept schema.now (filter_view filter.now) (visible_rows (R.may readable.now schema.now) tree.now) path.now) }
    ensures visits { OnOk result (steps.new ≤ steps.old + filter_size (filter_view filter.now)) }
{
    if !could_be_kept(schema, filter, path) {
        return Ok(false);
    }
    match filter {
        Filter::All => Ok(true),
        Filter::Set(set) => {
            let visible = Visible {
                schema,
                readable,
                tree,
            };
            keeps(alloc, &visible, set, path, 0, steps)
        }
    }
}

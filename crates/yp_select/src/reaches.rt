//! Where the rows that a filter keeps can be, told from the filter alone.
ghost use Rattle.std.specs.Prelude.{◌≡◌, ◌++◌, [], ◌<◌, length, true, map, option_copied, IfOk, OnOk};
ghost use Rattle.yp_filter.specs.View.{node_view, set_view, nodes_of};
ghost use Rattle.yp_select.specs.Reaches.{node_key, key_asked, asks_keys, entry_keys, names_one, is_narrow, are_narrow, own_of_node, own_reached, below_of_node, below_reached, node_stands, set_stands};

use std::alloc::Global;
use yp_base::atom::Atom;
use yp_base::keys::Keys;
use yp_base::memory::{Duplicate, NoMemory};
use yp_base::path::{Path, Seg};
use yp_base::series::Series;
use yp_filter::filter::{FilterNode, FilterSet};
use yp_kept::matching::atom_in;
use yp_schema::schema::{Kind, Schema};

/// Where the rows that a filter keeps can be: at the paths of `own`, and at or below those of `below`.
#[derive(Drop)]
pub struct Reaches {
    pub own: Vec<Path>,
    pub below: Vec<Path>,
}

/// The atom that a node asks for of a key, where it is a match node.
fn node_key(key: u32, node: &FilterNode) -> Option<&Atom>
    ensures { option_copied result ≡ node_key key (node_view node.now) }
{
    match node {
        FilterNode::Match { node, value } => {
            if *node == key {
                atom_in(Some(value))
            } else {
                None
            }
        }
        _ => None,
    }
}

/// The first atom that a set asks for of a key.
fn key_asked(key: u32, set: &[FilterNode]) -> Option<&Atom>
    ensures { option_copied result ≡ key_asked key (nodes_of (map node_view set.now)) }
{
    for node in set {
        if let Some(atom) = node_key(key, node) {
            return Some(atom);
        }
    }
    None
}

/// Whether a set asks for an atom of each key.
fn asks_keys(keys: &[u32], set: &[FilterNode]) -> bool
    ensures { result ≡ asks_keys keys.now (nodes_of (map node_view set.now)) }
{
    for key in keys {
        if key_asked(*key, set).is_none() {
            return false;
        }
    }
    true
}

/// The atoms that a set asks for of keys.
fn entry_keys(alloc: Global, keys: &[u32], set: &[FilterNode]) -> Result<Keys, NoMemory>
    ensures { IfOk result (λ atoms. atoms ≡ entry_keys keys.now (nodes_of (map node_view set.now))) }
{
    let mut atoms = Vec::new(alloc);
    for key in keys {
        if let Some(atom) = key_asked(*key, set) {
            atoms.push(atom.copy(alloc)?)?;
        }
    }
    Keys::from_vec(alloc, atoms)
}

/// Whether a containment node is of one instance: of a container, or of the list entry whose keys its set
/// asks for.
fn names_one(schema: &Schema, node: u32, set: &[FilterNode]) -> bool
    requires { node < length schema.now }
    ensures { result ≡ names_one schema.now node (nodes_of (map node_view set.now)) }
{
    match schema.kind(node) {
        Kind::Container | Kind::Presence => true,
        Kind::List => asks_keys(schema.keys(node), set),
        Kind::Leaf | Kind::LeafList => false,
    }
}

/// Whether a node keeps nothing but what is in one instance.
#[tactic(auto, using(yp_filter::specs::ViewLaws::node_within, yp_filter::specs::ViewLaws::set_nodes))]
fn is_narrow(schema: &Schema, node: &FilterNode) -> bool
    requires { node_stands schema.now (node_view node.now) ≡ true }
    ensures { result ≡ is_narrow schema.now (node_view node.now) }
{
    match node {
        FilterNode::Within { node, set } => names_one(schema, *node, set.items()),
        FilterNode::Unknown => true,
        _ => false,
    }
}

/// Whether each node of a set keeps nothing but what is in one instance.
fn are_narrow(schema: &Schema, set: &[FilterNode]) -> bool
    requires { set_stands schema.now (nodes_of (map node_view set.now)) ≡ true }
    ensures { result ≡ are_narrow schema.now (nodes_of (map node_view set.now)) }
{
    for node in set {
        if !is_narrow(schema, node) {
            return false;
        }
    }
    true
}

/// Adds where a set at an instance can keep rows.
#[cycle(reach)]
fn add_set(
    alloc: Global,
    schema: &Schema,
    set: &FilterSet,
    at: Path,
    reaches: &mut Reaches,
) -> Result<(), NoMemory>
    requires { set_stands schema.now (set_view set.now) ≡ true }
    ensures own { OnOk result (reaches.new.own.items ≡ reaches.old.own.items ++ own_reached schema.now (set_view set.now) at) }
    ensures below { OnOk result (reaches.new.below.items ≡ reaches.old.below.items ++ below_reached schema.now (set_view set.now) at) }
{
    if !are_narrow(schema, set.items()) {
        reaches.below.push(at)?;
        return Ok(());
    }
    for node in set.items() {
        add_node(alloc, schema, node, &at, reaches)?;
    }
    reaches.own.push(at)?;
    Ok(())
}

/// Adds where a node of a set at an instance can keep rows.
#[cycle(reach)]
#[tactic(auto, using(yp_filter::specs::ViewLaws::node_within, yp_filter::specs::ViewLaws::set_nodes))]
fn add_node(
    alloc: Global,
    schema: &Schema,
    node: &FilterNode,
    at: &Path,
    reaches: &mut Reaches,
) -> Result<(), NoMemory>
    requires { node_stands schema.now (node_view node.now) ≡ true }
    ensures own { OnOk result (reaches.new.own.items ≡ reaches.old.own.items ++ own_of_node schema.now (node_view node.now) at.now) }
    ensures below { OnOk result (reaches.new.below.items ≡ reaches.old.below.items ++ below_of_node schema.now (node_view node.now) at.now) }
{
    if let FilterNode::Within { node, set } = node {
        let keys = entry_keys(alloc, schema.keys(*node), set.items())?;
        let below = at.below(alloc, Seg { node: *node, keys })?;
        add_set(alloc, schema, set, below, reaches)?;
    }
    Ok(())
}

/// Where a filter's set can keep rows.
pub fn reaches_of(alloc: Global, schema: &Schema, set: &FilterSet) -> Result<Reaches, NoMemory>
    requires { set_stands schema.now (set_view set.now) ≡ true }
    ensures own { IfOk result (λ reaches. reaches.own.items ≡ own_reached schema.now (set_view set.now) []) }
    ensures below { IfOk result (λ reaches. reaches.below.items ≡ below_reached schema.now (set_view set.now) []) }
{
    let mut reaches = Reaches {
        own: Vec::new(alloc),
        below: Vec::new(alloc),
    };
    let top = Path::top(alloc)?;
    add_set(alloc, schema, set, top, &mut reaches)?;
    Ok(reaches)
}

//! The children of each node by their member forms, and which nodes are keys.
ghost use Rattle.std.specs.BTreeMap.{get_by_text};
ghost use Rattle.std.specs.Prelude.{◌≡◌, ◌<◌, ◌+◌, ◌^◌, ◌&&◌, ℕ, List, Some, None, OnOk, IfOk, length, if◌then◌else◌, nat_eq, vec_len};
ghost use Rattle.yp_base.specs.Types.{same_text};
ghost use Rattle.yp_schema.specs.Index.{indexed_at, slot_of, IsIndex, TellsKeys};
ghost use Rattle.yp_schema.specs.Nodes.{node_at, is_in, is_key};
ghost use Rattle.yp_schema.specs.WellFormed.{IsSchema};

use crate::schema::SchemaNode;
use std::alloc::Global;
use std::collections::BTreeMap;
use yp_base::memory::NoMemory;

/// The numbers of the children of one node, by member form.
pub type Children = BTreeMap<String, u32>;

/// The slot of the children of a node, or of the top.
pub fn slot_of(parent: Option<u32>) -> usize
    ensures { result ≡ slot_of parent }
{
    match parent {
        Some(parent) => parent as usize + 1,
        None => 0,
    }
}

/// The number of a child in a slot.
pub fn look_up(index: &[Children], slot: usize, name: &str) -> Option<u32>
    ensures { result ≡ indexed_at slot name.now index.now }
{
    match index.get(slot) {
        Some(children) => children.get(name).copied(),
        None => None,
    }
}

fn enter_name(
    alloc: Global,
    children: &mut Children,
    name: &str,
    number: u32,
) -> Result<(), NoMemory>
    ensures { OnOk result ((q : List ℕ) → get_by_text children.new q ≡ (if same_text name.now q then Some number else get_by_text children.old q)) }
{
    children.insert(String::from_str(alloc, name)?, number)?;
    Ok(())
}

fn enter(
    alloc: Global,
    index: &mut Vec<Children>,
    slot: usize,
    name: &str,
    number: u32,
) -> Result<(), NoMemory>
    requires { slot < vec_len index.old }
    ensures entered { OnOk result ((s : ℕ) (q : List ℕ) → indexed_at s q index.new.items ≡ (if nat_eq slot s && same_text name.now q then Some number else indexed_at s q index.old.items)) }
    ensures len { OnOk result (vec_len index.new ≡ vec_len index.old) }
{
    enter_name(alloc, &mut index[slot], name, number)
}

/// Slots without children.
fn empty_slots(alloc: Global, count: usize) -> Result<Vec<Children>, NoMemory>
    ensures empty { IfOk result (λ index. (s : ℕ) (q : List ℕ) → indexed_at s q index.items ≡ None) }
    ensures len { IfOk result (λ index. vec_len index ≡ count) }
{
    let mut index = Vec::new(alloc);
    for _ in 0..count {
        index.push(BTreeMap::new(alloc))?;
    }
    Ok(index)
}

/// The index of the nodes of a schema. The later of two children with one member form is entered first.
pub fn index_nodes(alloc: Global, nodes: &[SchemaNode]) -> Result<Vec<Children>, NoMemory>
    requires { IsSchema nodes.now }
    ensures { IfOk result (λ index. IsIndex index.items nodes.now) }
{
    let mut index = empty_slots(alloc, nodes.len() + 1)?;
    let mut at = nodes.len();
    while at > 0 {
        at -= 1;
        let node = &nodes[at];
        enter(
            alloc,
            &mut index,
            slot_of(node.parent),
            node.member.as_str(),
            at as u32,
        )?;
    }
    Ok(index)
}

fn is_among(node: u32, nodes: &[u32]) -> bool
    ensures { result ≡ is_in node nodes.now }
{
    for other in nodes {
        if node == *other {
            return true;
        }
    }
    false
}

/// Whether a node is a key of its parent.
#[tactic(auto, using(crate::specs::SchemaLaws::parent_before))]
fn is_key_at(nodes: &[SchemaNode], at: usize) -> bool
    requires schema { IsSchema nodes.now }
    requires within { at < length nodes.now }
    ensures { result ≡ is_key at (node_at at nodes.now).parent nodes.now }
{
    match nodes[at].parent {
        Some(parent) => is_among(at as u32, nodes[parent as usize].keys.items()),
        None => false,
    }
}

/// Which nodes of a schema are keys.
pub fn tell_keys(alloc: Global, nodes: &[SchemaNode]) -> Result<Vec<bool>, NoMemory>
    requires { IsSchema nodes.now }
    ensures { IfOk result (λ flags. TellsKeys flags.items nodes.now) }
{
    let mut flags = Vec::new(alloc);
    while flags.len() < nodes.len() {
        flags.push(is_key_at(nodes, flags.len()))?;
    }
    Ok(flags)
}

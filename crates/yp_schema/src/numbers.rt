//! The numbers of nodes: in pre-order, siblings in byte order of their member forms.
ghost use Rattle.std.specs.Prelude.{◌≡◌, ◌<◌, ◌^◌, ◌++◌, ◌∷◌, [], length, IfOk, map};
ghost use Rattle.yp_names.specs.Names.{front, last};
ghost use Rattle.yp_schema.specs.WellFormed.{IsSchema};
ghost use Rattle.yp_schema.specs.Reading.{numbers_from, number_of, key_numbers, numbered_node, numbered};

use crate::listing::{Listed, Listing};
use crate::schema::SchemaNode;
use std::alloc::Global;
use std::collections::BTreeMap;
use std::marker::Model;
use yp_base::leaf_type::Names;
use yp_base::memory::{Duplicate, NoMemory};
use yp_base::series::Series;
use yp_base::txt::{Txt, text_of};
use yp_names::names::{front_of, last_of, with_name};

/// The numbers of nodes, by the names on the way to them.
#[derive(Drop)]
pub struct Numbers {
    kept: BTreeMap<Names, u32>,
}

impl Model for Numbers {
    ghost use Rattle.yp_schema.specs.Reading as reading;

    ghost Value = { reading.Numbers };

    ghost view = { λ n. n.kept.entries };
}

impl Numbers {
    /// The places of listed nodes.
    fn of_nodes(alloc: Global, nodes: &BTreeMap<Names, Listed>) -> Result<Numbers, NoMemory>
        requires { length nodes.now.entries < 2 ^ 32 }
        ensures { IfOk result (λ numbers. numbers ≡ numbers_from 0 nodes.now.entries) }
    {
        let mut kept = BTreeMap::new(alloc);
        let mut place = 0;
        for (path, _) in nodes.iter() {
            kept.insert(path.copy(alloc)?, place)?;
            place += 1;
        }
        Ok(Numbers { kept })
    }

    fn get(&self, path: &Names) -> Option<u32>
        ensures { result ≡ number_of path.now self.now }
    {
        self.kept.get(path).copied()
    }
}

/// The number of a key.
fn key_number(
    alloc: Global,
    path: &Names,
    key: &Txt,
    numbers: &Numbers,
) -> Result<Option<u32>, NoMemory>
    ensures { IfOk result (λ number. number ≡ number_of (path.now ++ key.now ∷ []) numbers.now) }
{
    let names = with_name(alloc, path, key)?;
    Ok(numbers.get(&names))
}

/// The numbers of the keys of a list.
fn key_numbers(
    alloc: Global,
    path: &Names,
    keys: &Names,
    numbers: &Numbers,
) -> Result<Series<u32>, NoMemory>
    ensures { IfOk result (λ made. made ≡ key_numbers path.now keys.now numbers.now) }
{
    let mut made = Vec::new(alloc);
    for key in keys.items() {
        match key_number(alloc, path, key, numbers)? {
            Some(number) => made.push(number)?,
            None => {}
        }
    }
    Ok(Series::from_vec(made))
}

/// Where a node stands: the number of its parent, the numbers of its keys, and its member form.
#[derive(Drop)]
struct Standing {
    parent: Option<u32>,
    keys: Series<u32>,
    member: Txt,
}

/// Where the node at a path stands, by the names of its keys.
fn standing_of(
    alloc: Global,
    path: &Names,
    keys: &Names,
    numbers: &Numbers,
) -> Result<Standing, NoMemory>
    ensures parent { IfOk result (λ made. made.parent ≡ number_of (front path.now) numbers.now) }
    ensures keys { IfOk result (λ made. made.keys ≡ key_numbers path.now keys.now numbers.now) }
    ensures member { IfOk result (λ made. made.member ≡ last path.now) }
{
    let above = front_of(alloc, path)?;
    let parent = numbers.get(&above);
    let keys = key_numbers(alloc, path, keys, numbers)?;
    let member = text_of(alloc, last_of(path))?;
    Ok(Standing {
        parent,
        keys,
        member,
    })
}

/// A listed node where it stands.
fn placed_at(node: Listed, standing: Standing) -> SchemaNode
    ensures { result ≡ record { parent = standing.parent; kind = node.body.kind; home = node.home; name = node.name; member = standing.member; keys = standing.keys; ty = node.body.ty; deny_all = node.body.deny_all } }
{
    let Listed { home, name, body } = node;
    let Standing {
        parent,
        keys,
        member,
    } = standing;
    SchemaNode {
        parent,
        kind: body.kind,
        home,
        name,
        member,
        keys,
        ty: body.ty,
        deny_all: body.deny_all,
    }
}

/// A listed node with the numbers of its parent and keys.
fn number_node(
    alloc: Global,
    path: Names,
    node: Listed,
    numbers: &Numbers,
) -> Result<SchemaNode, NoMemory>
    ensures { IfOk result (λ made. made ≡ numbered_node numbers.now (path, node)) }
{
    let standing = standing_of(alloc, &path, &node.body.keys, numbers)?;
    Ok(placed_at(node, standing))
}

fn number_all(
    alloc: Global,
    nodes: BTreeMap<Names, Listed>,
    numbers: &Numbers,
) -> Result<Vec<SchemaNode>, NoMemory>
    ensures { IfOk result (λ made. made.items ≡ map (numbered_node numbers.now) nodes.entries) }
{
    let mut made = Vec::new(alloc);
    for (path, node) in nodes {
        made.push(number_node(alloc, path, node, numbers)?)?;
    }
    Ok(made)
}

/// The listed nodes in their order, with numbers.
pub fn number_nodes(alloc: Global, nodes: Listing) -> Result<Vec<SchemaNode>, NoMemory>
    requires { IsSchema (numbered nodes) }
    ensures { IfOk result (λ made. made.items ≡ numbered nodes) }
{
    let Listing { kept } = nodes;
    let numbers = Numbers::of_nodes(alloc, &kept)?;
    number_all(alloc, kept, &numbers)
}

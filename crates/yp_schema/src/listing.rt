//! The nodes of the parts so far, by the names on the way to them.
ghost use Rattle.std.specs.BTreeMap.{insert_entry};
ghost use Rattle.std.specs.Prelude.{◌≡◌, ◌++◌, ◌∷◌, [], IfOk, OnOk, MatchOption, Ok, Err, map, length, is_some, option_copied, option_map};
ghost use Rattle.serde_json.specs.View.{view, items_view};
ghost use Rattle.serde_json.specs.Find.{as_array};
ghost use Rattle.yp_names.specs.Names.{names_cmp, front};
ghost use Rattle.yp_schema.specs.Nodes.{may_hold};
ghost use Rattle.yp_schema.specs.Reading.{Leaves, Reads, numbered};
ghost use Rattle.yp_schema.specs.Rounds.{listed_at, parent_module, own_module, module_in, atoms_in, is_typed, placed, in_module, added, at_place, first_round, keys_there, may_be_key, keys_fit, checked, second_round, part_in, parts_in};
ghost use Rattle.yp_schema.specs.Stated.{node_in};
ghost use Rattle.yp_schema.specs.WellFormed.{IsSchema};

use crate::fault::{SchemaFault, SchemaKind};
use crate::schema::Kind;
use crate::stated::{Body, Stated, read_node};
use serde_json::Value as Json;
use std::alloc::Global;
use std::collections::BTreeMap;
use std::marker::Model;
use yp_base::leaf_type::{LeafType, Names};
use yp_base::memory::{Duplicate, NoMemory};
use yp_base::txt::Txt;
use yp_names::names::{front_of, with_name};

/// A node that was taken up: its module, its name, and what its part says of it.
#[derive(Drop)]
pub struct Listed {
    pub home: Txt,
    pub name: Txt,
    pub body: Body,
}

/// The nodes so far, by the names on the way to them.
#[derive(Drop)]
pub struct Listing {
    pub(crate) kept: BTreeMap<Names, Listed>,
}

impl Model for Listing {
    ghost use Rattle.yp_schema.specs.Rounds.{Nodes};

    ghost Value = { Nodes };

    ghost view = { λ l. l.kept.entries };
}

impl Listing {
    fn get(&self, path: &Names) -> Option<&Listed>
        ensures { option_copied result ≡ listed_at path.now self.now }
    {
        self.kept.get(path)
    }

    /// Enters a node, in place of one that stands at the path.
    fn enter(&mut self, path: Names, node: Listed) -> Result<(), NoMemory>
        ensures { OnOk result (self.new ≡ insert_entry names_cmp self.old path node) }
    {
        self.kept.insert(path, node)?;
        Ok(())
    }

    /// The module of a parent: the top, which has none, or a listed container or list. `None` where there
    /// is no such parent.
    fn parent_module(&self, path: &Names) -> Option<Option<&Txt>>
        ensures { option_map (λ home. option_copied home) result ≡ parent_module path.now self.now }
    {
        if path.len() == 0 {
            return Some(None);
        }
        match self.get(path) {
            Some(node) => {
                if may_hold(node.body.kind) {
                    Some(Some(&node.home))
                } else {
                    None
                }
            }
            None => None,
        }
    }
}

/// Whether a node of this kind has children.
fn may_hold(kind: Kind) -> bool
    ensures { result ≡ may_hold kind }
{
    matches!(kind, Kind::Container | Kind::Presence | Kind::List)
}

fn atoms_in(ty: &Option<LeafType>) -> bool
    ensures { result ≡ atoms_in ty.now }
{
    match ty {
        Some(LeafType::Empty) => false,
        Some(_) => true,
        None => false,
    }
}

/// Whether a leaf has a type, and a leaf-list one whose values are atoms.
fn is_typed(kind: Kind, ty: &Option<LeafType>) -> bool
    ensures { result ≡ is_typed kind ty.now }
{
    match kind {
        Kind::Container | Kind::Presence | Kind::List => true,
        Kind::Leaf => ty.is_some(),
        Kind::LeafList => atoms_in(ty),
    }
}

/// The module of a node, by its parent's and by the one in front of its name: a module stands in front at
/// the top and where it isn't the parent's, and only there (RFC 7951 section 4).
fn own_module(
    alloc: Global,
    above: Option<&Txt>,
    home: Option<Txt>,
) -> Result<Option<Txt>, NoMemory>
    ensures { IfOk result (λ own. own ≡ own_module (option_copied above.entry) home) }
{
    match above {
        None => Ok(home),
        Some(above) => match home {
            None => Ok(Some(above.copy(alloc)?)),
            Some(home) => {
                if home.as_str() == above.as_str() {
                    Ok(None)
                } else {
                    Ok(Some(home))
                }
            }
        },
    }
}

/// The module of a node. `None` where there is no such parent, or where a module stands in front of the
/// name or is missing against the rule.
fn module_of(
    alloc: Global,
    path: &Names,
    home: Option<Txt>,
    nodes: &Listing,
) -> Result<Option<Txt>, NoMemory>
    ensures { IfOk result (λ own. own ≡ module_in path.now home nodes.now) }
{
    let above = front_of(alloc, path)?;
    match nodes.parent_module(&above) {
        Some(above) => own_module(alloc, above, home),
        None => Ok(None),
    }
}

/// What is wrong with a node of a module that is known, if anything is.
fn fault_in(path: &Names, node: &Listed, nodes: &Listing) -> Option<SchemaKind>
    ensures { MatchOption result (placed path.now node.now nodes.now ≡ Ok (insert_entry names_cmp nodes.now path.now node.now)) (λ kind. placed path.now node.now nodes.now ≡ Err kind) }
{
    if nodes.get(path).is_some() {
        Some(SchemaKind::Duplicate)
    } else if !is_typed(node.body.kind, &node.body.ty) {
        Some(SchemaKind::UnknownType)
    } else if path.len() > 16 {
        Some(SchemaKind::TooDeep)
    } else if nodes.kept.len() >= 4096 {
        Some(SchemaKind::TooMany)
    } else {
        None
    }
}

/// Takes up a node of a module that is known.
fn place_node(
    part: usize,
    place: usize,
    path: Names,
    node: Listed,
    nodes: &mut Listing,
) -> Result<(), SchemaFault>
    ensures { Leaves result nodes.new (at_place part place (placed path node nodes.old)) }
{
    if let Some(kind) = fault_in(&path, &node, nodes) {
        return Err(SchemaFault::At { part, place, kind });
    }
    nodes.enter(path, node)?;
    Ok(())
}

/// Takes up a node as its part states it.
fn take_stated(
    alloc: Global,
    part: usize,
    place: usize,
    node: Stated,
    nodes: &mut Listing,
) -> Result<(), SchemaFault>
    ensures { Leaves result nodes.new (at_place part place (added (Some node) nodes.old)) }
{
    let Stated {
        path,
        home,
        name,
        body,
    } = node;
    match module_of(alloc, &path, home, nodes)? {
        Some(home) => place_node(part, place, path, Listed { home, name, body }, nodes),
        None => Err(SchemaFault::At {
            part,
            place,
            kind: SchemaKind::Member,
        }),
    }
}

/// Takes up what a part says of a node.
fn take_node(
    alloc: Global,
    part: usize,
    place: usize,
    json: &Json,
    nodes: &mut Listing,
) -> Result<(), SchemaFault>
    ensures { Leaves result nodes.new (at_place part place (added (node_in (view json.now)) nodes.old)) }
{
    match read_node(alloc, json)? {
        Some(node) => take_stated(alloc, part, place, node, nodes),
        None => Err(SchemaFault::At {
            part,
            place,
            kind: SchemaKind::Member,
        }),
    }
}

/// The first round of a part: each node in order.
fn take_nodes(
    alloc: Global,
    part: usize,
    items: &Vec<Json>,
    nodes: &mut Listing,
) -> Result<(), SchemaFault>
    ensures { Leaves result nodes.new (first_round part 0 (items_view items.now.items) nodes.old) }
{
    let mut place = 0;
    for item in items {
        take_node(alloc, part, place, item, nodes)?;
        place += 1;
    }
    Ok(())
}

/// The node that a key of the list at a path names.
fn listed_key<'a>(
    alloc: Global,
    path: &Names,
    key: &Txt,
    nodes: &'a Listing,
) -> Result<Option<&'a Listed>, NoMemory>
    ensures { IfOk result (λ node. option_copied node ≡ listed_at (path.now ++ key.now ∷ []) nodes.now) }
{
    let names = with_name(alloc, path, key)?;
    Ok(nodes.get(&names))
}

/// Whether it is a leaf that isn't empty.
fn may_be_key(node: Option<&Listed>) -> bool
    ensures { result ≡ may_be_key (option_copied node.entry) }
{
    match node {
        Some(node) => match node.body.kind {
            Kind::Leaf => atoms_in(&node.body.ty),
            Kind::Container | Kind::Presence | Kind::List | Kind::LeafList => false,
        },
        None => false,
    }
}

/// Whether each key names a child.
fn keys_there(alloc: Global, path: &Names, keys: &Names, nodes: &Listing) -> Result<bool, NoMemory>
    ensures { IfOk result (λ there. there ≡ keys_there path.now keys.now nodes.now) }
{
    for key in keys.items() {
        if listed_key(alloc, path, key, nodes)?.is_none() {
            return Ok(false);
        }
    }
    Ok(true)
}

/// Whether each key is a leaf that isn't empty.
fn keys_fit(alloc: Global, path: &Names, keys: &Names, nodes: &Listing) -> Result<bool, NoMemory>
    ensures { IfOk result (λ fit. fit ≡ keys_fit path.now keys.now nodes.now) }
{
    for key in keys.items() {
        if !may_be_key(listed_key(alloc, path, key, nodes)?) {
            return Ok(false);
        }
    }
    Ok(true)
}

/// Checks the keys of a node.
fn check_keys(
    alloc: Global,
    part: usize,
    place: usize,
    node: &Stated,
    nodes: &Listing,
) -> Result<(), SchemaFault>
    ensures { Leaves result nodes.now (at_place part place (checked (Some node.now) nodes.now)) }
{
    if !keys_there(alloc, &node.path, &node.body.keys, nodes)? {
        return Err(SchemaFault::At {
            part,
            place,
            kind: SchemaKind::NoKey,
        });
    }
    if !keys_fit(alloc, &node.path, &node.body.keys, nodes)? {
        return Err(SchemaFault::At {
            part,
            place,
            kind: SchemaKind::KeyNotLeaf,
        });
    }
    Ok(())
}

fn check_node(
    alloc: Global,
    part: usize,
    place: usize,
    json: &Json,
    nodes: &Listing,
) -> Result<(), SchemaFault>
    ensures { Leaves result nodes.now (at_place part place (checked (node_in (view json.now)) nodes.now)) }
{
    match read_node(alloc, json)? {
        Some(node) => check_keys(alloc, part, place, &node, nodes),
        None => Ok(()),
    }
}

/// The second round of a part: the keys of each list in order.
fn check_nodes(
    alloc: Global,
    part: usize,
    items: &Vec<Json>,
    nodes: &Listing,
) -> Result<(), SchemaFault>
    ensures { Leaves result nodes.now (second_round part 0 (items_view items.now.items) nodes.now) }
{
    let mut place = 0;
    for item in items {
        check_node(alloc, part, place, item, nodes)?;
        place += 1;
    }
    Ok(())
}

/// Takes up a part.
fn take_part(
    alloc: Global,
    part: usize,
    json: &Json,
    nodes: &mut Listing,
) -> Result<(), SchemaFault>
    ensures { Leaves result nodes.new (part_in part (as_array (view json.now)) nodes.old) }
{
    match json.as_array() {
        Some(items) => {
            take_nodes(alloc, part, items, nodes)?;
            check_nodes(alloc, part, items, nodes)
        }
        None => Err(SchemaFault::At {
            part,
            place: 0,
            kind: SchemaKind::Member,
        }),
    }
}

fn take_parts(alloc: Global, parts: &[Json]) -> Result<Listing, SchemaFault>
    ensures { Reads result (parts_in 0 (map view parts.now) []) }
{
    let mut nodes = Listing {
        kept: BTreeMap::new(alloc),
    };
    let mut part = 0;
    for json in parts {
        take_part(alloc, part, json, &mut nodes)?;
        part += 1;
    }
    Ok(nodes)
}

/// The nodes of the parts, in their order.
pub fn read_parts(alloc: Global, parts: &[Json]) -> Result<Listing, SchemaFault>
    ensures read { Reads result (parts_in 0 (map view parts.now) []) }
    ensures schema { IfOk result (λ nodes. IsSchema (numbered nodes)) }
{
    take_parts(alloc, parts)
}

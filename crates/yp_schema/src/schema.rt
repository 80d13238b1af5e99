//! The schema and its accessors.
ghost use Rattle.std.specs.Prelude.{◌≡◌, ◌<◌, ◌↔◌, ℕ, List, length, map, All, IfSome, Ok, option_copied, true, false};
ghost use Rattle.serde_json.specs.Data.{Data};
ghost use Rattle.serde_json.specs.View.{view};
ghost use Rattle.yp_value.specs.Texts.{ReadsAs};
ghost use Rattle.yp_base.specs.Types.{is_type};
ghost use Rattle.yp_schema.specs.declared.schema.SchemaNode.{SchemaNode};
ghost use Rattle.yp_schema.specs.Compiled.{Compiles};
ghost use Rattle.yp_schema.specs.Datastore.{is_key_node, ends_in_key, is_path_of, is_place};
ghost use Rattle.yp_schema.specs.Nodes.{node_at, child_of, is_key};
ghost use Rattle.yp_schema.specs.Reading.{Reads, schema_of};
ghost use Rattle.yp_schema.specs.Values.{typed_value, typed_atom};
ghost use Rattle.yp_schema.specs.WellFormed.{IsSchema, is_key_leaf};

use crate::fault::SchemaFault;
use crate::index::{Children, index_nodes, look_up, slot_of, tell_keys};
use crate::listing::read_parts;
use crate::numbers::number_nodes;
use serde_json::Value as Json;
use std::alloc::Global;
use std::marker::Model;
use yp_base::atom::Atom;
use yp_base::leaf_type::LeafType;
use yp_base::path::Path;
use yp_base::row::Value;
use yp_base::series::Series;
use yp_base::txt::Txt;
use yp_value::json::read_json;
use yp_value::text::TextFault;

/// What a node is (RFC 7950 section 4.2.2). `Presence` is a container with presence.
#[derive(Debug, Drop, Clone, Copy, PartialEq, Eq)]
pub enum Kind {
    Container,
    Presence,
    List,
    Leaf,
    LeafList,
}

/// A node of the schema: its parent's number, its kind, its module and name, its member form, the
/// numbers of its key leaves if it is a list, its type if it is a leaf or leaf-list, and whether it
/// has default-deny-all (RFC 8341 section 3.5).
#[derive(Drop)]
pub struct SchemaNode {
    pub parent: Option<u32>,
    pub kind: Kind,
    pub home: Txt,
    pub name: Txt,
    pub member: Txt,
    pub keys: Series<u32>,
    pub ty: Option<LeafType>,
    pub deny_all: bool,
}

/// A compiled schema.
#[derive(Drop)]
pub struct Schema {
    nodes: Vec<SchemaNode>,
    index: Vec<Children>,
    keys: Vec<bool>,
}

impl Model for Schema {
    ghost use Rattle.std.specs.Prelude.{List};
    ghost use Rattle.yp_schema.specs.declared.schema.SchemaNode.{SchemaNode};
    ghost use Rattle.yp_schema.specs.Index.{IsIndex, TellsKeys};
    ghost use Rattle.yp_schema.specs.WellFormed.{IsSchema};

    ghost Value = { List SchemaNode };

    ghost view = { λ s. s.nodes.items };

    ghost invariant = { λ s. IsSchema s.nodes.items × IsIndex s.index.items s.nodes.items × TellsKeys s.keys.items s.nodes.items };
}

impl Schema {
    /// The schema of some parts, each an array of nodes. Parts are taken in order, and each in two rounds:
    /// in the first each node in order is tested for `Member`, `Duplicate`, `UnknownType`, `TooDeep` and
    /// `TooMany`, in this order; in the second each list in order for `NoKey`, and then for `KeyNotLeaf`.
    /// The first fault is answered, exactly where there is one.
    pub fn read(alloc: Global, parts: &[Json]) -> Result<Schema, SchemaFault>
        ensures read { Reads result (schema_of (map view parts.now)) }
    {
        let listing = read_parts(alloc, parts)?;
        let nodes = number_nodes(alloc, listing)?;
        let index = index_nodes(alloc, nodes.as_slice())?;
        let keys = tell_keys(alloc, nodes.as_slice())?;
        Ok(Schema { nodes, index, keys })
    }

    /// How many nodes there are. Each number below it is a node's.
    pub fn count(&self) -> u32
        ensures count { result ≡ length self.now }
        ensures schema { IsSchema self.now }
    {
        self.nodes.len() as u32
    }

    /// What each schema keeps. It does nothing.
    pub fn stands(&self)
        ensures { IsSchema self.now }
    {
        let _ = &self.nodes;
    }

    fn node(&self, node: u32) -> &SchemaNode
        requires { node < length self.now }
        ensures node { result.now ≡ node_at node self.now }
        ensures schema { IsSchema self.now }
    {
        &self.nodes[node as usize]
    }

    /// What a node is.
    pub fn kind(&self, node: u32) -> Kind
        requires { node < length self.now }
        ensures { result ≡ (node_at node self.now).kind }
    {
        self.node(node).kind
    }

    /// The node above, `None` for one at the top.
    #[tactic(auto, using(crate::specs::SchemaLaws::parent_before))]
    pub fn parent(&self, node: u32) -> Option<u32>
        requires { node < length self.now }
        ensures parent { result ≡ (node_at node self.now).parent }
        ensures before { IfSome result (λ parent. parent < node) }
        ensures within { IfSome result (λ parent. parent < length self.now) }
    {
        self.node(node).parent
    }

    /// The type of a leaf or leaf-list, `None` for any other node.
    #[tactic(auto, using(crate::specs::SchemaLaws::type_is))]
    pub fn ty(&self, node: u32) -> Option<&LeafType>
        requires { node < length self.now }
        ensures ty { option_copied result ≡ (node_at node self.now).ty }
        ensures stands { IfSome result (λ ty. is_type ty.now ≡ true) }
    {
        self.node(node).ty.as_ref()
    }

    /// The member form (RFC 7951 section 4).
    pub fn member_text(&self, node: u32) -> &str
        requires { node < length self.now }
        ensures { result.now ≡ (node_at node self.now).member }
    {
        self.node(node).member.as_str()
    }

    /// The name of the node's module.
    pub fn module(&self, node: u32) -> &str
        requires { node < length self.now }
        ensures { result.now ≡ (node_at node self.now).home }
    {
        self.node(node).home.as_str()
    }

    /// The name without the module's.
    pub fn name(&self, node: u32) -> &str
        requires { node < length self.now }
        ensures { result.now ≡ (node_at node self.now).name }
    {
        self.node(node).name.as_str()
    }

    /// Whether the node has default-deny-all.
    pub fn deny_all(&self, node: u32) -> bool
        requires { node < length self.now }
        ensures { result ≡ (node_at node self.now).deny_all }
    {
        self.node(node).deny_all
    }

    /// The numbers of a list's key leaves, in the order of the `keys` statement; none for any other.
    #[tactic(auto, using(crate::specs::SchemaLaws::keys_are_leaves, crate::specs::SchemaLaws::keys_within))]
    pub fn keys(&self, node: u32) -> &[u32]
        requires { node < length self.now }
        ensures keys { result.now ≡ (node_at node self.now).keys }
        ensures leaves { All (λ key. is_key_leaf node self.now key ≡ true) result.now }
        ensures within { All (λ key. key < length self.now) result.now }
    {
        self.node(node).keys.items()
    }

    /// Whether a node is a key of its parent.
    pub fn is_key(&self, node: u32, parent: Option<u32>) -> bool
        requires { IfSome parent (λ parent. parent < length self.now) }
        ensures { result ≡ is_key node parent self.now }
    {
        self.stands();
        match parent {
            Some(above) => self.is_key_node(node) && self.node(node).parent == Some(above),
            None => false,
        }
    }

    /// Whether a node is a key of the node above. No number past the nodes is.
    pub fn is_key_node(&self, node: u32) -> bool
        ensures { result ≡ is_key_node self.now node }
    {
        match self.keys.get(node as usize) {
            Some(told) => *told,
            None => false,
        }
    }

    /// Whether a path ends in a key leaf. Data may stand at one of the schema that doesn't.
    pub fn ends_in_key(&self, path: &Path) -> bool
        ensures ends { result ≡ ends_in_key self.now path.now }
        ensures place { is_path_of self.now path.now ≡ true → result ≡ false → is_place self.now path.now ≡ true }
    {
        match path.items().split_last() {
            Some((end, _)) => self.is_key_node(end.node),
            None => false,
        }
    }

    /// The child of a node, or of the top, that has this member form.
    pub fn child(&self, parent: Option<u32>, member: &str) -> Option<u32>
        ensures found { result ≡ child_of parent member.now self.now }
        ensures within { IfSome result (λ node. node < length self.now) }
    {
        look_up(self.index.as_slice(), slot_of(parent), member)
    }

    /// Reads JSON as a value of a node's type (RFC 7951 section 6). `BadText` comes exactly where it is
    /// none, or where the node has no type.
    pub fn read_value(&self, alloc: Global, node: u32, json: &Json) -> Result<Value, TextFault>
        requires { node < length self.now }
        ensures { ReadsAs result (typed_value (node_at node self.now).ty (view json.now)) }
    {
        match self.ty(node) {
            Some(ty) => read_json(alloc, ty, json),
            None => Err(TextFault::BadText),
        }
    }

    /// Reads JSON as the value of a key or of a leaf-list entry, which is an atom. `BadText` comes exactly
    /// where it is none, or where the node has no type.
    pub fn read_atom(&self, alloc: Global, node: u32, json: &Json) -> Result<Atom, TextFault>
        requires { node < length self.now }
        ensures { ReadsAs result (typed_atom (node_at node self.now).ty (view json.now)) }
    {
        match self.read_value(alloc, node, json)? {
            Value::Atom(atom) => Ok(atom),
            _ => Err(TextFault::BadText),
        }
    }
}

/// Parts are read as a schema exactly where they compile to its nodes: the rules of RFC 7950 section 4.2 and
/// RFC 7951 section 4 hold of them, in whatever order they are visited.
pub fn accepted_schema_is_compiled()
    ensures compiled { (parts : List Data) (nodes : List SchemaNode) → schema_of parts ≡ Ok nodes ↔ Compiles parts nodes }
{}

//! What a filter says.
ghost use Rattle.std.specs.Prelude.{◌≡◌, ◌<◌, ◌^◌, length, true, IfOk};
ghost use Rattle.serde_json.specs.View.{view};
ghost use Rattle.yp_filter.specs.Filters.{compares, filter_size};
ghost use Rattle.yp_filter.specs.Fits.{filter_fits};
ghost use Rattle.yp_filter.specs.Reading.{Gives, filter_in};
ghost use Rattle.yp_filter.specs.View.{node_view, set_view, filter_view};

use crate::comparing::set_compares;
use crate::fault::{FilterError, FilterFault};
use crate::naming::Place;
use crate::reading::read_set;
use crate::sizes::{is_small, size_of};
use serde_json::Value as Json;
use std::alloc::Global;
use yp_base::memory::{Duplicate, NoMemory};
use yp_base::row::Value;
use yp_schema::schema::Schema;

/// A node of a filter (RFC 6241 section 6.2). Where its name is in the schema it has the number of its
/// schema node.
#[cycle(filter)]
#[derive(Drop)]
pub enum FilterNode {
    /// A selection node.
    Select { node: u32 },
    /// A content match node: the value that the leaf or an entry of the leaf-list is to have.
    Match { node: u32, value: Value },
    /// A containment node, with the set of its members.
    Within { node: u32, set: FilterSet },
    /// A selection or containment node whose name isn't in the schema.
    Unknown,
    /// A content match node whose name isn't in the schema.
    UnknownMatch,
}

/// The nodes of a filter that stand side by side, in order.
#[cycle(filter)]
#[derive(Drop)]
pub struct FilterSet {
    pub nodes: Vec<FilterNode>,
}

/// A subtree filter.
#[derive(Drop)]
pub enum Filter {
    /// Everything.
    All,
    /// What a set selects: of an empty one nothing.
    Set(FilterSet),
}

impl FilterSet {
    /// The set of these nodes.
    pub fn from_vec(nodes: Vec<FilterNode>) -> FilterSet
        ensures { result.nodes.items ≡ nodes.items }
    {
        FilterSet { nodes }
    }

    /// Its nodes.
    pub fn items(&self) -> &[FilterNode]
        ensures { result.now ≡ self.now.nodes.items }
    {
        self.nodes.as_slice()
    }

    /// A set that says the same.
    #[cycle(copy_filter)]
    pub fn copy(&self, alloc: Global) -> Result<FilterSet, NoMemory>
        ensures { IfOk result (λ copy. set_view copy ≡ set_view self.now) }
    {
        let mut nodes = Vec::new(alloc);
        for node in self.nodes.as_slice() {
            nodes.push(node.copy(alloc)?)?;
        }
        Ok(FilterSet { nodes })
    }
}

impl FilterNode {
    /// A node that says the same.
    #[cycle(copy_filter)]
    pub fn copy(&self, alloc: Global) -> Result<FilterNode, NoMemory>
        ensures { IfOk result (λ copy. node_view copy ≡ node_view self.now) }
    {
        Ok(match self {
            FilterNode::Select { node } => FilterNode::Select { node: *node },
            FilterNode::Match { node, value } => FilterNode::Match {
                node: *node,
                value: value.copy(alloc)?,
            },
            FilterNode::Within { node, set } => FilterNode::Within {
                node: *node,
                set: set.copy(alloc)?,
            },
            FilterNode::Unknown => FilterNode::Unknown,
            FilterNode::UnknownMatch => FilterNode::UnknownMatch,
        })
    }
}

impl Filter {
    /// Reads a filter. Members are visited in byte order of their names, depth first, and the first fault is
    /// answered, with its member. What is read is of the schema.
    pub fn read(alloc: Global, schema: &Schema, json: &Json) -> Result<Filter, FilterError>
        ensures read { Gives filter_view result (filter_in schema.now (view json.now)) }
        ensures fits { IfOk result (λ filter. filter_fits schema.now (filter_view filter) ≡ true) }
        ensures few { IfOk result (λ filter. filter_size (filter_view filter) < 2 ^ 32) }
    {
        match json {
            Json::Object(members) => {
                let top = Place::Children(None);
                let nodes = read_set(alloc, schema, 15, top, members)?;
                let set = FilterSet::from_vec(nodes);
                if !is_small(&set) {
                    return Err(FilterError::bare(FilterFault::Memory));
                }
                Ok(Filter::Set(set))
            }
            _ => Err(FilterError::bare(FilterFault::Shape)),
        }
    }

    /// How many nodes it has, at all levels; of `All` none.
    pub fn size(&self) -> u32
        requires few { filter_size (filter_view self.now) < 2 ^ 32 }
        ensures { result ≡ filter_size (filter_view self.now) }
    {
        match self {
            Filter::All => 0,
            Filter::Set(set) => size_of(set),
        }
    }

    /// Whether it matches on this node.
    pub fn compares(&self, node: u32) -> bool
        ensures { result ≡ compares node (filter_view self.now) }
    {
        match self {
            Filter::All => false,
            Filter::Set(set) => set_compares(set, node),
        }
    }

    /// A filter that says the same.
    pub fn copy(&self, alloc: Global) -> Result<Filter, NoMemory>
        ensures { IfOk result (λ copy. filter_view copy ≡ filter_view self.now) }
    {
        match self {
            Filter::All => Ok(Filter::All),
            Filter::Set(set) => Ok(Filter::Set(set.copy(alloc)?)),
        }
    }
}

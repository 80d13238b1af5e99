//! How many nodes a filter has.
ghost use Rattle.std.specs.Prelude.{◌≡◌, ◌<◌, ◌≤◌, ◌^◌, ℕ, Option, Some, None, true, false};
ghost use Rattle.yp_filter.specs.Filters.{node_size, set_size};
ghost use Rattle.yp_filter.specs.View.{node_view, set_view};
ghost use Rattle.yp_filter.specs.Counts.{Counts};

use crate::filter::{FilterNode, FilterSet};

/// The size of a set, where it is below 2^32.
#[cycle(count)]
fn count_set(set: &FilterSet) -> Option<u32>
    ensures { Counts result (set_size (set_view set.now)) }
{
    let mut size: u32 = 0;
    for node in set.items() {
        size = size.checked_add(count_node(node)?)?;
    }
    Some(size)
}

/// The size of a node, where it is below 2^32.
#[cycle(count)]
fn count_node(node: &FilterNode) -> Option<u32>
    ensures { Counts result (node_size (node_view node.now)) }
{
    match node {
        FilterNode::Within { set, .. } => count_set(set)?.checked_add(1),
        _ => Some(1),
    }
}

/// Whether the size of a set is below 2^32.
pub fn is_small(set: &FilterSet) -> bool
    ensures { result ≡ true → set_size (set_view set.now) < 2 ^ 32 }
{
    count_set(set).is_some()
}

/// The size of a set.
pub fn size_of(set: &FilterSet) -> u32
    requires { set_size (set_view set.now) < 2 ^ 32 }
    ensures { result ≡ set_size (set_view set.now) }
{
    match count_set(set) {
        Some(size) => size,
        None => 0,
    }
}

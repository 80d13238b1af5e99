//! Which schema nodes a filter matches on.
ghost use Rattle.std.specs.Prelude.{◌≡◌};
ghost use Rattle.yp_filter.specs.Filters.{node_compares, set_compares};
ghost use Rattle.yp_filter.specs.View.{node_view, set_view};

use crate::filter::{FilterNode, FilterSet};

/// Whether a set, or a set in it, matches on this node.
#[cycle(compares)]
pub fn set_compares(set: &FilterSet, node: u32) -> bool
    ensures { result ≡ set_compares node (set_view set.now) }
{
    for each in set.items() {
        if node_compares(each, node) {
            return true;
        }
    }
    false
}

#[cycle(compares)]
fn node_compares(each: &FilterNode, node: u32) -> bool
    ensures { result ≡ node_compares node (node_view each.now) }
{
    match each {
        FilterNode::Match { node: other, .. } => node == *other,
        FilterNode::Within { set, .. } => set_compares(set, node),
        _ => false,
    }
}

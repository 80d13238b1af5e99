//! Whether two filters say the same.
ghost use Rattle.std.specs.Prelude.{◌≡◌, ◌↔◌, IsTrue};
ghost use Rattle.yp_filter.specs.Same.{same_node, same_set};
ghost use Rattle.yp_filter.specs.View.{node_view, set_view, filter_view};

use crate::filter::{Filter, FilterNode, FilterSet};
use yp_base::row::same_value;

/// Whether two filters say the same: both everything, or both sets with the same nodes in the same order.
pub fn same_filter(one: &Filter, other: &Filter) -> bool
    ensures { IsTrue result ↔ (filter_view one.now ≡ filter_view other.now) }
{
    match one {
        Filter::All => match other {
            Filter::All => true,
            Filter::Set(_) => false,
        },
        Filter::Set(set) => match other {
            Filter::All => false,
            Filter::Set(other_set) => same_set(set, other_set),
        },
    }
}

/// Whether two sets have the same nodes in the same order.
#[cycle(same)]
fn same_set(one: &FilterSet, other: &FilterSet) -> bool
    ensures { result ≡ same_set (set_view one.now) (set_view other.now) }
{
    let mut rest = other.items();
    for node in one.items() {
        let Some((first, more)) = rest.split_first() else {
            return false;
        };
        if !same_node(node, first) {
            return false;
        }
        rest = more;
    }
    rest.is_empty()
}

#[cycle(same)]
fn same_node(one: &FilterNode, other: &FilterNode) -> bool
    ensures { result ≡ same_node (node_view one.now) (node_view other.now) }
{
    match one {
        FilterNode::Select { node } => match other {
            FilterNode::Select { node: other_node } => node == other_node,
            _ => false,
        },
        FilterNode::Match { node, value } => match other {
            FilterNode::Match {
                node: other_node,
                value: other_value,
            } => node == other_node && same_value(value, other_value),
            _ => false,
        },
        FilterNode::Within { node, set } => match other {
            FilterNode::Within {
                node: other_node,
                set: other_set,
            } => node == other_node && same_set(set, other_set),
            _ => false,
        },
        FilterNode::Unknown => matches!(other, FilterNode::Unknown),
        FilterNode::UnknownMatch => matches!(other, FilterNode::UnknownMatch),
    }
}

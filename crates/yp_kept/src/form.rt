//! What a filter could keep by its form alone, whatever the rows are (RFC 6241 section 6.2).
ghost use Rattle.std.specs.Prelude.{◌≡◌, ◌<◌, length, true, map, All, None};
ghost use Rattle.yp_schema.specs.Datastore.{goes_down};
ghost use Rattle.yp_filter.specs.View.{node_view, set_view, filter_view};
ghost use Rattle.yp_kept.specs.Form.{could_keep, node_could_lead, set_could_lead, could_be_kept};

use crate::keeping::keeps_here;
use yp_base::path::{Path, Seg};
use yp_filter::filter::{Filter, FilterNode, FilterSet};
use yp_schema::schema::Schema;

/// Whether a set could keep what is left of a path below its instance.
#[cycle(could_keep)]
fn could_keep(schema: &Schema, set: &FilterSet, rest: &[Seg]) -> bool
    requires { All (λ seg. seg.node < length schema.now) rest.now }
    ensures { result ≡ could_keep schema.now (set_view set.now) rest.now }
{
    match rest.split_first() {
        None => true,
        Some((segment, below)) => {
            if keeps_here(schema, segment, below.is_empty(), set.items()) {
                return true;
            }
            set_could_lead(schema, set, rest)
        }
    }
}

/// Whether one of a set's containment nodes could keep what is left of a path.
#[cycle(could_keep)]
fn set_could_lead(schema: &Schema, set: &FilterSet, rest: &[Seg]) -> bool
    requires { All (λ seg. seg.node < length schema.now) rest.now }
    ensures { result ≡ set_could_lead schema.now (set_view set.now) rest.now }
{
    for node in set.items() {
        if node_could_lead(schema, node, rest) {
            return true;
        }
    }
    false
}

/// Whether a node of a set could keep what is left of a path, where it is a containment node.
#[cycle(could_keep)]
#[tactic(auto, using(yp_filter::specs::ViewLaws::node_within))]
fn node_could_lead(schema: &Schema, node: &FilterNode, rest: &[Seg]) -> bool
    requires { All (λ seg. seg.node < length schema.now) rest.now }
    ensures { result ≡ node_could_lead schema.now (node_view node.now) rest.now }
{
    match (node, rest.split_first()) {
        (FilterNode::Within { node, set }, Some((segment, below))) => {
            segment.node == *node && could_keep(schema, set, below)
        }
        _ => false,
    }
}

/// Whether a filter could keep the row at a path. No row is looked up for it.
#[tactic(auto, using(crate::proofs::Ways::way_all))]
pub fn could_be_kept(schema: &Schema, filter: &Filter, path: &Path) -> bool
    requires { goes_down schema.now None path.now ≡ true }
    ensures { result ≡ could_be_kept schema.now (filter_view filter.now) path.now }
{
    match filter {
        Filter::All => true,
        Filter::Set(set) => could_keep(schema, set, path.items()),
    }
}

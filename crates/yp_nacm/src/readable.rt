//! What a reader may read: a path with all that stands above it.
ghost use Rattle.std.specs.Prelude.{◌≡◌, ◌<◌, ◌≤◌, List, Bool, true, length, take, drop, All};
ghost use Rattle.yp_base.specs.declared.path.Seg.{Seg};
ghost use Rattle.yp_schema.specs.Datastore.{is_path_of};
ghost use Rattle.yp_schema.specs.declared.schema.SchemaNode.{SchemaNode};
ghost use Rattle.yp_nacm.specs.Decision.{IsClosed, are_open, is_open, is_readable, opens_down};
ghost use Rattle.yp_nacm.specs.AccessLaws.{readable_above};

use crate::compile::UserRules;
use crate::decide::{node_of_place, permits};
use yp_base::path::Path;
use yp_schema::schema::Schema;

/// What may be read. What is readable is readable at each prefix.
pub trait Readable {
    ghost may: { Self → List SchemaNode → List Seg → Bool };

    /// Whether a path may be read. It takes no memory.
    fn readable(&self, schema: &Schema, path: &Path) -> bool
        requires { is_path_of schema.now path.now ≡ true }
        ensures { result ≡ may self.now schema.now path.now };

    /// The same, where the path's first `depth` segments are known to be readable.
    fn readable_below(&self, schema: &Schema, path: &Path, depth: usize) -> bool
        requires path { is_path_of schema.now path.now ≡ true }
        requires within { depth ≤ length path.now }
        requires above { may self.now schema.now (take depth path.now) ≡ true }
        ensures { result ≡ may self.now schema.now path.now };

    ghost closed: { (reader : Self) (nodes : List SchemaNode) → IsClosed (may reader nodes) };
}

/// Whether a place may be read, and each of these leaves below it.
fn are_open_leaves(
    rules: &UserRules,
    schema: &Schema,
    path: &Path,
    depth: usize,
    leaves: &[u32],
) -> bool
    requires depth { 1 ≤ depth }
    requires within { depth ≤ length path.now }
    requires path { is_path_of schema.now path.now ≡ true }
    requires leaves { All (λ leaf. leaf < length schema.now) leaves.now }
    ensures { result ≡ are_open schema.now rules.now (take depth path.now) leaves.now }
{
    for leaf in leaves {
        if !permits(rules, schema, path, depth, Some(*leaf)) {
            return false;
        }
    }
    true
}

/// Whether a place may be read, and each key leaf of the entry where it is one.
fn is_open_place(rules: &UserRules, schema: &Schema, path: &Path, depth: usize) -> bool
    requires depth { 1 ≤ depth }
    requires within { depth ≤ length path.now }
    requires path { is_path_of schema.now path.now ≡ true }
    ensures { result ≡ is_open schema.now rules.now (take depth path.now) }
{
    permits(rules, schema, path, depth, None)
        && are_open_leaves(
            rules,
            schema,
            path,
            depth,
            schema.keys(node_of_place(schema, path, depth, None)),
        )
}

/// Whether each place below the first `depth` segments of a path, down to its end, is open.
#[tactic(auto, using(crate::proofs::Places::next_open, crate::proofs::Places::last_open))]
fn opens_to_end(rules: &UserRules, schema: &Schema, path: &Path, depth: usize) -> bool
    requires within { depth ≤ length path.now }
    requires path { is_path_of schema.now path.now ≡ true }
    ensures { result ≡ opens_down schema.now rules.now (take depth path.now) (drop depth path.now) }
{
    if depth == path.len() {
        return true;
    }
    is_open_place(rules, schema, path, depth + 1) && opens_to_end(rules, schema, path, depth + 1)
}

impl Readable for UserRules {
    ghost may = { λ rules nodes path. is_readable nodes rules path };

    ghost closed = { λ rules nodes. readable_above nodes rules };

    fn readable(&self, schema: &Schema, path: &Path) -> bool {
        opens_to_end(self, schema, path, 0)
    }

    #[tactic(auto, using(crate::proofs::Places::opens_below))]
    fn readable_below(&self, schema: &Schema, path: &Path, depth: usize) -> bool {
        opens_to_end(self, schema, path, depth)
    }
}

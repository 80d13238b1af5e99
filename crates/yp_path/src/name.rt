//! Names of children.
ghost use Rattle.std.specs.Prelude.{◌≡◌, ◌<◌, length, IfSome};
ghost use Rattle.yp_schema.specs.WellFormed.{is_at_home};
ghost use Rattle.yp_path.specs.Names.{child_named, own_child};

use crate::cut::cut_once;
use yp_schema::schema::Schema;

/// Whether a child of this module has its name alone as its member form.
fn is_at_home(schema: &Schema, parent: Option<u32>, home: &str) -> bool
    requires { IfSome parent (λ parent. parent < length schema.now) }
    ensures { result ≡ is_at_home parent home.now schema.now }
{
    match parent {
        Some(parent) => schema.module(parent) == home,
        None => false,
    }
}

/// The child whose member form is this name without a module.
fn own_child(schema: &Schema, parent: Option<u32>, name: &str) -> Option<u32>
    ensures { result ≡ own_child parent name.now schema.now }
{
    let node = schema.child(parent, name)?;
    if schema.name(node) == name {
        Some(node)
    } else {
        None
    }
}

/// The child that a name names, by its member form or its qualified name (RFC 7951 section 4).
#[tactic(auto, using(crate::proofs::Names::named_bare, crate::proofs::Names::named_elsewhere, crate::proofs::Names::named_at_home))]
pub fn child_named(schema: &Schema, parent: Option<u32>, name: &str) -> Option<u32>
    requires { IfSome parent (λ parent. parent < length schema.now) }
    ensures { result ≡ child_named parent name.now schema.now }
{
    // What each schema keeps, by which one look-up is enough.
    let _count = schema.count();
    match cut_once(name, ':') {
        Some((home, own)) => {
            if is_at_home(schema, parent, home) {
                own_child(schema, parent, own)
            } else {
                schema.child(parent, name)
            }
        }
        None => schema.child(parent, name),
    }
}

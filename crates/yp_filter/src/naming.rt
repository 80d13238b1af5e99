//! What the names of a filter name.
ghost use Rattle.std.specs.Prelude.{◌≡◌, ◌<◌, length, IfSome};
ghost use Rattle.yp_filter.specs.Reading.{named_by, place_below};

use yp_schema::schema::Schema;

/// Where the names of a set are looked up.
#[derive(Drop, Clone, Copy)]
pub enum Place {
    /// Among the children of a node, or at the top.
    Children(Option<u32>),
    /// Below a name that isn't in the schema: nothing is found.
    Nowhere,
}

impl Place {
    /// The node below which the names of a set stand, if there is one.
    pub fn parent(self) -> Option<u32> {
        match self {
            Place::Children(parent) => parent,
            Place::Nowhere => None,
        }
    }
}

/// The schema node that a member form names at a place.
pub fn named_by(schema: &Schema, place: Place, name: &str) -> Option<u32>
    ensures named { result ≡ named_by schema.now place name.now }
    ensures within { IfSome result (λ node. node < length schema.now) }
{
    match place {
        Place::Children(parent) => schema.child(parent, name),
        Place::Nowhere => None,
    }
}

/// Where the names below what a name names are looked up.
pub fn place_below(named: Option<u32>) -> Place
    ensures { result ≡ place_below named }
{
    match named {
        Some(node) => Place::Children(Some(node)),
        None => Place::Nowhere,
    }
}

//! Roots.
use yp_base::path::Path;

/// A topmost place at which a selection changed, and whether it was in the selection before it was first
/// touched.
#[derive(Drop)]
pub struct Root {
    pub path: Path,
    pub was: bool,
}

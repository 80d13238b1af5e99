//! What a reader sees of a datastore.
ghost use Rattle.std.specs.Prelude.{◌≡◌, ◌+◌, ◌≤◌, true, option_copied};
ghost use Rattle.yp_base.specs.Rows.{value_at};
ghost use Rattle.yp_schema.specs.Datastore.{is_path_of};
ghost use Rattle.yp_nacm.specs.Decision.{visible_rows};

use std::sync::ledger::Ledger;
use yp_base::path::Path;
use yp_base::row::Value;
use yp_base::steps::Steps;
use yp_nacm::readable::Readable;
use yp_schema::schema::Schema;
use yp_tree::tree::Tree;

/// A datastore of a schema, and what may be read of it.
#[derive(Drop)]
pub struct Visible<'a, R> {
    pub schema: &'a Schema,
    pub readable: &'a R,
    pub tree: &'a Tree,
}

impl<'a, R: Readable> Visible<'a, R> {
    /// The value of the row that has this path, where it may be read. It counts at most one visit.
    #[tactic(auto, using(crate::specs::SelectionLaws::value_selected))]
    pub fn value_at<L: Ledger>(&self, path: &Path, steps: &mut Steps<L>) -> Option<&'a Value>
        requires { is_path_of self.now.schema.now path.now ≡ true }
        ensures found { option_copied result ≡ value_at path.now (visible_rows (R.may self.now.readable.now self.now.schema.now) self.now.tree.now) }
        ensures visits { steps.new ≤ steps.old + 1 }
    {
        if self.readable.readable(self.schema, path) {
            self.tree.get(path, steps)
        } else {
            None
        }
    }
}

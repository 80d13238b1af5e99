//! The lines of what receivers hold.
ghost use Rattle.std.specs.Prelude.{◌≡◌, ◌++◌, [], OnOk, string_bytes};
ghost use Rattle.std.specs.List.{AllByRecursion, flat_map};
ghost use Rattle.yp_schema.specs.Datastore.{AreWritable};
ghost use Rattle.yp_report.specs.Report.{tree_text};

use std::alloc::Global;
use yp_base::memory::NoMemory;
use yp_encode::contents::contents_text;
use yp_receiver::holding::Holding;
use yp_receiver::holdings::Holdings;
use yp_schema::schema::Schema;

/// Adds the line of the rows that it holds of a subscription.
#[tactic(auto, unfolding(crate::specs::Report::tree_text))]
fn push_tree(
    alloc: Global,
    text: &mut String,
    schema: &Schema,
    name: &str,
    id: u32,
    holding: Holding,
) -> Result<(), NoMemory>
    requires { AreWritable schema.now [] holding }
    ensures { OnOk result (string_bytes text.new ≡ string_bytes text.old ++ tree_text schema.now name.now (id, holding)) }
{
    let rows = holding.into_rows(alloc)?;
    let data = contents_text(alloc, schema, &rows)?;
    let data = data.as_str();
    writeln!(text, "tree {name} {id} {data}")?;
    Ok(())
}

/// Adds the lines of all that it holds, by ids that ascend. Each is let go once its line is there.
pub fn push_trees(
    alloc: Global,
    text: &mut String,
    schema: &Schema,
    name: &str,
    trees: Holdings,
) -> Result<(), NoMemory>
    requires { AllByRecursion (λ tree. AreWritable schema.now [] tree.1) trees }
    ensures { OnOk result (string_bytes text.new ≡ string_bytes text.old ++ flat_map (tree_text schema.now name.now) trees) }
{
    let mut left = trees.into_kept().into_iter();
    while let Some((id, holding)) = left.next() {
        push_tree(alloc, text, schema, name, id, holding)?;
    }
    Ok(())
}

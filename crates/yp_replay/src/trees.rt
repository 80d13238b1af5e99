//! The text of what a receiver holds.
ghost use Rattle.std.specs.Prelude.{◌≡◌, ◌++◌, [], IfOk, OnOk, string_bytes};
ghost use Rattle.std.specs.List.{AllByRecursion, flat_map};
ghost use Rattle.yp_schema.specs.Datastore.{AreWritable};
ghost use Rattle.yp_replay.specs.Replay.{tree_line, trees_text};

use std::alloc::Global;
use yp_base::memory::NoMemory;
use yp_encode::contents::contents_text;
use yp_receiver::holding::Holding;
use yp_receiver::receiver::Receiver;
use yp_schema::schema::Schema;

/// Adds the line of what is held of a subscription.
#[tactic(auto, unfolding(crate::specs::Replay::tree_line))]
fn push_tree(
    alloc: Global,
    text: &mut String,
    schema: &Schema,
    id: u32,
    holding: Holding,
) -> Result<(), NoMemory>
    requires { AreWritable schema.now [] holding }
    ensures { OnOk result (string_bytes text.new ≡ string_bytes text.old ++ tree_line schema.now (id, holding)) }
{
    let rows = holding.into_rows(alloc)?;
    let data = contents_text(alloc, schema, &rows)?;
    let data = data.as_str();
    writeln!(text, "tree {id} {data}")?;
    Ok(())
}

/// Adds the lines of all that is held, by ids that ascend. Each is let go once its line is there.
fn push_trees(
    alloc: Global,
    text: &mut String,
    schema: &Schema,
    receiver: Receiver,
) -> Result<(), NoMemory>
    requires { AllByRecursion (λ held. AreWritable schema.now [] held.1) receiver }
    ensures { OnOk result (string_bytes text.new ≡ string_bytes text.old ++ flat_map (tree_line schema.now) receiver) }
{
    let mut left = receiver.into_holdings().into_kept().into_iter();
    while let Some((id, holding)) = left.next() {
        push_tree(alloc, text, schema, id, holding)?;
    }
    Ok(())
}

/// The text of all that is held. There is room for so many bytes from the start.
pub fn trees_text(
    alloc: Global,
    schema: &Schema,
    receiver: Receiver,
    room: usize,
) -> Result<String, NoMemory>
    requires { AllByRecursion (λ held. AreWritable schema.now [] held.1) receiver }
    ensures { IfOk result (λ text. string_bytes text ≡ trees_text schema.now receiver) }
{
    let mut text = String::with_capacity(alloc, room)?;
    push_trees(alloc, &mut text, schema, receiver)?;
    text.push_str("end\n")?;
    Ok(text)
}

//! The text of a run.
ghost use Rattle.std.specs.Prelude.{◌≡◌, ◌^◌, ◌<◌, ◌++◌, length, IfOk, OnOk, codes, string_bytes};
ghost use Rattle.std.specs.List.{flat_map};
ghost use Rattle.yp_live.specs.Desks.{desk_text};
ghost use Rattle.yp_live.specs.Runs.{CanBeWritten, text_from};

use crate::desk::Desk;
use std::alloc::Global;
use yp_base::memory::NoMemory;
use yp_report::replied::Replied;
use yp_report::replies::replies_text;
use yp_report::texts::join_texts;
use yp_schema::schema::Schema;

/// Adds the lines of each desk.
fn push_desks(
    alloc: Global,
    schema: &Schema,
    desks: Vec<Desk>,
    parts: &mut Vec<String>,
) -> Result<(), NoMemory>
    requires { CanBeWritten schema.now desks.items }
    ensures { OnOk result (flat_map string_bytes parts.new.items ≡ flat_map string_bytes parts.old.items ++ flat_map (desk_text schema.now) desks.items) }
{
    for desk in desks {
        parts.push(desk.into_text(alloc, schema)?)?;
    }
    Ok(())
}

/// The text of replies and of what is told of desks.
pub fn text_of(
    alloc: Global,
    schema: &Schema,
    replies: Vec<Replied>,
    desks: Vec<Desk>,
) -> Result<String, NoMemory>
    requires few { length replies.items < 2 ^ 63 }
    requires desks { CanBeWritten schema.now desks.items }
    ensures { IfOk result (λ text. string_bytes text ≡ text_from schema.now replies.items desks.items) }
{
    let mut parts = Vec::new(alloc);
    parts.push(replies_text(alloc, replies)?)?;
    push_desks(alloc, schema, desks, &mut parts)?;
    parts.push(String::from_str(alloc, "end\n")?)?;
    let text = join_texts(alloc, parts)?;
    Ok(text)
}

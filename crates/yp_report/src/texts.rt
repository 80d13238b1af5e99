//! Texts that are put together.
ghost use Rattle.std.specs.Prelude.{◌≡◌, IfOk, string_bytes};
ghost use Rattle.std.specs.List.{flat_map};

use std::alloc::{AllocError, Global};

/// Texts, one after another, in room of just their size. Each is let go once it is taken over.
pub fn join_texts(alloc: Global, parts: Vec<String>) -> Result<String, AllocError>
    ensures { IfOk result (λ text. string_bytes text ≡ flat_map string_bytes parts.items) }
{
    let mut room = 0usize;
    for part in parts.as_slice() {
        room = room.saturating_add(part.len());
    }
    let mut text = String::with_capacity(alloc, room)?;
    for part in parts {
        text.push_str(part.as_str())?;
    }
    Ok(text)
}

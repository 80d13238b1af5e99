//! What is replied to a command.
ghost use Rattle.std.specs.Prelude.{◌≡◌, IfOk};

use std::alloc::Global;
use yp_base::memory::{Duplicate, NoMemory};
use yp_base::txt::Txt;
use yp_edit::fault::Tag;
use yp_terms::refused::Refused;

/// The reply to a command. It never tells that memory ran out.
#[derive(Drop)]
pub enum Reply {
    /// The command is done.
    Done,
    /// A subscription was given, with this id (RFC 8639 section 2.4.2).
    Id(u32),
    /// A call that is about subscriptions is refused, for this reason.
    Registry(Refused),
    /// A patch is refused: the id of the first edit that is refused, its error, and where the edit's
    /// target is a key leaf the target's text (RFC 8072 section 2.3).
    Edit {
        edit_id: Txt,
        tag: Tag,
        path: Option<Txt>,
    },
}

fn copy_path(alloc: Global, path: &Option<Txt>) -> Result<Option<Txt>, NoMemory>
    ensures { IfOk result (λ copy. copy ≡ path.now) }
{
    match path {
        Some(text) => Ok(Some(text.copy(alloc)?)),
        None => Ok(None),
    }
}

impl Duplicate for Reply {
    fn copy(&self, alloc: Global) -> Result<Reply, NoMemory> {
        Ok(match self {
            Reply::Done => Reply::Done,
            Reply::Id(id) => Reply::Id(*id),
            Reply::Registry(refusal) => Reply::Registry(*refusal),
            Reply::Edit { edit_id, tag, path } => Reply::Edit {
                edit_id: edit_id.copy(alloc)?,
                tag: *tag,
                path: copy_path(alloc, path)?,
            },
        })
    }
}

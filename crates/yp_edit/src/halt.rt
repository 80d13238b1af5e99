//! Why an edit isn't made.
ghost use Rattle.std.specs.Prelude.{◌≡◌, None};

use crate::fault::Tag;
use yp_base::memory::NoMemory;
use yp_base::txt::Txt;

/// Why an edit is refused: its error, and the text of its target where that is a key leaf.
#[derive(Drop)]
pub struct Refusal {
    pub tag: Tag,
    pub path: Option<Txt>,
}

/// Why an edit isn't made.
#[derive(Drop)]
pub enum Halt {
    /// It is refused.
    Refused(Refusal),
    /// Memory ran out.
    Memory,
}

impl From<NoMemory> for Halt {
    ghost use Rattle.std.specs.Prelude.{◌≡◌};
    ghost use Rattle.yp_edit.specs.declared.halt.Halt.TheVariants.{Memory};

    ghost from_gives = { λ _ e. e ≡ Memory };

    fn from(_error: NoMemory) -> Halt {
        Halt::Memory
    }
}

/// A refusal of this tag.
pub fn refused(tag: Tag) -> Halt
    ensures { result ≡ Halt.Refused (record { tag = tag; path = None }) }
{
    Halt::Refused(Refusal { tag, path: None })
}

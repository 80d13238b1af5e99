//! The records of changes that were made at a position, with their texts.
ghost use Rattle.std.specs.Prelude.{◌≡◌, Some, IfOk, IfSome};
ghost use Rattle.std.specs.List.{AllByRecursion, slice_get};
ghost use Rattle.yp_encode.specs.Sendable.{IsSendableChange};
ghost use Rattle.yp_slot.specs.Records.{IsRecord};

use crate::present::Present;
use std::alloc::Global;
use yp_base::memory::{Duplicate, NoMemory};
use yp_base::notice::{Changes, Kinds};
use yp_base::txt::Txt;
use yp_encode::contents::patch_text;
use yp_touch::touched::{Touched, same_roots};

/// A record, and the text of it that a change update carries.
#[derive(Drop)]
pub struct Record {
    pub changes: Changes,
    pub text: Txt,
}

/// The record of some places of what a class selects, without the edits of excluded kinds. It is none where
/// it has no edit.
#[derive(Drop)]
pub struct Told {
    pub class: usize,
    pub excluded: Kinds,
    pub touched: Touched,
    pub made: Option<Record>,
}

impl Duplicate for Record {
    fn copy(&self, alloc: Global) -> Result<Record, NoMemory> {
        Ok(Record {
            changes: self.changes.copy(alloc)?,
            text: self.text.copy(alloc)?,
        })
    }
}

/// The record of these edits with its text, where there is one. Copies of it share both.
pub fn with_text(
    alloc: Global,
    present: &Present,
    changes: Changes,
) -> Result<Option<Record>, NoMemory>
    requires { AllByRecursion (IsSendableChange present.now.schema.now) changes }
    ensures { IfOk result (IsRecord present.now.schema.now present.now.state.now.position changes) }
{
    if changes.items().is_empty() {
        return Ok(None);
    }
    let text = patch_text(alloc, present.schema, present.state.position(), &changes)?;
    Ok(Some(Record {
        changes: changes.share(alloc)?,
        text,
    }))
}

/// The place of the record that a class was told of some places, without the edits of excluded kinds, where
/// it was made.
pub fn find(told: &[Told], class: usize, excluded: &Kinds, touched: &Touched) -> Option<usize>
    ensures { IfSome result (λ place. (one : Told) × (slice_get told.now place ≡ Some one) × (one.class ≡ class) × (one.excluded ≡ excluded.now) × (one.touched ≡ touched.now)) }
{
    for place in 0..told.len() {
        let one = &told[place];
        if one.class == class && one.excluded == *excluded && same_roots(&one.touched, touched) {
            return Some(place);
        }
    }
    None
}

//! What is published: the entries so far, with the front that they are.
ghost use Rattle.std.specs.Prelude.{◌≡◌, ◌++◌, ◌∷◌, [], true, false, IfOk, Some, None};
ghost use Rattle.yp_published.specs.Histories.{after_op};

use crate::history::{Front, Naming};
use left_right::Absorb;
use std::alloc::{AllocError, Global};
use std::marker::Model;
use yp_base::memory::Duplicate;
use yp_journal::entry::Entry;

/// The entries so far.
#[derive(Drop)]
pub struct Store<J: Naming> {
    pub alloc: Global,
    pub entries: Vec<Entry>,
    pub front: Front<J>,
}

impl<J: Naming> Model for Store<J> {
    ghost use Rattle.std.specs.Coded.{codes};
    ghost use Rattle.std.specs.Prelude.{◌≡◌};
    ghost use Rattle.yp_journal.specs.contracts.entry.Entry as entry;
    ghost use Rattle.yp_published.specs.Histories.{Known};

    ghost Value = { Known };

    ghost coded = { Prim.hlevel (codes, entry.the_row.coded) };

    ghost view = { λ s. s.front };

    ghost invariant = { λ s. s.entries.items ≡ s.front.entries };
}

/// What is added to a history that goes on: an entry, or its end.
#[derive(Drop)]
pub struct Op<J: Naming> {
    pub added: Option<Entry>,
    pub before: Front<J>,
    pub after: Front<J>,
}

impl<J: Naming> Model for Op<J> {
    ghost use Rattle.std.specs.Coded.{codes};
    ghost use Rattle.std.specs.Prelude.{◌≡◌, Option, false};
    ghost use Rattle.yp_journal.specs.contracts.entry.Entry as entry;
    ghost use Rattle.yp_journal.specs.declared.entry.Entry.{Entry};
    ghost use Rattle.yp_published.specs.Histories.{Known, after_op};

    ghost Value = { Option Entry };

    ghost coded = { Prim.hlevel (codes, entry.the_row.coded) };

    ghost view = { λ op. op.added };

    ghost invariant = { λ op. (op.before.ended ≡ false) × (op.after ≡ after_op op.before op.added) };
}

impl<J: Naming> Absorb<Op<J>> for Store<J> {
    ghost use Rattle.yp_published.specs.Histories.{pair_of, pair_after};

    // A clause reads an array as a list, of any length.
    type State = ([Entry; 0], bool);

    ghost state = { λ s. pair_of s };

    ghost applied = { pair_after };

    fn absorb_first(&mut self, operation: &Op<J>, _other: &Store<J>) -> Result<(), AllocError> {
        if self.front.has_ended() || self.front.len() != operation.before.len() {
            return Err(AllocError);
        }
        self.front.compare(&operation.before);
        if let Some(entry) = &operation.added {
            let copy = match entry.copy(self.alloc) {
                Ok(copy) => copy,
                Err(_) => return Err(AllocError),
            };
            if self.entries.push(copy).is_err() {
                return Err(AllocError);
            }
        }
        self.front = operation.after.again();
        Ok(())
    }
}

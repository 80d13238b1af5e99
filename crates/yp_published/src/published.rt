//! What readers see, without a lock: the entries that were published at one moment of the read.
ghost use Rattle.std.specs.Prelude.{◌≡◌, ◌++◌, ◌∷◌, [], false, drop, MatchBool};
ghost use Rattle.yp_published.specs.Histories.{Begins, pair_after, after_op, pair_of};

use crate::history::Naming;
use crate::store::{Op, Store};
use crossbeam_utils::rule::{Outcome, Protocol};
use left_right::reader::Reader;
use left_right::writer::Writer;
use std::collections::LinkedList;
use std::sync::Wait;
use yp_journal::entry::Entry;

/// What a reader has seen: entries, whether they are all, and by how many reads. No value of it is made.
pub struct View {
    pub seen: LinkedList<Entry>,
    pub ended: bool,
    pub reads: u64,
}

/// The rule of what is published.
pub struct Published;

impl<J: Naming> Protocol<Store<J>, View> for Published {
    ghost use Rattle.yp_published.specs.Views.{Keeps, blank};

    ghost holds = { λ known views. Keeps known views };

    ghost first = { blank };
}

/// A look at what is published.
pub struct Sees;

impl<J: Naming> Outcome<Store<J>, View> for Sees {
    ghost use Rattle.yp_published.specs.Views.{SeesAll};

    ghost then = { λ before x y after. SeesAll before y after };
}

pub type StoreWriter<J> = Writer<Store<J>, Op<J>, View, Published>;

pub type StoreReader<J> = Reader<Store<J>, View, Published>;

/// Publishes one more, and says whether it did. Where memory ran out, what is published stays as it was.
pub fn publish<J: Naming, W: Wait>(
    rt: &W,
    writer: StoreWriter<J>,
    op: Op<J>,
) -> (StoreWriter<J>, bool)
    requires settled { drop writer.behind writer.log.items ≡ [] }
    requires goes_on { writer.desk.shown.value.ended ≡ false }
    ensures { MatchBool result.1 ((drop result.0.behind result.0.log.items ≡ []) × (result.0.desk.shown.value ≡ after_op writer.desk.shown.value op)) (result.0.desk.shown.value ≡ writer.desk.shown.value) }
{
    let mut writer = writer;
    if !append(&mut writer, op) {
        return (writer, false);
    }
    let (writer, shown) = writer.publish_as::<Sees, W>(rt);
    match shown {
        Ok(()) => (writer, true),
        Err(_) => (writer, false),
    }
}

/// Puts one more behind what is published, and says whether it did.
fn append<J: Naming>(writer: &mut StoreWriter<J>, op: Op<J>) -> bool
    ensures desk { writer.new.desk ≡ writer.old.desk }
    ensures pending { MatchBool result (drop writer.new.behind writer.new.log.items ≡ drop writer.old.behind writer.old.log.items ++ op ∷ []) (Unit {0}) }
{
    match writer.append(op) {
        Ok(()) => true,
        Err(op) => {
            let_go(op);
            false
        }
    }
}

/// Lets an operation go, in one place.
fn let_go<J: Naming>(_op: Op<J>) {}

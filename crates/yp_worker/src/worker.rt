//! A worker.
ghost use Rattle.std.specs.Prelude.{◌≡◌, length};

use crate::contents::Selected;
use yp_feed::item::Item;
use yp_journal::state::State;
use yp_roster::roster::Roster;
use yp_slot::readers::Readers;
use yp_time::start::Start;
use yp_tree::tree::Tree;

/// The offer that is out: the place of the slot that made it, and its item.
#[derive(Clone, Copy, Drop)]
pub struct Out {
    pub place: usize,
    pub item: Item,
}

/// One worker: the start of the ticks, the state of the journal with the own rules of each receiver's user, the
/// numbers of its receivers and the roster of their feeds, the offer that is out, and whether memory ran out.
/// Besides it keeps what classes select, as it was made for full updates; and, from the first patch on at which
/// a class sends on change what a filter selects, a second tree of the rows.
#[derive(Drop)]
pub struct Worker {
    pub(crate) start: Start,
    pub(crate) state: State,
    pub(crate) readers: Readers,
    pub(crate) former: Option<Tree>,
    pub(crate) mine: Vec<u32>,
    pub(crate) roster: Roster,
    pub(crate) contents: Vec<Selected>,
    pub(crate) out: Option<Out>,
    pub(crate) spent: bool,
}

impl Worker {
    /// The state of the journal that it has followed.
    pub fn state(&self) -> &State
        ensures { result.now ≡ self.now.state }
    {
        &self.state
    }

    /// How many feeds it serves now.
    pub fn feeds(&self) -> usize
        ensures { result ≡ length self.now.roster.slots.items }
    {
        self.roster.slots.len()
    }

    /// Whether memory ran out while it worked. It stands for nothing then, and is to be let go.
    pub fn spent(&self) -> bool
        ensures { result ≡ self.now.spent }
    {
        self.spent
    }
}

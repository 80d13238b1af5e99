//! One history for all threads, which lives in proofs: its length is a word in memory.
ghost use Rattle.std.specs.Prelude.{◌≡◌, ◌+◌, ◌<◌, ◌≤◌, ◌^◌, ◌++◌, ◌∷◌, [], true, false, length, IfSome, None};
ghost use mathlib.Core.List.{IsPrefix};
ghost use Rattle.yp_journal.specs.History.{IsLegal, MayFollow, state_of};
ghost use Rattle.yp_published.specs.Histories.{Begins, has_end};
ghost use Rattle.yp_published.specs.Rules.{head_of};

use logbook::{Gain, Offer, Plain, Play, Rule, Seen, Start, Word};
use std::marker::{Brand, Model, PhantomData};
use std::sync::ledger::Ledger;
use yp_journal::entry::Entry;

/// What stands in a history.
pub enum Item {
    Added(Entry),
    /// No more is added.
    End,
}

/// The rule of the history.
pub struct Law;

impl Rule<Item, u64> for Law {
    ghost use Rattle.std.specs.Prelude.{[]};
    ghost use base.Fml.{ftrue};
    ghost use Rattle.yp_published.specs.Rules.{IsKept};

    ghost holds = { λ cells items. IsKept cells items };

    ghost first = { [] };

    ghost hinted = { λ n items. Unit {0} };

    ghost shows = { λ items. [] };

    ghost keeps = { λ names items. ftrue };

    ghost moves = { λ ask before after answer. Unit {0} };
}

/// Nothing is traded.
pub struct Nothing;

impl Gain<Item, u64> for Nothing {
    ghost use base.Fml.{ftrue};

    ghost after = { λ names about answer. ftrue };
}

/// A step that adds an entry.
pub struct Add;

impl Play<Item, u64> for Add {
    ghost use Rattle.yp_published.specs.Rules.{AddsToAll};

    ghost then = { AddsToAll };
}

impl Plain<Entry, Item, u64> for Add {
    ghost use Rattle.std.specs.Prelude.{None};
    ghost use Rattle.yp_published.specs.declared.history.Item.TheVariants.{Added};

    ghost ask = { λ entry. Added entry };

    ghost state = { λ entry. None };
}

/// A step that ends the history.
pub struct Ending;

impl Plain<u64, Item, u64> for Ending {
    ghost use Rattle.std.specs.Prelude.{None};
    ghost use Rattle.yp_published.specs.declared.history.Item.TheVariants.{End};

    ghost ask = { λ n. End };

    ghost state = { λ n. None };
}

/// What a shared journal is about: its history, the schema, and the state that it goes on from. The ledger counts the
/// entries of each lane.
pub trait Naming: Ledger {
    ghost use Rattle.std.specs.Prelude.{List};
    ghost use Rattle.logbook.specs.Pages.{Book};
    ghost use Rattle.yp_schema.specs.declared.schema.SchemaNode.{SchemaNode};
    ghost use Rattle.yp_journal.specs.History.{JournalState};

    ghost book: { Book };

    ghost nodes: { List SchemaNode };

    ghost opening: { JournalState };
}

impl Naming for Brand {
    ghost use Rattle.std.specs.Prelude.{[]};
    ghost use Rattle.yp_journal.specs.History.{first_state};

    ghost book = { record { number = 0; log_name = 0; cells_name = 0 } };

    ghost nodes = { [] };

    ghost opening = { first_state [] };
}

/// A history with nothing in it, which has no name yet.
pub struct Opened {
    head: Word<Item, u64, Law>,
    seen: Seen<Item, u64, Law>,
    pub ghost empty: { seen.log ≡ [] },
    pub ghost head_is: { head ≡ head_of seen.book },
}

impl Opened {
    pub fn new() -> Opened {
        let (seen, mut first, _second) = Seen::open(Start::alone(), 0, 0);
        Opened {
            head: Word::tracked(0, &mut first),
            seen,
        }
    }

    /// The word under a name, and the front that has seen nothing.
    pub fn named<J: Naming>(self) -> (History<J>, Front<J>)
        requires { self.seen.book ≡ J.book }
        ensures { (result.1.entries ≡ []) × (result.1.ended ≡ false) }
    {
        let Opened { head, seen } = self;
        (
            History {
                head,
                of: PhantomData,
            },
            Front {
                count: 0,
                ended: false,
                seen,
                of: PhantomData,
            },
        )
    }
}

/// The word that all threads share: the length of the history.
#[derive(Drop)]
pub struct History<J: Naming> {
    head: Word<Item, u64, Law>,
    of: PhantomData<J>,
    ghost head_is: { head ≡ head_of J.book },
}

/// A beginning of the history that was seen. It is legal from the state that the history goes on from.
#[derive(Drop)]
pub struct Front<J: Naming> {
    count: u64,
    ended: bool,
    seen: Seen<Item, u64, Law>,
    of: PhantomData<J>,
}

impl<J: Naming> Model for Front<J> {
    ghost use Rattle.std.specs.Coded.{codes};
    ghost use Rattle.std.specs.Prelude.{◌≡◌, length};
    ghost use Rattle.yp_journal.specs.History.{IsLegal};
    ghost use Rattle.yp_journal.specs.contracts.entry.Entry as entry;
    ghost use Rattle.yp_published.specs.Histories.{Known, known_in, entries_in, has_end, EndsOnce};
    ghost use Rattle.yp_published.specs.Histories.{AreOfLanes};

    ghost Value = { Known };

    ghost coded = { Prim.hlevel (codes, entry.the_row.coded) };

    ghost view = { λ f. known_in f.seen.log };

    ghost invariant = { λ f. (f.count ≡ length (entries_in f.seen.log)) × (f.ended ≡ has_end f.seen.log) × (f.seen.book ≡ J.book) × EndsOnce f.seen.log × IsLegal J.nodes J.opening (entries_in f.seen.log) × AreOfLanes J.parts (entries_in f.seen.log) };
}

impl<J: Naming> Front<J> {
    /// How many entries it has.
    pub fn len(&self) -> u64
        ensures { result ≡ length self.now.entries }
    {
        self.count
    }

    /// Whether it saw the end of the history.
    pub fn has_ended(&self) -> bool
        ensures { result ≡ self.now.ended }
    {
        self.ended
    }

    /// A copy.
    pub fn again(&self) -> Front<J>
        ensures { result ≡ self.now }
    {
        Front {
            count: self.count,
            ended: self.ended,
            seen: self.seen.again(),
            of: PhantomData,
        }
    }

    /// It is legal from the state that the history goes on from.
    pub fn legal(&self)
        ensures { IsLegal J.nodes J.opening self.now.entries }
    {
        let _ = &self.seen;
    }

    /// Of two fronts the shorter begins the longer.
    pub fn compare(&self, other: &Front<J>)
        ensures { length self.now.entries ≤ length other.now.entries → IsPrefix self.now.entries other.now.entries }
    {
        let mut both = self.seen.again();
        both.learn(&other.seen);
    }

    /// Any front begins the whole history.
    pub fn begins(&self, whole: &Front<J>)
        requires { whole.now.ended ≡ true }
        ensures { Begins self.now whole.now }
    {
        let mut both = self.seen.again();
        both.learn(&whole.seen);
    }

    /// The front with one more entry, where this one is all of the history. Then any other front begins this one.
    pub fn with(&self, history: &History<J>, entry: &Entry, other: &Front<J>) -> Option<Front<J>>
        requires room { length self.now.entries < 2 ^ 62 }
        requires goes_on { self.now.ended ≡ false }
        requires legal { MayFollow J.nodes (state_of J.nodes J.opening self.now.entries) entry.now }
        requires lane { (0 < entry.now.lane) × (entry.now.lane ≤ J.parts) }
        ensures { IfSome result (λ front. (front.entries ≡ self.now.entries ++ entry.now ∷ []) × (front.ended ≡ false) × Begins other.now self.now) }
    {
        let seen = stepped::<J, Entry, Add>(history, &self.seen, self.count, entry, &other.seen)?;
        Some(Front {
            count: self.count + 1,
            ended: false,
            seen,
            of: PhantomData,
        })
    }

    /// The whole history, where this front is all of it. Nothing is added then.
    pub fn end(&self, history: &History<J>) -> Option<Front<J>>
        requires room { length self.now.entries < 2 ^ 62 }
        requires goes_on { self.now.ended ≡ false }
        ensures { IfSome result (λ front. (front.entries ≡ self.now.entries) × (front.ended ≡ true)) }
    {
        let seen = stepped::<J, u64, Ending>(history, &self.seen, self.count, &0, &self.seen)?;
        Some(Front {
            count: self.count,
            ended: true,
            seen,
            of: PhantomData,
        })
    }
}

/// What was seen with one item more, where it is all of the history.
fn stepped<J: Naming, X, M: Plain<X, Item, u64>>(
    history: &History<J>,
    mine: &Seen<Item, u64, Law>,
    count: u64,
    about: &X,
    other: &Seen<Item, u64, Law>,
) -> Option<Seen<Item, u64, Law>>
    requires books { (mine.now.book ≡ J.book) × (other.now.book ≡ J.book) }
    requires room { count < 2 ^ 62 }
    requires all { count ≡ length mine.now.log }
    requires goes_on { has_end mine.now.log ≡ false }
    requires fresh { M.state about.now ≡ None }
    ensures { IfSome result (λ seen. (seen.log ≡ mine.now.log ++ M.ask about.now ∷ []) × (seen.book ≡ J.book) × IsPrefix other.now.log mine.now.log) }
{
    let mut seen = mine.again();
    seen.learn(other);
    let mut offer: Offer<Item, u64, Law, Nothing> = seen.plain::<Nothing, X, M>(about);
    let mut pen = seen.no_pen();
    let found = history
        .head
        .compare_exchange::<Add, Nothing>(count, count + 1, &mut seen, &mut offer, &mut pen);
    if found == count { Some(seen) } else { None }
}

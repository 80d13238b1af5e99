//! Crews that go on over lanes, by threads.
ghost use Rattle.std.specs.Prelude.{◌≡◌, ℕ, ◌<◌, ◌^◌, ◌++◌, List, length, map, IfOk};
ghost use Rattle.std.specs.List.{AllByRecursion};
ghost use Rattle.yp_journal.specs.declared.entry.Entry.{Entry as EntryThere};
ghost use Rattle.yp_journal.specs.History.{IsLegal, MayCome, first_state, state_of};
ghost use Rattle.yp_attempt.specs.Runs.{Run};
ghost use Rattle.yp_crews.specs.Crews.{AreCrews, AreReady};
ghost use Rattle.yp_turns.specs.Journal.{Interleaves, turn_of};
ghost use Rattle.yp_handover.specs.Handover.{AreCrewsBeside};

use crate::life::{Setting, live};
use std::alloc::Global;
use std::marker::Brand;
use std::sync::Wait;
use std::sync::ledger::Blank;
use std::thread::Threads;
use yp_base::memory::NoMemory;
use yp_crews::crew::Crew;
use yp_gate::Gate;
use yp_handover::laws::crews_go_on_by_threads;
use yp_journal::entry::Entry;
use yp_journal::receiver::ReceiverInfo;
use yp_journal::state::State;
use yp_published::history::Opened;
use yp_schema::schema::Schema;
use yp_script::script::Lanes;

/// What lanes came to: the entries that they wrote, in order, the state after them, and the crews that followed them.
#[derive(Drop)]
pub struct Beside {
    pub entries: Vec<Entry>,
    pub state: State,
    pub crews: Vec<Crew>,
}

/// Writes the commands of lanes beside each other, from a state on, and has crews follow them, each worker and each receiver
/// beside the others. The entries are a legal journal that interleaves the lanes. Crews that had served the entries before
/// have then served these, too. An error says that memory ran out, or that there were fewer places for readers of the
/// journal than workers.
pub fn go_on_beside<T: Threads + Wait + Sync, G: Gate>(
    rt: &T,
    alloc: Global,
    schema: &Schema,
    gate: &G,
    receivers: &[ReceiverInfo],
    state: State,
    crews: Vec<Crew>,
    lanes: Lanes,
) -> Result<Beside, NoMemory>
    requires few { length lanes < 2 ^ 32 }
    requires short { AllByRecursion (λ lane. length lane < 2 ^ 32) lanes }
    requires some { 0 < length crews.items }
    requires workers { length crews.items < 2 ^ 32 }
    requires commands { AllByRecursion (AllByRecursion (MayCome schema.now state.receivers)) lanes }
    requires ready { AreReady schema.now state crews.items }
    ensures legal { IfOk result (λ beside. IsLegal schema.now state beside.entries.items) }
    ensures state { IfOk result (λ beside. beside.state ≡ state_of schema.now state beside.entries.items) }
    ensures lanes { IfOk result (λ beside. Interleaves lanes (map turn_of beside.entries.items)) }
    ensures served { IfOk result (λ beside. (start : ℕ) (workers worker : ℕ) (before : List EntryThere) (runs : List Run)
        → IsLegal schema.now (first_state receivers.now) before → state ≡ state_of schema.now (first_state receivers.now) before
        → AreCrews schema.now start receivers.now workers worker before runs crews.items
        → AreCrewsBeside schema.now start receivers.now workers worker (before ++ beside.entries.items) runs beside.crews.items) }
{
    crews_go_on_by_threads();
    let opened = Opened::new();
    let blank = Blank::new(lanes.len() as u64);
    let setting = Setting { schema, receivers };
    live::<Brand, T, G>(
        rt, alloc, opened, blank, &setting, gate, state, crews, lanes,
    )
}

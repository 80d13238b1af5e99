//! Workers with the receivers that they serve, which follow a journal entry by entry.
ghost use Rattle.std.specs.Prelude.{◌≡◌, ℕ, ◌+◌, ◌<◌, ◌^◌, ◌++◌, ◌∷◌, [], List, length, replicate, IfOk, OnOk};
ghost use Rattle.yp_journal.specs.declared.entry.Entry.{Entry as EntryThere};
ghost use Rattle.yp_journal.specs.declared.receiver.ReceiverInfo.{ReceiverInfo as Declared};
ghost use Rattle.yp_journal.specs.History.{JournalState, MayCome, MayFollow, first_state, next_state};
ghost use Rattle.yp_attempt.specs.Runs.{Run, first_run};
ghost use Rattle.yp_crews.specs.Crews.{AreCrews, AreCrewsOn, AreReady};

use crate::crew::Crew;
use std::alloc::Global;
use yp_base::memory::NoMemory;
use yp_journal::command::Command;
use yp_journal::entry::Entry;
use yp_journal::laws::a_journal_goes_on_entry_by_entry;
use yp_journal::receiver::ReceiverInfo;
use yp_journal::state::{Outcome, State};
use yp_schema::schema::Schema;
use yp_time::start::Start;

/// So many workers before the first entry, each with a listener for each receiver that it serves: the receivers whose number
/// leaves its own as the remainder by the number of workers. Numbers of receivers are of 32 bits, so there are fewer of them
/// than such numbers.
pub fn open_crews(
    alloc: Global,
    schema: &Schema,
    start: &Start,
    receivers: &[ReceiverInfo],
    workers: u32,
) -> Result<Vec<Crew>, NoMemory>
    requires few { length receivers.now < 2 ^ 32 }
    ensures opened { IfOk result (λ crews. AreCrews schema.now start.now receivers.now workers 0 [] (replicate workers first_run) crews.items) }
    ensures ready { IfOk result (λ crews. AreReady schema.now (first_state receivers.now) crews.items) }
{
    let mut crews = Vec::new(alloc);
    for worker in 0..workers {
        crews.push(Crew::open(alloc, schema, start, receivers, worker, workers)?)?;
    }
    Ok(crews)
}

/// Has each worker take the next entry of the journal, and its receivers all that it offers then, one worker after another.
/// Each offer is accepted. An error says that memory ran out; then nothing is known of what the workers and the receivers
/// have.
pub fn follow_entry(
    alloc: Global,
    schema: &Schema,
    crews: &mut Vec<Crew>,
    entry: &Entry,
) -> Result<(), NoMemory>
    requires { (state : JournalState) × AreReady schema.now state crews.old.items × MayFollow schema.now state entry.now × (state.position < 2 ^ 63) }
    ensures served { OnOk result ((start : ℕ) (receivers : List Declared) (workers worker : ℕ) (entries : List EntryThere) (runs : List Run)
        → AreCrews schema.now start receivers workers worker entries runs crews.old.items
        → AreCrewsOn schema.now start receivers workers worker (entries ++ entry.now ∷ []) runs crews.new.items) }
    ensures ready { OnOk result ((state : JournalState) → AreReady schema.now state crews.old.items
        → AreReady schema.now (next_state schema.now state entry.now.command) crews.new.items) }
{
    a_journal_goes_on_entry_by_entry();
    for crew in crews.iter_mut() {
        crew.follow(alloc, schema, entry)?;
    }
    Ok(())
}

/// Takes a command into the journal's state, makes its entry, and has the workers follow that. An error says that memory
/// ran out; then nothing is known of the state, nor of what the workers and the receivers have.
pub fn take_command(
    alloc: Global,
    schema: &Schema,
    state: &mut State,
    crews: &mut Vec<Crew>,
    lane: u32,
    index: u32,
    command: Command,
) -> Result<Entry, NoMemory>
    requires command { MayCome schema.now state.old.receivers command }
    requires position { state.old.position < 2 ^ 63 }
    requires ready { AreReady schema.now state.old crews.old.items }
    ensures lane { IfOk result (λ entry. entry.lane ≡ lane) }
    ensures index { IfOk result (λ entry. entry.index ≡ index) }
    ensures command { IfOk result (λ entry. entry.command ≡ command) }
    ensures follows { IfOk result (λ entry. MayFollow schema.now state.old entry) }
    ensures state { OnOk result (state.new ≡ next_state schema.now state.old command) }
    ensures receivers { state.new.receivers ≡ state.old.receivers }
    ensures position { OnOk result (state.new.position ≡ state.old.position + 1) }
    ensures served { IfOk result (λ entry. (start : ℕ) (receivers : List Declared) (workers worker : ℕ) (entries : List EntryThere) (runs : List Run)
        → AreCrews schema.now start receivers workers worker entries runs crews.old.items
        → AreCrewsOn schema.now start receivers workers worker (entries ++ entry ∷ []) runs crews.new.items) }
    ensures ready { OnOk result (AreReady schema.now state.new crews.new.items) }
{
    let Outcome { stamp, reply, .. } = state.accept(alloc, schema, &command)?;
    let entry = Entry {
        lane,
        index,
        stamp,
        command,
        reply,
    };
    follow_entry(alloc, schema, crews, &entry)?;
    Ok(entry)
}

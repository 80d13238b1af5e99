//! A run: turns, one after another.
ghost use Rattle.std.specs.Prelude.{◌≡◌, ◌+◌, ◌^◌, ◌<◌, ◌≤◌, ◌++◌, ◌∷◌, ℕ, [], List, length, map, IfOk, OnOk};
ghost use Rattle.std.specs.List.{AllByRecursion};
ghost use Rattle.yp_schema.specs.declared.schema.SchemaNode.{SchemaNode};
ghost use Rattle.yp_journal.specs.declared.entry.Entry.{Entry};
ghost use Rattle.yp_journal.specs.declared.receiver.ReceiverInfo.{ReceiverInfo as Declared};
ghost use Rattle.yp_journal.specs.History.{MayCome};
ghost use Rattle.yp_serial.specs.Serial.{Served, first_served};
ghost use Rattle.yp_turns.specs.Journal.{turn_of};
ghost use Rattle.yp_turns.specs.Turns.{MayTake};
ghost use Rattle.yp_live.specs.Desks.{desks_at};
ghost use Rattle.yp_live.specs.Runs.{GoesOnIf, IsOnItsWay, IsOnSomeWay, IsRun, IsSomeRun, IsThrough, desks_took};

use crate::desk::Desk;
use crate::setting::Setting;
use std::alloc::Global;
use yp_attempt::laws::the_first_offer_is_found;
use yp_base::memory::NoMemory;
use yp_journal::command::Command;
use yp_journal::laws::a_journal_goes_on_entry_by_entry;
use yp_journal::receiver::ReceiverInfo;
use yp_promise::laws::{a_serial_run_goes_on_entry_by_entry, a_serial_run_goes_on_offer_by_offer};
use yp_promise::posts::queues_hold_what_was_not_taken;
use yp_report::replied::{Replied, replied_by};
use yp_schema::schema::Schema;
use yp_turns::turns::Turn;
use yp_worker::laws::a_worker_offers_what_its_run_offers;
use yp_worker::worker::Worker;

/// How far a run has come: the worker that serves all receivers, the replies so far, and each receiver's desk.
#[derive(Drop)]
pub struct Run {
    pub worker: Worker,
    pub replies: Vec<Replied>,
    pub desks: Vec<Desk>,
}

/// Answers the next offer of the worker by the desk of its receiver, and says whether there was one.
fn answer_next(alloc: Global, schema: &Schema, run: &mut Run) -> Result<bool, NoMemory>
    requires { IsOnSomeWay schema.now run.old.worker run.old.desks.items }
    ensures goes { IfOk result (λ more. (start : ℕ) (receivers : List Declared) (entries : List Entry) (served : Served)
        → IsOnItsWay schema.now start receivers entries served run.old.worker run.old.desks.items → GoesOnIf more schema.now start receivers entries served 1 run.new.worker run.new.desks.items) }
    ensures replies { run.new.replies ≡ run.old.replies }
{
    a_worker_offers_what_its_run_offers();
    a_serial_run_goes_on_offer_by_offer();
    queues_hold_what_was_not_taken();
    the_first_offer_is_found();
    a_journal_goes_on_entry_by_entry();
    match run.worker.next_offer(alloc, schema)? {
        Some(sent) => {
            let at = run.worker.state().position();
            let receiver = sent.receiver as usize;
            let settled = run.desks[receiver].offer(alloc, sent, at)?;
            run.worker.settle(alloc, settled);
            Ok(true)
        }
        None => Ok(false),
    }
}

/// Answers up to fifteen offers, and says whether there may be more.
fn answer_some(alloc: Global, schema: &Schema, run: &mut Run) -> Result<bool, NoMemory>
    requires { IsOnSomeWay schema.now run.old.worker run.old.desks.items }
    ensures goes { IfOk result (λ more. (start : ℕ) (receivers : List Declared) (entries : List Entry) (served : Served)
        → IsOnItsWay schema.now start receivers entries served run.old.worker run.old.desks.items → GoesOnIf more schema.now start receivers entries served 15 run.new.worker run.new.desks.items) }
    ensures replies { run.new.replies ≡ run.old.replies }
{
    for _answer in 0..15u32 {
        if !answer_next(alloc, schema, run)? {
            return Ok(false);
        }
    }
    Ok(true)
}

/// Answers all offers of the worker. At a position there come at most fifteen for each feed.
fn answer_all(alloc: Global, schema: &Schema, run: &mut Run) -> Result<(), NoMemory>
    requires { IsOnSomeWay schema.now run.old.worker run.old.desks.items }
    ensures through { OnOk result ((start : ℕ) (receivers : List Declared) (entries : List Entry) (served : Served)
        → IsOnItsWay schema.now start receivers entries served run.old.worker run.old.desks.items → IsThrough schema.now start receivers entries run.new.worker run.new.desks.items) }
    ensures replies { run.new.replies ≡ run.old.replies }
{
    a_worker_offers_what_its_run_offers();
    a_serial_run_goes_on_offer_by_offer();
    for _feed in 0..run.worker.feeds() {
        if !answer_some(alloc, schema, run)? {
            return Ok(());
        }
    }
    if answer_some(alloc, schema, run)? {
        unreachable!()
    }
    Ok(())
}

/// Has the receiver of a command that takes packets take them.
fn take_by(alloc: Global, command: &Command, desks: &mut Vec<Desk>) -> Result<(), NoMemory>
    requires { (nodes : List SchemaNode) × ((receivers : List Declared) × (MayCome nodes receivers command.now × (length receivers ≡ length desks.old.items))) }
    ensures { OnOk result (desks.new.items ≡ desks_took command.now 0 desks.old.items) }
{
    match command {
        Command::Take { receiver, count } => desks[*receiver as usize].take(alloc, *count),
        Command::Tick(_) => Ok(()),
        Command::Edit(_) => Ok(()),
        Command::Rules(_) => Ok(()),
        Command::Establish { .. } => Ok(()),
        Command::Modify { .. } => Ok(()),
        Command::Delete { .. } => Ok(()),
        Command::Kill { .. } => Ok(()),
        Command::Resync { .. } => Ok(()),
        Command::Configure { .. } => Ok(()),
        Command::Reconfigure { .. } => Ok(()),
        Command::Unconfigure { .. } => Ok(()),
    }
}

/// Takes a turn: receivers take what they take by it, the worker takes its entry, and all offers are answered.
/// Of the entry only the reply is kept.
fn run_turn(alloc: Global, setting: &Setting, turn: Turn, run: &mut Run) -> Result<(), NoMemory>
    requires run { IsSomeRun setting.now.schema.now setting.now.start.now setting.now.receivers.now run.old }
    requires may { MayTake setting.now.schema.now setting.now.receivers.now turn }
    requires room { length run.old.replies.items < 2 ^ 63 }
    ensures run { OnOk result ((entries : List Entry) → IsRun setting.now.schema.now setting.now.start.now setting.now.receivers.now entries run.old
        → (entry : Entry) × ((turn_of entry ≡ turn) × IsRun setting.now.schema.now setting.now.start.now setting.now.receivers.now (entries ++ entry ∷ []) run.new)) }
    ensures count { OnOk result (length run.new.replies.items ≡ length run.old.replies.items + 1) }
{
    a_journal_goes_on_entry_by_entry();
    a_serial_run_goes_on_offer_by_offer();
    queues_hold_what_was_not_taken();
    let Turn {
        lane,
        index,
        command,
    } = turn;
    take_by(alloc, &command, &mut run.desks)?;
    let entry = run
        .worker
        .accept(alloc, setting.schema, lane, index, command)?;
    run.replies.push(replied_by(entry))?;
    answer_all(alloc, setting.schema, run)
}

/// The desks of receivers that nothing was offered to.
fn open_desks(alloc: Global, receivers: &[ReceiverInfo]) -> Result<Vec<Desk>, NoMemory>
    requires { AllByRecursion (λ receiver. 1 ≤ receiver.places) receivers.now }
    ensures { IfOk result (λ desks. (nodes : List SchemaNode) (start : ℕ) → desks.items ≡ desks_at nodes start first_served 0 receivers.now) }
{
    let mut desks = Vec::new(alloc);
    for receiver in receivers {
        desks.push(Desk::new(alloc, receiver)?)?;
    }
    Ok(desks)
}

/// Before the first turn.
fn opening(alloc: Global, setting: &Setting) -> Result<Run, NoMemory>
    requires places { AllByRecursion (λ receiver. 1 ≤ receiver.places) setting.now.receivers.now }
    requires few { length setting.now.receivers.now < 2 ^ 32 }
    ensures run { IfOk result (IsRun setting.now.schema.now setting.now.start.now setting.now.receivers.now []) }
    ensures none { IfOk result (λ run. run.replies.items ≡ []) }
{
    a_serial_run_goes_on_entry_by_entry();
    let worker = Worker::open(
        alloc,
        setting.schema,
        setting.start,
        setting.receivers,
        0,
        1,
    )?;
    Ok(Run {
        worker,
        replies: Vec::new(alloc),
        desks: open_desks(alloc, setting.receivers)?,
    })
}

/// Takes turns, one after another, from the first on. An error says that memory ran out.
pub fn run_turns(alloc: Global, setting: &Setting, turns: Vec<Turn>) -> Result<Run, NoMemory>
    requires places { AllByRecursion (λ receiver. 1 ≤ receiver.places) setting.now.receivers.now }
    requires few { length setting.now.receivers.now < 2 ^ 32 }
    requires may { AllByRecursion (MayTake setting.now.schema.now setting.now.receivers.now) turns.items }
    requires room { length turns.items < 2 ^ 63 }
    ensures { IfOk result (λ run. (entries : List Entry) × ((map turn_of entries ≡ turns.items) × IsRun setting.now.schema.now setting.now.start.now setting.now.receivers.now entries run)) }
{
    let mut run = opening(alloc, setting)?;
    for turn in turns {
        run_turn(alloc, setting, turn, &mut run)?;
    }
    Ok(run)
}

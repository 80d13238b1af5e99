//! A run: commands before lanes, those of the lanes, and those after them.
ghost use Rattle.std.specs.Prelude.{◌+◌, ◌^◌, ◌<◌, ◌≤◌, [], length, sum_by, IfOk};
ghost use Rattle.std.specs.List.{AllByRecursion};
ghost use Rattle.yp_journal.specs.History.{MayCome};
ghost use Rattle.yp_script.specs.Lines.{line_limit};
ghost use Rattle.yp_turns.specs.Turns.{turns_of};
ghost use Rattle.yp_concurrent.specs.Running.{HasRun, HasTaken};

use crate::lanes::take_lanes;
use crate::outside::{Standing, opening, take_all};
use crate::setting::Setting;
use std::alloc::Global;
use std::sync::Wait;
use std::thread::Threads;
use yp_base::memory::NoMemory;
use yp_gate::Gate;
use yp_journal::command::Commands;
use yp_script::script::Lanes;
use yp_turns::laws::a_journal_of_a_script_has_as_many_entries;

/// Takes the commands before lanes.
fn run_before(alloc: Global, setting: &Setting, before: Commands) -> Result<Standing, NoMemory>
    requires receivers { length setting.now.receivers.now < 2 ^ 32 }
    requires commands { AllByRecursion (MayCome setting.now.schema.now setting.now.receivers.now) before }
    requires few { 1 + length before < 2 ^ 32 }
    ensures { IfOk result (HasTaken setting.now.schema.now setting.now.start.now setting.now.receivers.now setting.now.workers [] (turns_of 0 1 before)) }
{
    let mut standing = opening(alloc, setting)?;
    take_all(alloc, setting, 1, before, &mut standing)?;
    Ok(standing)
}

/// Takes commands before lanes, those of the lanes beside each other, and those after them.
pub fn run_all<T: Threads + Wait + Sync, G: Gate>(
    rt: &T,
    alloc: Global,
    gate: &G,
    setting: &Setting,
    before: Commands,
    lanes: Lanes,
    after: Commands,
) -> Result<Standing, NoMemory>
    requires receivers { length setting.now.receivers.now < 2 ^ 32 }
    requires workers { (0 < setting.now.workers) × (setting.now.workers < 2 ^ 32) }
    requires before { AllByRecursion (MayCome setting.now.schema.now setting.now.receivers.now) before }
    requires middle { AllByRecursion (AllByRecursion (MayCome setting.now.schema.now setting.now.receivers.now)) lanes }
    requires after { AllByRecursion (MayCome setting.now.schema.now setting.now.receivers.now) after }
    requires lanes { length lanes ≤ 64 }
    requires count { length before + sum_by (λ lane. length lane) lanes + length after ≤ line_limit }
    ensures { IfOk result (HasRun setting.now.schema.now setting.now.start.now setting.now.receivers.now setting.now.workers before lanes after) }
{
    a_journal_of_a_script_has_as_many_entries();
    let next = before.len() as u32 + 1;
    let standing = run_before(alloc, setting, before)?;
    let mut standing = take_lanes(rt, alloc, gate, setting, lanes, standing)?;
    take_all(alloc, setting, next, after, &mut standing)?;
    Ok(standing)
}

//! The commands of lanes, by threads.
ghost use Rattle.std.specs.Prelude.{◌≡◌, ◌^◌, ◌<◌, ◌++◌, List, length, map, IfOk, OnOk};
ghost use Rattle.std.specs.List.{AllByRecursion};
ghost use Rattle.yp_journal.specs.declared.entry.Entry.{Entry as EntryThere};
ghost use Rattle.yp_journal.specs.History.{MayCome};
ghost use Rattle.yp_report.specs.Replies.{replied_of};
ghost use Rattle.yp_concurrent.specs.Running.{HasTakenLanes, IsAt, IsSomewhere};

use crate::outside::Standing;
use crate::setting::Setting;
use std::alloc::{AllocError, Global};
use std::sync::Wait;
use std::thread::Threads;
use yp_base::memory::NoMemory;
use yp_gate::Gate;
use yp_journal::entry::Entry;
use yp_journal::laws::{a_journal_goes_on_entry_by_entry, a_journal_goes_on_where_another_ends};
use yp_report::replied::{Replied, replied_by};
use yp_script::script::Lanes;
use yp_threads::beside::{Beside, go_on_beside};

/// Adds the replies of entries.
fn add_replies(entries: Vec<Entry>, replies: &mut Vec<Replied>) -> Result<(), AllocError>
    ensures { OnOk result (replies.new.items ≡ replies.old.items ++ map replied_of entries.items) }
{
    for entry in entries {
        replies.push(replied_by(entry))?;
    }
    Ok(())
}

/// Takes the commands of lanes beside each other. Of their entries only the replies are kept.
fn take_beside<T: Threads + Wait + Sync, G: Gate>(
    rt: &T,
    alloc: Global,
    gate: &G,
    setting: &Setting,
    lanes: Lanes,
    standing: Standing,
) -> Result<Standing, NoMemory>
    requires standing { IsSomewhere setting.now.schema.now setting.now.start.now setting.now.receivers.now setting.now.workers standing }
    requires workers { (0 < setting.now.workers) × (setting.now.workers < 2 ^ 32) }
    requires few { length lanes < 2 ^ 32 }
    requires short { AllByRecursion (λ lane. length lane < 2 ^ 32) lanes }
    requires commands { AllByRecursion (AllByRecursion (MayCome setting.now.schema.now setting.now.receivers.now)) lanes }
    ensures { IfOk result (λ after. (entries : List EntryThere) → IsAt setting.now.schema.now setting.now.start.now setting.now.receivers.now setting.now.workers entries standing
        → HasTakenLanes setting.now.schema.now setting.now.start.now setting.now.receivers.now setting.now.workers entries lanes after) }
{
    a_journal_goes_on_entry_by_entry();
    a_journal_goes_on_where_another_ends();
    let Standing {
        state,
        crews,
        mut replies,
    } = standing;
    let Beside {
        entries,
        state,
        crews,
    } = go_on_beside(
        rt,
        alloc,
        setting.schema,
        gate,
        setting.receivers,
        state,
        crews,
        lanes,
    )?;
    add_replies(entries, &mut replies)?;
    Ok(Standing {
        state,
        crews,
        replies,
    })
}

/// Takes the commands of lanes beside each other, by threads. Where there is no lane, no thread is started.
pub fn take_lanes<T: Threads + Wait + Sync, G: Gate>(
    rt: &T,
    alloc: Global,
    gate: &G,
    setting: &Setting,
    lanes: Lanes,
    standing: Standing,
) -> Result<Standing, NoMemory>
    requires standing { IsSomewhere setting.now.schema.now setting.now.start.now setting.now.receivers.now setting.now.workers standing }
    requires workers { (0 < setting.now.workers) × (setting.now.workers < 2 ^ 32) }
    requires few { length lanes < 2 ^ 32 }
    requires short { AllByRecursion (λ lane. length lane < 2 ^ 32) lanes }
    requires commands { AllByRecursion (AllByRecursion (MayCome setting.now.schema.now setting.now.receivers.now)) lanes }
    ensures { IfOk result (λ after. (entries : List EntryThere) → IsAt setting.now.schema.now setting.now.start.now setting.now.receivers.now setting.now.workers entries standing
        → HasTakenLanes setting.now.schema.now setting.now.start.now setting.now.receivers.now setting.now.workers entries lanes after) }
{
    if lanes.len() == 0 {
        return Ok(standing);
    }
    take_beside(rt, alloc, gate, setting, lanes, standing)
}

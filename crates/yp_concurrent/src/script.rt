//! The report of a script whose lanes are threads.
ghost use Rattle.std.specs.Prelude.{◌≡◌, ◌<◌, ◌≤◌, ◌^◌, ℕ, List, length, IfOk, Ok, string_bytes};
ghost use Rattle.yp_script.specs.Lines.{line_limit};
ghost use Rattle.yp_script.specs.Script.{script_in, AreReceivers, MayRun, count_commands};
ghost use Rattle.yp_concurrent.specs.Promise.{TellsBeside};
ghost use Rattle.yp_concurrent.specs.Running.{IsRunOf};

use crate::laws::a_run_by_threads_serves_each_receiver;
use crate::outside::Standing;
use crate::run::run_all;
use crate::setting::Setting;
use crate::text::text_of;
use std::alloc::Global;
use std::sync::Wait;
use std::thread::Threads;
use yp_base::memory::NoMemory;
use yp_gate::Gate;
use yp_journal::receiver::Receivers;
use yp_report::laws::the_lines_of_replies_are_those_of_entries;
use yp_schema::schema::Schema;
use yp_script::script::Script;

/// The run of a script's commands, with the script's schema and its receivers.
#[derive(Drop)]
pub struct Ran {
    schema: Schema,
    receivers: Receivers,
    standing: Standing,
}

/// Runs the commands of a script, by so many workers.
fn run_script<T: Threads + Wait + Sync, G: Gate>(
    rt: &T,
    alloc: Global,
    gate: &G,
    script: Script,
    workers: u32,
) -> Result<Ran, NoMemory>
    requires receivers { AreReceivers script.receivers }
    requires commands { MayRun script }
    requires lanes { length script.lanes ≤ 64 }
    requires count { count_commands script ≤ line_limit }
    requires workers { (0 < workers) × (workers < 2 ^ 32) }
    ensures { IfOk result (IsRunOf script workers) }
{
    let Script {
        start,
        schema,
        receivers,
        before,
        lanes,
        after,
    } = script;
    // A start lies in the years of a start.
    let _second = start.second();
    let receivers = receivers.list(alloc)?;
    let setting = Setting {
        schema: &schema,
        start: &start,
        receivers: receivers.items(),
        workers,
    };
    let standing = run_all(rt, alloc, gate, &setting, before, lanes, after)?;
    Ok(Ran {
        schema,
        receivers,
        standing,
    })
}

/// The text of the report of a script's run, in which each lane, each of so many workers and each receiver is a thread of its
/// own, where there is one: the replies by position, then for each receiver what it took, where its queue was full, and what
/// it holds, then `end`. For whatever bytes the script was read from, the text tells of its run (`TellsBeside`). In which
/// order the commands of lanes come, and where queues are full, is as the threads have it. An error says that memory ran out,
/// or that there were fewer places for readers of the journal than workers.
pub fn report_beside<T: Threads + Wait + Sync, G: Gate>(
    rt: &T,
    alloc: Global,
    gate: &G,
    script: Script,
    workers: u32,
) -> Result<String, NoMemory>
    requires receivers { AreReceivers script.receivers }
    requires commands { MayRun script }
    requires lanes { length script.lanes ≤ 64 }
    requires count { count_commands script ≤ line_limit }
    requires workers { (0 < workers) × (workers < 2 ^ 32) }
    ensures { IfOk result (λ text. (bytes : List ℕ) → script_in bytes ≡ Ok script → TellsBeside workers bytes (string_bytes text)) }
{
    a_run_by_threads_serves_each_receiver();
    the_lines_of_replies_are_those_of_entries();
    let Ran {
        schema,
        receivers,
        standing,
    } = run_script(rt, alloc, gate, script, workers)?;
    text_of(alloc, &schema, receivers.items(), standing)
}

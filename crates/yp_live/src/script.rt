//! The report of a script, and what it comes to.
ghost use Rattle.std.specs.Prelude.{◌≡◌, ◌<◌, ◌≤◌, ℕ, List, length, IfOk, Ok, string_bytes};
ghost use Rattle.yp_script.specs.Lines.{line_limit};
ghost use Rattle.yp_script.specs.Script.{script_in, AreReceivers, MayRun, count_commands};
ghost use Rattle.yp_live.specs.Promise.{Sums, Tells};
ghost use Rattle.yp_live.specs.Runs.{IsRunOf};

use crate::run::{Run, run_turns};
use crate::setting::Setting;
use crate::summary::summary_text;
use crate::text::text_of;
use std::alloc::Global;
use std::marker::Brand;
use std::sync::ledger::{Blank, Ledger};
use yp_base::memory::NoMemory;
use yp_base::steps::Steps;
use yp_hearing::laws::{
    a_receiver_holds_what_its_lines_tell, each_line_is_heard_as_its_notification,
    every_interleaving_is_heard, the_trees_of_lines_mirror,
};
use yp_promise::interleavings::{
    an_interleaving_is_the_serial_run, every_interleaving_serves_each_receiver,
};
use yp_promise::laws::{
    a_serial_run_is_complete, what_a_serial_run_makes_serves, what_receivers_hold_can_be_shown,
};
use yp_promise::posts::queues_hold_what_was_not_taken;
use yp_report::laws::{
    the_lines_of_a_log_are_those_of_what_is_shown, the_lines_of_replies_are_those_of_entries,
};
use yp_schema::schema::Schema;
use yp_script::script::Script;
use yp_texts::laws::a_scripts_commands_have_utf8;
use yp_turns::laws::{
    a_journal_of_a_script_has_as_many_entries, a_legal_journal_is_that_of_its_turns,
    a_script_has_as_many_turns_as_commands, each_turn_of_a_script_may_come,
    the_serial_turns_make_a_journal_of_the_script,
};
use yp_turns::turns::serial_turns;

/// A run of a script's commands, and the schema of the script.
#[derive(Drop)]
pub struct Ran {
    schema: Schema,
    run: Run,
}

/// Runs the commands of a script.
fn run_script(alloc: Global, script: Script) -> Result<Ran, NoMemory>
    requires receivers { AreReceivers script.receivers }
    requires commands { MayRun script }
    requires lanes { length script.lanes ≤ 64 }
    requires count { count_commands script ≤ line_limit }
    ensures { IfOk result (IsRunOf script) }
{
    each_turn_of_a_script_may_come();
    a_script_has_as_many_turns_as_commands();
    let Script {
        start,
        schema,
        receivers,
        before,
        lanes,
        after,
    } = script;
    // A start lies in the years of a start.
    let _second = start.second();
    let receivers = receivers.list(alloc)?;
    let turns = serial_turns(alloc, before, lanes, after)?;
    let setting = Setting {
        schema: &schema,
        start: &start,
        receivers: receivers.items(),
    };
    let run = run_turns(alloc, &setting, turns)?;
    Ok(Ran { schema, run })
}

/// What the report of a script's run comes to, of which it counts the same steps.
fn summary_by<L: Ledger>(alloc: Global, script: Script, blank: Blank) -> Result<String, NoMemory>
    requires name { blank.name ≡ L.name }
    requires parts { blank.parts ≡ L.parts }
    requires some { 0 < L.parts }
    requires receivers { AreReceivers script.receivers }
    requires commands { MayRun script }
    requires lanes { length script.lanes ≤ 64 }
    requires count { count_commands script ≤ line_limit }
    ensures { IfOk result (λ text. (bytes : List ℕ) → script_in bytes ≡ Ok script → Sums bytes (string_bytes text)) }
{
    what_a_serial_run_makes_serves();
    every_interleaving_serves_each_receiver();
    an_interleaving_is_the_serial_run();
    a_scripts_commands_have_utf8();
    a_receiver_holds_what_its_lines_tell();
    the_trees_of_lines_mirror();
    a_serial_run_is_complete();
    queues_hold_what_was_not_taken();
    each_line_is_heard_as_its_notification();
    every_interleaving_is_heard();
    the_serial_turns_make_a_journal_of_the_script();
    a_legal_journal_is_that_of_its_turns();
    a_journal_of_a_script_has_as_many_entries();
    let mut steps = Steps::<L>::open(blank);
    let Ran { run, .. } = run_script(alloc, script)?;
    let Run { replies, desks, .. } = run;
    summary_text(alloc, replies.as_slice(), desks.as_slice(), &mut steps)
}

/// The text of the report of a script's run: the replies by position, then for each receiver what it took,
/// where its queue was full, and what it holds, then `end`. For whatever bytes the script was read from, the
/// text tells of its run (`Tells`). An error says that memory ran out.
pub fn report_of_script(alloc: Global, script: Script) -> Result<String, NoMemory>
    requires receivers { AreReceivers script.receivers }
    requires commands { MayRun script }
    requires lanes { length script.lanes ≤ 64 }
    requires count { count_commands script ≤ line_limit }
    ensures { IfOk result (λ text. (bytes : List ℕ) → script_in bytes ≡ Ok script → Tells bytes (string_bytes text)) }
{
    what_a_serial_run_makes_serves();
    every_interleaving_serves_each_receiver();
    an_interleaving_is_the_serial_run();
    what_receivers_hold_can_be_shown();
    a_scripts_commands_have_utf8();
    a_receiver_holds_what_its_lines_tell();
    the_trees_of_lines_mirror();
    a_serial_run_is_complete();
    queues_hold_what_was_not_taken();
    each_line_is_heard_as_its_notification();
    every_interleaving_is_heard();
    the_serial_turns_make_a_journal_of_the_script();
    a_legal_journal_is_that_of_its_turns();
    a_journal_of_a_script_has_as_many_entries();
    the_lines_of_a_log_are_those_of_what_is_shown();
    the_lines_of_replies_are_those_of_entries();
    let Ran { schema, run } = run_script(alloc, script)?;
    let Run {
        worker,
        replies,
        desks,
    } = run;
    // The datastore goes before the report is written.
    drop(worker);
    text_of(alloc, &schema, replies, desks)
}

/// What the report of a script's run comes to, a line for each number: its commands and the refused ones,
/// the full updates, change updates and other notifications that receivers took, the offers that met a full
/// queue, and the rows that receivers hold; then `end`. For whatever bytes the script was read from, the text
/// is that of its report (`Sums`). An error says that memory ran out.
pub fn summary_of_script(alloc: Global, script: Script) -> Result<String, NoMemory>
    requires receivers { AreReceivers script.receivers }
    requires commands { MayRun script }
    requires lanes { length script.lanes ≤ 64 }
    requires count { count_commands script ≤ line_limit }
    ensures { IfOk result (λ text. (bytes : List ℕ) → script_in bytes ≡ Ok script → Sums bytes (string_bytes text)) }
{
    summary_by::<Brand>(alloc, script, Blank::new(1))
}

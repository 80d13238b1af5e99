//! Reading a script.
ghost use Rattle.std.specs.Prelude.{◌≡◌, ◌+◌, ◌≤◌, length, take, IfOk, OnOk};
ghost use Rattle.yp_schema.specs.WellFormed.{IsSchema};
ghost use Rattle.yp_time.specs.Instants.{IsStart};
ghost use Rattle.yp_script.specs.Commands.{HasBounds};
ghost use Rattle.yp_script.specs.Lines.{byte_limit, line_limit, lines_from, pieces_of};
ghost use Rattle.yp_script.specs.Readings.{Gives};
ghost use Rattle.yp_script.specs.Script.{AreInOrder, AreReceivers, MayRun, count_commands, script_in, script_of};

pub use crate::cursor::BYTE_LIMIT;
use crate::cursor::Lines;
use crate::fault::ScriptFault;
use crate::reader::Reader;
use crate::script::Script;
use std::alloc::Global;
use yp_command::laws::a_read_command_may_come;

/// Reads the script of a text.
fn read_text(alloc: Global, text: &[u8]) -> Result<Script, ScriptFault>
    requires { length text.now ≤ byte_limit + 1 }
    ensures read { Gives result (script_of text.now) }
    ensures bounds { IfOk result HasBounds }
    ensures start { IfOk result (λ script. IsStart script.start) }
    ensures schema { IfOk result (λ script. IsSchema script.schema) }
{
    let mut lines = Lines::of_text(text);
    let mut reader = Reader::new(alloc);
    while let Some(line) = lines.next(alloc)? {
        reader.take(alloc, line)?;
    }
    reader.finish(alloc, lines.number + 1)
}

/// Reads a script. Its lines are a start, schema lines, receivers, commands, and lanes with commands
/// behind them where there are lanes. The fault is that of the first line that has one, by the lines
/// before it; of its faults the least is told, but a line past the limits of lines and bytes has
/// `Limit` before all others. The fault has its cause in words. Where the text ends too early, the line
/// after the last has `Order`. The commands of a script that was read may run in a journal of its schema
/// and receivers, and are 100,000 at most.
pub fn read_script(alloc: Global, bytes: &[u8]) -> Result<Script, ScriptFault>
    ensures read { Gives result (script_in bytes.now) }
    ensures order { OnOk result (AreInOrder (lines_from 0 0 (pieces_of (take (byte_limit + 1) bytes.now)))) }
    ensures start { IfOk result (λ script. IsStart script.start) }
    ensures schema { IfOk result (λ script. IsSchema script.schema) }
    ensures receivers { IfOk result (λ script. AreReceivers script.receivers) }
    ensures commands { IfOk result MayRun }
    ensures lanes { IfOk result (λ script. length script.lanes ≤ 64) }
    ensures count { IfOk result (λ script. count_commands script ≤ line_limit) }
{
    // Each command may come in a journal of the schema and the receivers by which it is read.
    a_read_command_may_come();
    let (text, _) = bytes.split_at(bytes.len().min(BYTE_LIMIT + 1));
    read_text(alloc, text)
}

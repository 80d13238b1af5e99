//! What a receiver hears of a stream.
ghost use Rattle.std.specs.Prelude.{◌≡◌, ◌∷◌, [], None, IfOk, IfErr, OnOk};
ghost use Rattle.yp_receiver.specs.Held.{lines_heard};
ghost use Rattle.yp_script.specs.Cursor.{seen_text};
ghost use Rattle.yp_replay.specs.Readings.{IsFirstFault};
ghost use Rattle.yp_replay.specs.Replay.{line_texts, fault_in, first_fault};

use crate::fault::{ReplayFault, line_fault};
use std::alloc::Global;
use yp_receiver::receiver::Receiver;
use yp_schema::schema::Schema;
use yp_script::stream::{StreamLines, TextLine};

/// Hears a line, unless it has a fault.
#[tactic(auto, using(crate::proofs::FirstFaults::taken_heard, crate::proofs::FirstFaults::taken_whole, crate::proofs::FirstFaults::told_fault))]
fn hear_line(
    alloc: Global,
    schema: &Schema,
    receiver: &mut Receiver,
    line: &TextLine,
) -> Result<(), ReplayFault>
    ensures heard { OnOk result (receiver.new ≡ lines_heard schema.now receiver.old (line_texts (seen_text line.now ∷ []))) }
    ensures whole { OnOk result (fault_in schema.now (seen_text line.now) ≡ None) }
    ensures fault { IfErr result (λ fault. IsFirstFault fault (fault_in schema.now (seen_text line.now))) }
{
    match line.text {
        Ok(text) => match receiver.take_line(alloc, schema, text) {
            Ok(()) => Ok(()),
            Err(fault) => Err(line_fault(line.number, fault)),
        },
        Err(kind) => Err(ReplayFault::Script {
            line: line.number,
            kind,
        }),
    }
}

/// A receiver that took these lines; the fault is that of the first line that has one.
#[tactic(auto, using(crate::proofs::FirstFaults::heard_first, crate::proofs::FirstFaults::whole_first, crate::proofs::FirstFaults::fails_first))]
pub fn hear_lines(
    alloc: Global,
    schema: &Schema,
    lines: StreamLines,
) -> Result<Receiver, ReplayFault>
    ensures heard { IfOk result (λ receiver. receiver ≡ lines_heard schema.now [] (line_texts lines.entry)) }
    ensures whole { OnOk result (first_fault schema.now lines.entry ≡ None) }
    ensures fault { IfErr result (λ fault. IsFirstFault fault (first_fault schema.now lines.entry)) }
{
    let mut lines = lines;
    let mut receiver = Receiver::new(alloc);
    while let Some(line) = lines.next() {
        hear_line(alloc, schema, &mut receiver, &line)?;
    }
    Ok(receiver)
}

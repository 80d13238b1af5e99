//! The replay of a saved stream.
ghost use Rattle.yp_replay.specs.Readings.{Gives};
ghost use Rattle.yp_replay.specs.Replay.{replayed, stream_replayed};

use crate::fault::ReplayFault;
use crate::hearing::hear_lines;
use crate::laws::what_is_held_can_be_written;
use crate::trees::trees_text;
use std::alloc::Global;
use yp_script::stream::{Stream, read_stream};

/// The text of what a receiver holds after the lines of a stream. There is room for so many bytes from the
/// start.
#[tactic(auto, using(crate::proofs::FirstFaults::stream_given, crate::proofs::FirstFaults::stream_fails))]
fn stream_text(alloc: Global, stream: Stream, room: usize) -> Result<String, ReplayFault>
    ensures { Gives result (stream_replayed stream.entry) }
{
    what_is_held_can_be_written();
    let Stream { schema, lines } = stream;
    let receiver = hear_lines(alloc, &schema, lines)?;
    let text = trees_text(alloc, &schema, receiver, room)?;
    Ok(text)
}

/// Replays a saved stream: the lines of a schema, and behind them the notification lines of one receiver.
/// The text has a line `tree ID JSON` for each subscription that had an update, by ascending ids, with the
/// rows that the receiver holds of it (RFC 8641 section 3.7, RFC 7951), and then `end`.
///
/// `Script` comes where one of the first lines is no good schema line, or where no line before it has a
/// fault and the first byte past the most that a script may have lies in the line. `Stream` comes where a
/// notification line is none that is served, and no line before it has a fault. `Memory` says nothing of
/// the lines.
#[tactic(auto, using(crate::proofs::FirstFaults::found_given, crate::proofs::FirstFaults::found_fails))]
pub fn replay_text(alloc: Global, bytes: &[u8]) -> Result<String, ReplayFault>
    ensures { Gives result (replayed bytes.now) }
{
    match read_stream(alloc, bytes) {
        Ok(stream) => stream_text(alloc, stream, bytes.len()),
        Err(fault) => Err(ReplayFault::from(fault)),
    }
}

//! Why a job has no text.

use yp_base::txt::Txt;
use yp_command::fault::ScriptKind;
use yp_replay::fault::StreamKind;

/// Why a job has no text.
#[derive(Drop)]
pub enum NoText {
    /// The first fault of a script, or of the first lines of a stream.
    Script { line: u32, kind: ScriptKind },
    /// The first fault of a stream is that of a notification line.
    Stream { line: u32, kind: StreamKind },
    /// This receiver of a script, the first that does so, takes by command; threads take by themselves.
    Manual { receiver: Txt },
    /// Memory ran out.
    Memory,
}

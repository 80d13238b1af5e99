//! The start line.
ghost use Rattle.std.specs.Prelude.{◌≡◌, IfOk};
ghost use Rattle.serde_json.specs.View.{view};
ghost use Rattle.yp_time.specs.Instants.{IsStart};
ghost use Rattle.yp_command.specs.Readings.{Tells};
ghost use Rattle.yp_script.specs.Values.{start_said};

use serde_json::Value as Json;
use std::alloc::Global;
use yp_command::fault::Flaw;
use yp_command::halt::Halt;
use yp_time::instant::InstantFault;
use yp_time::start::Start;

/// The start that a line gives.
pub fn read_start(alloc: Global, json: &Json) -> Result<Start, Halt>
    ensures read { Tells result (start_said (view json.now)) }
    ensures within { IfOk result IsStart }
{
    match json {
        Json::String(text) => match Start::read(text.as_str()) {
            Ok(start) => Ok(start),
            Err(InstantFault::BadInstant) => Err(Halt::Fault(Flaw::no_instant(
                alloc,
                "start",
                text.as_str(),
            ))),
        },
        _ => Err(Halt::Fault(Flaw::wrong("start", "is a text, as `2026-01-01T00:00:00Z`"))),
    }
}

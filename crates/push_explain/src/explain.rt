//! What is explained of a script.
ghost use Rattle.std.specs.Prelude.{◌≡◌, ◌↔◌, [], IfOk, IsOk, string_bytes};
ghost use Rattle.yp_script.specs.Script.{script_in};

use crate::faults::faults;
use crate::refusals::refusals;
use std::alloc::Global;
use yp_base::memory::NoMemory;
use yp_script::fault::ScriptFault;
use yp_script::reading::read_script;

/// Explains the faults of the script that bytes are, or where it has none its refused commands, each on a
/// line. Where nothing is explained the script has no fault.
pub fn explain(alloc: Global, bytes: &[u8]) -> Result<String, NoMemory>
    ensures { IfOk result (λ text. string_bytes text ≡ [] → IsOk (script_in bytes.now)) }
{
    match read_script(alloc, bytes) {
        Ok(script) => refusals(alloc, bytes, script),
        Err(ScriptFault::At { line, kind }) => faults(alloc, bytes, line, kind),
        Err(ScriptFault::Memory) => Err(NoMemory),
    }
}

/// The exit status where this was written: 0 exactly where nothing was explained, and else 1.
pub fn status_of(text: &str) -> u8
    ensures { result ≡ 0 ↔ text.now ≡ [] }
{
    if text.is_empty() { 0 } else { 1 }
}

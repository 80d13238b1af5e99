//! Receivers that take by command.
ghost use Rattle.std.specs.Prelude.{◌≡◌, IfOk};
ghost use Rattle.push_program.specs.Jobs.{first_manual};

use std::alloc::Global;
use yp_base::memory::{Duplicate, NoMemory};
use yp_base::txt::Txt;
use yp_command::receivers::Receivers;

/// The name of the first receiver that takes by command, and `None` where each takes by itself.
pub fn first_manual(alloc: Global, receivers: &Receivers) -> Result<Option<Txt>, NoMemory>
    ensures { IfOk result (λ name. name ≡ first_manual receivers.now) }
{
    for number in 0..receivers.len() {
        let Some(receiver) = receivers.get(number) else {
            break;
        };
        if !receiver.auto {
            return Ok(Some(receiver.name.copy(alloc)?));
        }
    }
    Ok(None)
}

//! Commands of lanes.
ghost use Rattle.std.specs.Prelude.{◌≡◌, Ok, IfOk};
ghost use Rattle.yp_journal.specs.declared.command.Command.{Command as Asked};
ghost use Rattle.yp_command.specs.Faults.{Said, together};
ghost use Rattle.yp_command.specs.Readings.{Tells};

use yp_command::fault::Flaw;
use yp_command::halt::{Halt, both};
use yp_journal::command::Command;

/// A command of a lane: the lane's number, from 1 on, and the command.
#[derive(Drop)]
pub struct Laned {
    pub lane: u64,
    pub command: Command,
}

/// The number of a lane, or what stops it.
fn number_of(lane: Result<u64, Flaw>) -> Result<u64, Halt>
    ensures read { Tells result lane }
    ensures same { IfOk result (λ number. lane ≡ Ok number) }
{
    Ok(lane?)
}

/// A command of a lane, from what its number and the command are read as.
#[tactic(auto, using(crate::proofs::LaneLaws::together_is))]
pub fn lane_command(lane: Result<u64, Flaw>, command: Result<Command, Halt>) -> Result<Laned, Halt>
    ensures read { (said : Said Asked) → Tells command said → Tells result (together (λ lane command. record { lane = lane; command = command }) lane said) }
    ensures lane { IfOk result (λ laned. lane ≡ Ok laned.lane) }
    ensures command { IfOk result (λ laned. command ≡ Ok laned.command) }
{
    let (lane, command) = both(number_of(lane), command)?;
    Ok(Laned { lane, command })
}

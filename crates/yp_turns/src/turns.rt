//! The turns of a script.
ghost use Rattle.std.specs.Prelude.{◌≡◌, ◌+◌, ◌^◌, ◌<◌, ◌++◌, length, sum_by, IfOk, OnOk};
ghost use Rattle.yp_turns.specs.Turns.{turns_of, lane_turns, serial_turns};

use std::alloc::Global;
use yp_base::memory::NoMemory;
use yp_journal::command::{Command, Commands};
use yp_script::script::Lanes;

/// A command, with the lane by which it comes, from 1 on, and its number there, from 1 on. Commands
/// outside the lanes are of lane 0.
#[derive(Drop)]
pub struct Turn {
    pub lane: u32,
    pub index: u32,
    pub command: Command,
}

/// Adds the turns of commands of a lane, the first of which has this number.
fn push_turns(
    alloc: Global,
    lane: u32,
    first: u32,
    commands: Commands,
    turns: &mut Vec<Turn>,
) -> Result<(), NoMemory>
    requires { first + length commands < 2 ^ 32 }
    ensures { OnOk result (turns.new.items ≡ turns.old.items ++ turns_of lane first commands) }
{
    let mut index = first;
    for command in commands.into_vec(alloc)? {
        turns.push(Turn {
            lane,
            index,
            command,
        })?;
        index += 1;
    }
    Ok(())
}

/// Adds the turns of lanes, one lane after the other.
fn push_lanes(alloc: Global, lanes: Lanes, turns: &mut Vec<Turn>) -> Result<(), NoMemory>
    requires few { length lanes + 1 < 2 ^ 32 }
    requires short { sum_by (λ lane. length lane) lanes + 1 < 2 ^ 32 }
    ensures { OnOk result (turns.new.items ≡ turns.old.items ++ lane_turns 1 lanes) }
{
    let mut lane = 1;
    for commands in lanes.into_vec(alloc)? {
        push_turns(alloc, lane, 1, commands, turns)?;
        lane += 1;
    }
    Ok(())
}

/// The commands before the lanes, then those of the lanes, one lane after the other, and then those after
/// them.
pub fn serial_turns(
    alloc: Global,
    before: Commands,
    lanes: Lanes,
    after: Commands,
) -> Result<Vec<Turn>, NoMemory>
    requires lanes { length lanes + 1 < 2 ^ 32 }
    requires few { length before + sum_by (λ lane. length lane) lanes + length after + 1 < 2 ^ 32 }
    ensures { IfOk result (λ turns. turns.items ≡ serial_turns before lanes after) }
{
    let mut turns = Vec::new(alloc);
    let next = before.len() as u32 + 1;
    push_turns(alloc, 0, 1, before, &mut turns)?;
    push_lanes(alloc, lanes, &mut turns)?;
    push_turns(alloc, 0, next, after, &mut turns)?;
    Ok(turns)
}

//! Commands that a reader gathers.
ghost use Rattle.std.specs.Prelude.{◌≡◌, ◌<◌, ◌≤◌, ◌++◌, ◌∷◌, [], All, IfOk, OnOk, OnErr, map, replicate, vec_len};
ghost use Rattle.yp_command.specs.Commands.{IsBounded};
ghost use Rattle.yp_script.specs.Commands.{AreBounded};
ghost use Rattle.yp_script.specs.Script.{in_lane};

use crate::lane::Laned;
use crate::script::Lanes;
use std::alloc::Global;
use yp_base::memory::NoMemory;
use yp_base::series::Series;
use yp_journal::command::{Command, Commands};

/// Commands, in the order in which they are gathered. No patch among them has more edits than there are
/// numbers of 32 bits.
#[derive(Drop)]
pub struct Gathered {
    pub commands: Vec<Command>,
    ghost bounds: { AreBounded commands.items },
}

impl Gathered {
    /// No commands.
    pub fn new(alloc: Global) -> Gathered
        ensures { result.commands.items ≡ [] }
    {
        Gathered {
            commands: Vec::new(alloc),
        }
    }

    /// One command more, at the end. After want of memory nothing is changed.
    pub fn push(&mut self, command: Command) -> Result<(), NoMemory>
        requires { IsBounded command }
        ensures ok { OnOk result (self.new.commands.items ≡ self.old.commands.items ++ command ∷ []) }
        ensures err { OnErr result (self.new.commands.items ≡ self.old.commands.items) }
    {
        self.commands.push(command)?;
        Ok(())
    }

    /// The commands, given on. It takes no memory.
    pub fn into_commands(self) -> Commands
        ensures same { result ≡ self.commands.items }
        ensures bounds { AreBounded result }
    {
        let Gathered { commands } = self;
        Series::from_vec(commands)
    }
}

/// So many lanes without commands.
pub fn empty_lanes(alloc: Global, count: u64) -> Result<Vec<Gathered>, NoMemory>
    ensures { IfOk result (λ lanes. map (λ lane. lane.commands.items) lanes.items ≡ replicate count []) }
{
    let mut lanes = Vec::new(alloc);
    for _lane in 0..count {
        lanes.push(Gathered::new(alloc))?;
    }
    Ok(lanes)
}

/// One command more, at the end of its lane.
pub fn push_in(lanes: &mut Vec<Gathered>, laned: Laned) -> Result<(), NoMemory>
    requires some { 1 ≤ laned.lane }
    requires within { laned.lane ≤ vec_len lanes.old }
    requires bounds { IsBounded laned.command }
    ensures { OnOk result (map (λ lane. lane.commands.items) lanes.new.items ≡ in_lane laned.lane laned.command (map (λ lane. lane.commands.items) lanes.old.items)) }
{
    let Laned { lane, command } = laned;
    lanes[lane as usize - 1].push(command)
}

/// The commands of each lane, given on.
pub fn lanes_of(alloc: Global, lanes: Vec<Gathered>) -> Result<Lanes, NoMemory>
    ensures same { IfOk result (λ made. made ≡ map (λ lane. lane.commands.items) lanes.items) }
    ensures bounds { IfOk result (λ made. All AreBounded made) }
{
    let mut made = Vec::new(alloc);
    for lane in lanes {
        made.push(lane.into_commands())?;
    }
    Ok(Series::from_vec(made))
}

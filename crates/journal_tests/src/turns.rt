//! The turns of a script with two lanes.
ghost use Rattle.std.specs.Prelude.{◌≡◌, ◌∷◌, [], IfOk};
ghost use Rattle.yp_journal.specs.declared.command.Command.TheVariants.{Tick};

use std::alloc::Global;
use std::test::Fail;
use yp_base::memory::NoMemory;
use yp_base::series::Series;
use yp_journal::command::{Command, Commands};
use yp_script::script::Lanes;
use yp_turns::turns::serial_turns;

// A tick.
fn one_tick(alloc: Global, tick: u64) -> Result<Commands, NoMemory>
    ensures { IfOk result (λ commands. commands ≡ Tick tick ∷ []) }
{
    let mut commands = Vec::with_capacity(alloc, 1)?;
    commands.push(Command::Tick(tick))?;
    Ok(Series::from_vec(commands))
}

// Two lanes of a tick each.
fn two_lanes(alloc: Global) -> Result<Lanes, NoMemory>
    ensures { IfOk result (λ lanes. lanes ≡ (Tick 5 ∷ []) ∷ (Tick 6 ∷ []) ∷ []) }
{
    let mut lanes = Vec::with_capacity(alloc, 2)?;
    lanes.push(one_tick(alloc, 5)?)?;
    lanes.push(one_tick(alloc, 6)?)?;
    Ok(Series::from_vec(lanes))
}

// The tick of a command.
fn tick_of(command: &Command) -> Option<u64> {
    match command {
        Command::Tick(tick) => Some(*tick),
        _ => None,
    }
}

#[test]
fn lanes_come_one_after_the_other(rt: HostRuntime) -> Result<(), Fail> {
    let alloc = rt.alloc();
    let before = one_tick(alloc, 4)?;
    let lanes = two_lanes(alloc)?;
    let after = one_tick(alloc, 7)?;
    let turns = serial_turns(alloc, before, lanes, after)?;
    assert_eq!(rt; turns.len(), 4);
    for (turn, want) in turns
        .as_slice()
        .iter()
        .zip(&[(0, 1, 4), (1, 1, 5), (2, 1, 6), (0, 2, 7)])
    {
        let (lane, index, tick) = *want;
        assert_eq!(rt; (turn.lane, turn.index), (lane, index));
        assert_eq!(rt; tick_of(&turn.command), Some(tick));
    }
    Ok(())
}

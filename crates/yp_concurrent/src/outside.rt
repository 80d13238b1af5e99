//! Commands outside of lanes, one after another, on one thread.
ghost use Rattle.std.specs.Prelude.{◌≡◌, ◌+◌, ◌^◌, ◌<◌, ◌∷◌, [], List, length, IfOk, OnOk};
ghost use Rattle.std.specs.List.{AllByRecursion};
ghost use Rattle.yp_journal.specs.declared.entry.Entry.{Entry};
ghost use Rattle.yp_journal.specs.History.{MayCome};
ghost use Rattle.yp_turns.specs.Turns.{turns_of};
ghost use Rattle.yp_concurrent.specs.Running.{HasTaken, IsAt, IsSomewhere};

use crate::setting::Setting;
use std::alloc::Global;
use yp_base::memory::NoMemory;
use yp_crews::crew::Crew;
use yp_crews::crews::{open_crews, take_command};
use yp_journal::command::{Command, Commands};
use yp_journal::laws::{a_journal_goes_on_entry_by_entry, a_legal_journal_goes_on};
use yp_journal::state::State;
use yp_report::replied::{Replied, replied_by};

/// How far a run has come: the state of the journal, the crews that serve the receivers, and the replies so far.
#[derive(Drop)]
pub struct Standing {
    pub state: State,
    pub crews: Vec<Crew>,
    pub replies: Vec<Replied>,
}

/// Before the first command.
pub fn opening(alloc: Global, setting: &Setting) -> Result<Standing, NoMemory>
    requires { length setting.now.receivers.now < 2 ^ 32 }
    ensures { IfOk result (IsAt setting.now.schema.now setting.now.start.now setting.now.receivers.now setting.now.workers []) }
{
    let state = State::new(alloc, setting.schema, setting.receivers)?;
    let crews = open_crews(
        alloc,
        setting.schema,
        setting.start,
        setting.receivers,
        setting.workers,
    )?;
    Ok(Standing {
        state,
        crews,
        replies: Vec::new(alloc),
    })
}

/// Takes a command, which has this number among those outside of lanes. Of its entry only the reply is kept.
fn take_one(
    alloc: Global,
    setting: &Setting,
    index: u32,
    command: Command,
    standing: &mut Standing,
) -> Result<(), NoMemory>
    requires standing { IsSomewhere setting.now.schema.now setting.now.start.now setting.now.receivers.now setting.now.workers standing.old }
    requires command { MayCome setting.now.schema.now setting.now.receivers.now command }
    requires room { length standing.old.replies.items < 2 ^ 63 }
    ensures taken { OnOk result ((entries : List Entry) → IsAt setting.now.schema.now setting.now.start.now setting.now.receivers.now setting.now.workers entries standing.old
        → HasTaken setting.now.schema.now setting.now.start.now setting.now.receivers.now setting.now.workers entries (turns_of 0 index (command ∷ [])) standing.new) }
    ensures count { OnOk result (length standing.new.replies.items ≡ length standing.old.replies.items + 1) }
{
    a_journal_goes_on_entry_by_entry();
    a_legal_journal_goes_on();
    let entry = take_command(
        alloc,
        setting.schema,
        &mut standing.state,
        &mut standing.crews,
        0,
        index,
        command,
    )?;
    standing.replies.push(replied_by(entry))?;
    Ok(())
}

/// Takes commands, one after another, of which the first has this number among those outside of lanes.
pub fn take_all(
    alloc: Global,
    setting: &Setting,
    first: u32,
    commands: Commands,
    standing: &mut Standing,
) -> Result<(), NoMemory>
    requires standing { IsSomewhere setting.now.schema.now setting.now.start.now setting.now.receivers.now setting.now.workers standing.old }
    requires commands { AllByRecursion (MayCome setting.now.schema.now setting.now.receivers.now) commands }
    requires numbers { first + length commands < 2 ^ 32 }
    requires room { length standing.old.replies.items + length commands < 2 ^ 63 }
    ensures { OnOk result ((entries : List Entry) → IsAt setting.now.schema.now setting.now.start.now setting.now.receivers.now setting.now.workers entries standing.old
        → HasTaken setting.now.schema.now setting.now.start.now setting.now.receivers.now setting.now.workers entries (turns_of 0 first commands) standing.new) }
{
    let mut index = first;
    for command in commands.into_vec(alloc)? {
        take_one(alloc, setting, index, command, standing)?;
        index += 1;
    }
    Ok(())
}

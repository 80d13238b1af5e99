//! The world of a case, event by event, with the companions of its workers.
ghost use Rattle.std.specs.Prelude.{◌≡◌, ◌<◌, ◌≤◌, ◌++◌, ℕ, flat_map, slice_get, IfNone, IfOk, OnOk};
ghost use Rattle.yp_script.specs.Lines.{line_limit};
ghost use Rattle.yp_script.specs.Script.{AreReceivers, MayRun, count_commands};
ghost use Rattle.yp_core.specs.declared.event.Happened.TheVariants.{Absorbed};
ghost use Rattle.world_cases.specs.Companions.{MakesEntry, MakesOffer, kept_for, take_comes};
ghost use Rattle.world_cases.specs.Runs.{IsRunning, other_answer};

use crate::companions::{Companions, answer_told, offer_comes};
use crate::comparing::{made_apart, told_apart};
use crate::plan::{BadCase, Plan, Planned};
use crate::shown::{push_difference, push_happened};
use std::alloc::Global;
use yp_base::memory::{Duplicate, NoMemory};
use yp_core::event::{Event, Happened};
use yp_core::world::World;
use yp_journal::command::{Command, Commands};
use yp_schema::schema::Schema;
use yp_script::script::{Lanes, Script};
use yp_slot::settling::Settled;

/// The commands of a script in order: those before the lanes, then those of the lanes, one lane after the other, and
/// then those after them.
fn in_order(
    alloc: Global,
    before: Commands,
    lanes: Lanes,
    after: Commands,
) -> Result<Vec<Command>, NoMemory>
    ensures { IfOk result (λ all. all.items ≡ before ++ (flat_map (λ lane. lane) lanes ++ after)) }
{
    let mut all = before.into_vec(alloc)?;
    for lane in lanes.into_vec(alloc)? {
        let mut commands = lane.into_vec(alloc)?;
        all.append(&mut commands)?;
    }
    let mut last = after.into_vec(alloc)?;
    all.append(&mut last)?;
    Ok(all)
}

/// The answer that a queue didn't give.
fn other_answer(settled: Settled) -> Settled
    ensures { result ≡ other_answer settled }
{
    match settled {
        Settled::Took => Settled::Full,
        Settled::Full => Settled::Took,
    }
}

/// A case as it runs: the schema and the commands of its script, its world, and the companions of the world's
/// workers.
#[derive(Drop)]
pub struct Run {
    schema: Schema,
    commands: Vec<Command>,
    world: World,
    companions: Companions,
}

impl Run {
    /// Before the first event.
    fn open(alloc: Global, script: Script, workers: u32) -> Result<Run, NoMemory>
        requires workers { 0 < workers }
        requires receivers { AreReceivers script.receivers }
        requires commands { MayRun script }
        requires count { count_commands script ≤ line_limit }
        ensures { IfOk result IsRunning }
    {
        let Script {
            start,
            schema,
            receivers,
            before,
            lanes,
            after,
        } = script;
        let receivers = receivers.list(alloc)?;
        let commands = in_order(alloc, before, lanes, after)?;
        let world = World::new(alloc, &schema, &start, receivers.items(), workers)?;
        let companions = Companions::open(alloc, &schema, &start, receivers.items(), workers)?;
        Ok(Run {
            schema,
            commands,
            world,
            companions,
        })
    }

    /// Goes on by an event. The next command to append is the one whose number is that of the entries there; where
    /// no command is left, nothing happens.
    fn go_on(&mut self, alloc: Global, planned: Planned) -> Result<Happened, NoMemory>
        requires { IsRunning self.old }
        ensures { OnOk result (IsRunning self.new) }
    {
        let event = match planned {
            Planned::Append => match self.commands.get(self.world.entries().len()) {
                Some(command) => Event::Append(command.copy(alloc)?),
                None => return Ok(Happened::Nothing),
            },
            Planned::Absorb(worker) => Event::Absorb(worker),
            Planned::Offer(worker) => Event::Offer(worker),
            Planned::Mislead(worker) => Event::Offer(worker),
            Planned::Take(receiver) => Event::Take(receiver),
        };
        self.world.step(alloc, &self.schema, event)
    }

    /// Where the worker of a number absorbed an entry, its companion makes its own. Gives what this comes to, if the
    /// entry is another one.
    fn follow_absorbed(
        &mut self,
        alloc: Global,
        worker: u32,
        happened: &Happened,
    ) -> Result<Option<Happened>, NoMemory>
        requires { IsRunning self.old }
        ensures running { OnOk result (IsRunning self.new) }
        ensures made { IfOk result (λ apart. IfNone apart ((position : ℕ) → happened.now ≡ Absorbed position → MakesEntry self.old.commands.items self.old.world.entries.items position)) }
    {
        let Happened::Absorbed(position) = happened else {
            return Ok(None);
        };
        let commands = self.commands.as_slice();
        let made = self
            .companions
            .absorb(alloc, &self.schema, commands, worker)?;
        Ok(made_apart(self.world.entries(), *position, made))
    }

    /// Where the worker of a number offered, its companion does, and is told an answer. Gives what this would have
    /// come to in the world, if it is something else.
    fn follow_offered(
        &mut self,
        alloc: Global,
        worker: u32,
        happened: &Happened,
        settled: Settled,
    ) -> Result<Option<Happened>, NoMemory>
        requires { IsRunning self.old }
        ensures running { OnOk result (IsRunning self.new) }
        ensures offered { IfOk result (λ apart. IfNone apart (MakesOffer settled happened.now self.old.companions.kept.items self.new.companions.kept.items)) }
    {
        let offer = self.companions.offer(alloc, &self.schema, worker, settled)?;
        let followed = offer_comes(answer_told(happened), offer);
        Ok(told_apart(happened, followed))
    }

    /// Where the receiver of a number took, the oldest packet that is kept for it goes. Gives what this comes to, if
    /// the receiver took something else.
    fn follow_taken(&mut self, receiver: u32, happened: &Happened) -> Option<Happened>
        requires { IsRunning self.old }
        ensures running { IsRunning self.new }
        ensures taken { IfNone result (happened.now ≡ take_comes (slice_get (kept_for self.old.companions.kept.items receiver) 0)) }
    {
        let followed = self.companions.take(receiver);
        told_apart(happened, followed)
    }

    /// Has the companions follow an event that came to this, and gives what it comes to with them, if that is
    /// something else.
    fn follow(
        &mut self,
        alloc: Global,
        planned: Planned,
        happened: &Happened,
    ) -> Result<Option<Happened>, NoMemory>
        requires { IsRunning self.old }
        ensures { OnOk result (IsRunning self.new) }
    {
        match planned {
            Planned::Append => Ok(None),
            Planned::Absorb(worker) => self.follow_absorbed(alloc, worker, happened),
            Planned::Offer(worker) => {
                self.follow_offered(alloc, worker, happened, answer_told(happened))
            }
            Planned::Mislead(worker) => {
                let settled = other_answer(answer_told(happened));
                self.follow_offered(alloc, worker, happened, settled)
            }
            Planned::Take(receiver) => Ok(self.follow_taken(receiver, happened)),
        }
    }

    /// Tells in a line what each event comes to, and in another one what it comes to with the companions, if that is
    /// something else.
    fn go_through(
        &mut self,
        alloc: Global,
        events: &[Planned],
        told: &mut String,
    ) -> Result<(), NoMemory>
        requires { IsRunning self.old }
    {
        for planned in events {
            let happened = self.go_on(alloc, *planned)?;
            push_happened(alloc, told, &happened)?;
            if let Some(followed) = self.follow(alloc, *planned, &happened)? {
                push_difference(alloc, told, &followed)?;
            }
        }
        Ok(())
    }
}

/// Tells in lines what the events of a case come to, on the world of a script.
pub fn run_script(
    alloc: Global,
    script: Script,
    plan: &Plan,
    told: &mut String,
) -> anyhow::Result<()>
    requires receivers { AreReceivers script.receivers }
    requires commands { MayRun script }
    requires count { count_commands script ≤ line_limit }
{
    if plan.workers == 0 {
        return Err(BadCase.into());
    }
    let mut run = Run::open(alloc, script, plan.workers)?;
    run.go_through(alloc, plan.events.as_slice(), told)?;
    Ok(())
}

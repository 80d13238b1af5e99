//! What the users of receivers may read, from entry to entry (RFC 8341 section 3.4.5).
ghost use Rattle.std.specs.Prelude.{◌≡◌, List, map, IfOk};
ghost use Rattle.yp_schema.specs.declared.schema.SchemaNode.{SchemaNode};
ghost use Rattle.yp_nacm.specs.declared.compile.UserRules.{UserRules};
ghost use Rattle.yp_journal.specs.History.{JournalState, next_state};
ghost use Rattle.yp_slot.specs.Slots.{AreRulesAt};
ghost use Rattle.yp_worker.specs.Workers.{rules_left};

use std::alloc::Global;
use yp_base::memory::NoMemory;
use yp_journal::command::Command;
use yp_journal::state::State;
use yp_slot::readers::Readers;

/// The own rules of each receiver's user at a state.
pub(crate) fn readers_at(alloc: Global, state: &State) -> Result<Readers, NoMemory>
    requires { state.now.registry.users ≡ map (λ receiver. receiver.user) state.now.receivers }
    ensures { IfOk result (λ readers. AreRulesAt state.now readers) }
{
    let readers = Readers::of(alloc, state.policy(), state.registry().users())?;
    Ok(readers)
}

/// The own rules of each receiver's user at the state that a command left, where it may have changed them.
pub(crate) fn renewed_readers(
    alloc: Global,
    command: &Command,
    state: &State,
) -> Result<Option<Readers>, NoMemory>
    requires { state.now.registry.users ≡ map (λ receiver. receiver.user) state.now.receivers }
    ensures { IfOk result (λ renewed. (nodes : List SchemaNode) (before : JournalState) (rules : List UserRules)
        → state.now ≡ next_state nodes before command.now → AreRulesAt before rules → AreRulesAt state.now (rules_left rules renewed)) }
{
    match command {
        Command::Rules(_) => Ok(Some(readers_at(alloc, state)?)),
        _ => Ok(None),
    }
}

/// The rules after an entry: new ones where it brought some, and else those before it.
pub(crate) fn readers_left<'a>(readers: &'a Readers, renewed: &'a Option<Readers>) -> &'a Readers
    ensures { result.now ≡ rules_left readers.now renewed.now }
{
    match renewed {
        Some(others) => others,
        None => readers,
    }
}

/// Puts the rules after an entry in the place of those before it.
pub(crate) fn renew(readers: &mut Readers, renewed: Option<Readers>)
    ensures { readers.new ≡ rules_left readers.old renewed }
{
    match renewed {
        Some(others) => *readers = others,
        None => {}
    }
}

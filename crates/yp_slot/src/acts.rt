//! What an entry does to subscriptions.
ghost use Rattle.std.specs.Prelude.{◌≡◌, List, option_copied, true, false};
ghost use Rattle.yp_journal.specs.History.{JournalState};
ghost use Rattle.yp_journal.specs.declared.reply.Reply.TheVariants.{Done};
ghost use Rattle.yp_moment.specs.Entries.{act_of, goes_on_with, starts_with, where_done};
ghost use Rattle.yp_registry.specs.Registry.{live_at};
ghost use Rattle.yp_slot.specs.Steps.{HasLiveTerms, act_said};

use yp_journal::command::Command;
use yp_journal::entry::Entry;
use yp_journal::reply::Reply;
use yp_terms::terms::Terms;

/// What an entry does to subscriptions: nothing, or something to one of them (RFC 8639 sections 2.4 and 2.5,
/// RFC 8641 section 4.4).
#[derive(Clone, Copy)]
pub enum Act<'a> {
    /// It leaves each as it is.
    Quiet,
    /// One starts with these terms.
    Starts(&'a Terms),
    /// One goes on by these terms; where `told` is set, its receivers are told so.
    Amends { terms: &'a Terms, told: bool },
    /// The one of this id is synchronised again.
    Resyncs(u32),
    /// The one of this id ends, which its receivers are told.
    Ends(u32),
    /// The one of this id is dropped, and nothing more is told of it.
    Drops(u32),
}

/// The live subscription of an id.
fn find(live: &[Terms], id: u32) -> Option<&Terms>
    ensures { option_copied result ≡ live_at id live.now }
{
    live.iter().find(|terms| terms.id() == id)
}

/// The subscription of an id starts with the terms that it has.
fn starts(live: &[Terms], id: u32) -> Act
    ensures said { act_said result ≡ starts_with (live_at id live.now) }
    ensures live { HasLiveTerms live.now result }
{
    match find(live, id) {
        Some(terms) => Act::Starts(terms),
        None => Act::Quiet,
    }
}

/// The subscription of an id goes on by the terms that it has.
fn amends(live: &[Terms], id: u32, told: bool) -> Act
    ensures said { act_said result ≡ goes_on_with id told (live_at id live.now) }
    ensures live { HasLiveTerms live.now result }
{
    match find(live, id) {
        Some(terms) => Act::Amends { terms, told },
        None => Act::Quiet,
    }
}

/// What a call that gives no id does, where it is done.
fn done<'a>(command: &Command, live: &'a [Terms]) -> Act<'a>
    ensures said { (after : JournalState) → live.now ≡ after.registry.live → act_of command.now Done after ≡ act_said result }
    ensures live { HasLiveTerms live.now result }
{
    match command {
        Command::Modify { id, .. } => amends(live, *id, false),
        Command::Reconfigure { id, .. } => amends(live, *id, true),
        Command::Configure { id, .. } => starts(live, *id),
        Command::Resync { id, .. } => Act::Resyncs(*id),
        Command::Kill { id, .. } => Act::Ends(*id),
        Command::Unconfigure { id } => Act::Ends(*id),
        Command::Delete { id, .. } => Act::Drops(*id),
        Command::Establish { .. } => Act::Quiet,
        Command::Tick(_) => Act::Quiet,
        Command::Edit(_) => Act::Quiet,
        Command::Rules(_) => Act::Quiet,
        Command::Take { .. } => Act::Quiet,
    }
}

/// What an entry does, where these subscriptions are live after it.
pub fn act_of<'a>(entry: &Entry, live: &'a [Terms]) -> Act<'a>
    ensures said { (after : JournalState) → live.now ≡ after.registry.live → act_of entry.now.command entry.now.reply after ≡ act_said result }
    ensures live { HasLiveTerms live.now result }
{
    match &entry.reply {
        Reply::Done => done(&entry.command, live),
        Reply::Id(id) => match &entry.command {
            Command::Establish { .. } => starts(live, *id),
            _ => Act::Quiet,
        },
        Reply::Registry(_) => Act::Quiet,
        Reply::Edit { .. } => Act::Quiet,
    }
}

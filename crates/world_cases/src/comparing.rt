//! Whether companions do what a world's workers did.
ghost use Rattle.std.specs.Prelude.{◌≡◌, true, IfNone, IfSome, IsSomeAnd};
ghost use Rattle.world_cases.specs.Companions.{AreAlike, IsEntryAt};

use yp_base::txt::Txt;
use yp_core::event::Happened;
use yp_journal::entry::Entry;
use yp_journal::reply::Reply;
use yp_queue::packet::Packet;

/// Whether two packets are one.
fn same_packet(one: &Packet, other: &Packet) -> bool
    ensures { result ≡ true → one.now ≡ other.now }
{
    one.sub == other.sub
        && one.position == other.position
        && one.kind == other.kind
        && one.line == other.line
}

/// Whether two texts are one, or none is there.
fn same_text(one: &Option<Txt>, other: &Option<Txt>) -> bool
    ensures { result ≡ true → one.now ≡ other.now }
{
    match one {
        Some(text) => match other {
            Some(other_text) => text == other_text,
            None => false,
        },
        None => other.is_none(),
    }
}

/// Whether two replies are one.
fn same_reply(one: &Reply, other: &Reply) -> bool
    ensures { result ≡ true → one.now ≡ other.now }
{
    match one {
        Reply::Done => matches!(other, Reply::Done),
        Reply::Id(id) => match other {
            Reply::Id(other_id) => id == other_id,
            _ => false,
        },
        Reply::Registry(refusal) => match other {
            Reply::Registry(other_refusal) => refusal == other_refusal,
            _ => false,
        },
        Reply::Edit { edit_id, tag, path } => match other {
            Reply::Edit {
                edit_id: other_id,
                tag: other_tag,
                path: other_path,
            } => edit_id == other_id && tag == other_tag && same_text(path, other_path),
            _ => false,
        },
    }
}

/// Whether two entries have the same number, the same stamp and the same reply, and came by the same lane.
fn same_entry(one: &Entry, other: &Entry) -> bool
    ensures { result ≡ true → AreAlike one.now other.now }
{
    one.lane == other.lane
        && one.index == other.index
        && one.stamp == other.stamp
        && same_reply(&one.reply, &other.reply)
}

/// Whether two events came to the same.
fn same_happened(one: &Happened, other: &Happened) -> bool
    ensures { result ≡ true → one.now ≡ other.now }
{
    match one {
        Happened::Appended(reply) => match other {
            Happened::Appended(other_reply) => same_reply(reply, other_reply),
            _ => false,
        },
        Happened::Absorbed(position) => match other {
            Happened::Absorbed(other_position) => position == other_position,
            _ => false,
        },
        Happened::Took { receiver, position } => match other {
            Happened::Took {
                receiver: other_receiver,
                position: other_position,
            } => receiver == other_receiver && position == other_position,
            _ => false,
        },
        Happened::Full {
            receiver,
            sub,
            position,
        } => match other {
            Happened::Full {
                receiver: other_receiver,
                sub: other_sub,
                position: other_position,
            } => receiver == other_receiver && sub == other_sub && position == other_position,
            _ => false,
        },
        Happened::Taken(packet) => match other {
            Happened::Taken(other_packet) => same_packet(packet, other_packet),
            _ => false,
        },
        Happened::Nothing => matches!(other, Happened::Nothing),
    }
}

/// What an event came to with the companions, if it isn't what it came to in the world.
pub fn told_apart(happened: &Happened, followed: Happened) -> Option<Happened>
    ensures same { IfNone result (happened.now ≡ followed) }
    ensures told { IfSome result (λ told. told ≡ followed) }
{
    if same_happened(happened, &followed) {
        None
    } else {
        Some(followed)
    }
}

/// Whether an entry is like the one of a journal at a position.
fn is_entry_at(entries: &[Entry], position: u64, made: &Entry) -> bool
    ensures { result ≡ true → IsEntryAt entries.now position made.now }
{
    match position.checked_sub(1) {
        Some(before) => match entries.get(before as usize) {
            Some(entry) => same_entry(made, entry),
            None => false,
        },
        None => false,
    }
}

/// Where a companion didn't make the entry of a journal at a position, what it came to in place of that: nothing,
/// another position, or another reply.
pub fn made_apart(entries: &[Entry], position: u64, made: Option<Entry>) -> Option<Happened>
    ensures { IfNone result (IsSomeAnd made (IsEntryAt entries.now position)) }
{
    let Some(entry) = made else {
        return Some(Happened::Nothing);
    };
    if is_entry_at(entries, position, &entry) {
        return None;
    }
    let Entry { index, reply, .. } = entry;
    if index as u64 == position {
        Some(Happened::Appended(reply))
    } else {
        Some(Happened::Absorbed(index as u64))
    }
}

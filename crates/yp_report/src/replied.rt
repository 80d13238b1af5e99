//! A reply of a run.
ghost use Rattle.std.specs.Prelude.{◌≡◌};
ghost use Rattle.yp_report.specs.Replies.{replied_of};

use yp_journal::entry::Entry;
use yp_journal::reply::Reply;

/// The reply to a command, with the lane by which this came, and its number there.
#[derive(Drop)]
pub struct Replied {
    pub lane: u32,
    pub index: u32,
    pub reply: Reply,
}

/// The reply of an entry, with its lane and its number there.
pub fn replied_by(entry: Entry) -> Replied
    ensures { result ≡ replied_of entry }
{
    let Entry {
        lane,
        index,
        reply,
        ..
    } = entry;
    Replied { lane, index, reply }
}

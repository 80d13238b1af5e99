//! What is asked of the publisher.
use std::alloc::Global;
use yp_base::leaf_type::Names;
use yp_base::memory::{Duplicate, NoMemory};
use yp_base::series::Series;
use yp_nacm::policy::Policy;
use yp_patch::patch::Patch;
use yp_terms::ask::{Amend, Ask};

/// A command of the journal. Receivers have numbers, from 0 on in the order of their declaration.
#[derive(Drop)]
pub enum Command {
    /// Time goes on to this tick, in centiseconds from the start. It never goes back.
    Tick(u64),
    /// A patch of the datastore (RFC 8072 section 2).
    Edit(Patch),
    /// Another policy of access control in place of the old one (RFC 8341 section 3.5).
    Rules(Policy),
    /// A subscription is asked for (RFC 8639 section 2.4.2) by the receiver of this number.
    Establish { by: u32, ask: Ask },
    /// The receiver of this number modifies its own subscription of this id (RFC 8639 section 2.4.3, RFC
    /// 8641 section 4.4.2).
    Modify { by: u32, id: u32, amend: Amend },
    /// The receiver of this number deletes its own subscription of this id (RFC 8639 section 2.4.4).
    Delete { by: u32, id: u32 },
    /// The user of the receiver of this number ends a subscription of any receiver (RFC 8639 section 2.4.5).
    Kill { by: u32, id: u32 },
    /// The receiver of this number asks for a full update of its own subscription of this id (RFC 8641
    /// section 4.4.4).
    Resync { by: u32, id: u32 },
    /// A subscription is configured with this id for the receivers of these names (RFC 8639 section 2.5.2).
    Configure { id: u32, receivers: Names, ask: Ask },
    /// The configured subscription of this id is modified (RFC 8639 section 2.5.3).
    Reconfigure { id: u32, amend: Amend },
    /// The configured subscription of this id is taken away (RFC 8639 section 2.5.4).
    Unconfigure { id: u32 },
    /// The receiver of this number takes up to so many packets from its queue.
    Take { receiver: u32, count: u32 },
}

/// Commands, in order.
pub type Commands = Series<Command>;

impl Duplicate for Command {
    fn copy(&self, alloc: Global) -> Result<Command, NoMemory> {
        Ok(match self {
            Command::Tick(tick) => Command::Tick(*tick),
            Command::Edit(patch) => Command::Edit(patch.copy(alloc)?),
            Command::Rules(policy) => Command::Rules(policy.copy(alloc)?),
            Command::Establish { by, ask } => Command::Establish {
                by: *by,
                ask: ask.copy(alloc)?,
            },
            Command::Modify { by, id, amend } => Command::Modify {
                by: *by,
                id: *id,
                amend: amend.copy(alloc)?,
            },
            Command::Delete { by, id } => Command::Delete { by: *by, id: *id },
            Command::Kill { by, id } => Command::Kill { by: *by, id: *id },
            Command::Resync { by, id } => Command::Resync { by: *by, id: *id },
            Command::Configure { id, receivers, ask } => Command::Configure {
                id: *id,
                receivers: receivers.copy(alloc)?,
                ask: ask.copy(alloc)?,
            },
            Command::Reconfigure { id, amend } => Command::Reconfigure {
                id: *id,
                amend: amend.copy(alloc)?,
            },
            Command::Unconfigure { id } => Command::Unconfigure { id: *id },
            Command::Take { receiver, count } => Command::Take {
                receiver: *receiver,
                count: *count,
            },
        })
    }
}

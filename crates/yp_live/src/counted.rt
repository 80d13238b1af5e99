//! What is counted of a receiver's report.
ghost use Rattle.std.specs.Prelude.{◌≡◌};
ghost use Rattle.yp_live.specs.Summary.{counts_full_queues, is_counted};

use yp_queue::packet::PacketKind;

/// What is counted of a receiver's report.
#[derive(Clone, Copy, Drop)]
pub enum Counted {
    /// Notifications with all that is selected (`push-update`).
    FullUpdates,
    /// Notifications with what changed (`push-change-update`).
    ChangeUpdates,
    /// Notifications of a change of state.
    Notices,
    /// Offers that met a full queue.
    FullQueues,
}

impl Counted {
    /// Whether notifications of a kind are counted.
    pub fn has_kind(self, kind: PacketKind) -> bool
        ensures { result ≡ is_counted self kind }
    {
        match (self, kind) {
            (Counted::FullUpdates, PacketKind::Full) => true,
            (Counted::ChangeUpdates, PacketKind::Changes) => true,
            (Counted::ChangeUpdates, PacketKind::Incomplete) => true,
            (Counted::Notices, PacketKind::Notice) => true,
            _ => false,
        }
    }

    /// Whether offers that met a full queue are counted.
    pub fn has_full_queues(self) -> bool
        ensures { result ≡ counts_full_queues self }
    {
        match self {
            Counted::FullQueues => true,
            _ => false,
        }
    }
}

//! What a feed offers, and what it is told.

use yp_base::notice::Trigger;

/// One thing that a feed sends its receiver.
#[derive(Debug, Clone, Copy, PartialEq, Eq, Drop)]
pub enum Item {
    /// That a configured subscription begins (`subscription-started`, RFC 8639 section 2.7.1).
    Started,
    /// That a configured subscription has other terms (`subscription-modified`, section 2.7.2).
    Modified,
    /// The changes that were set aside while the queue was full, marked as not all (`incomplete-update`, RFC
    /// 8641 section 3.11.1).
    Incomplete,
    /// That nothing more is sent for now (`subscription-suspended`, RFC 8639 section 2.7.4).
    Suspended,
    /// That it goes on (`subscription-resumed`, section 2.7.5).
    Resumed,
    /// All that is selected, so that the receiver's copy is right again (RFC 8641 section 3.1).
    Sync,
    /// That the subscription has ended (`subscription-terminated`, RFC 8639 section 2.7.3).
    Terminated,
    /// What changed since the base (`push-change-update`, RFC 8641 section 3.7).
    Changes,
    /// All that is selected, at a due tick (`push-update`).
    Periodic,
}

/// What happens to a feed besides the passing of time.
#[derive(Debug, Clone, Copy, PartialEq, Eq, Drop)]
pub enum Control {
    /// It gets other terms; where `notify` is set its receiver is told of it.
    Modify { trigger: Trigger, notify: bool },
    /// It is to send all that it selects (RFC 8641 section 4.4.3).
    Resync,
    /// What its receiver's user may read is decided by other rules.
    Rules,
    /// It ends.
    End,
}

/// What a feed is of: the subscription, the number of its receiver, whether the subscription is configured,
/// and when it sends. The anchor of a periodic trigger is filled in.
#[derive(Debug, Clone, Copy, PartialEq, Eq, Drop)]
pub struct FeedTerms {
    pub sub: u32,
    pub receiver: u32,
    pub configured: bool,
    pub trigger: Trigger,
}

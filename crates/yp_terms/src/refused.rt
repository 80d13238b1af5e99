//! Why a call is refused.
use std::alloc::{AllocError, AllocFailed};
use yp_base::memory::NoMemory;

/// Why a call is refused, or that memory ran out. Each message first says the name that the reason has: an
/// error tag of RFC 6241 appendix A, or an identity of RFC 8639 section 4 or RFC 8641 section 5.
#[derive(Debug, Drop, Clone, Copy, PartialEq, Eq, thiserror::Error)]
pub enum Refused {
    /// The receiver's user may not call the operation.
    #[error("access-denied: the user may not call the operation")]
    AccessDenied,
    /// The encoding isn't JSON.
    #[error("encoding-unsupported: the encoding is not encode-json")]
    EncodingUnsupported,
    /// The datastore isn't the operational one.
    #[error("datastore-not-subscribable: the datastore is not ietf-datastores:operational")]
    DatastoreNotSubscribable,
    /// The filter is an XPath filter, or a subtree filter with a fault.
    #[error("filter-unsupported: the filter is no subtree filter that can be read")]
    FilterUnsupported,
    /// The period is too short. The hint is the shortest one, in ticks of a hundredth of a second.
    #[error("period-unsupported: the period is shorter than {hint} hundredths of a second")]
    PeriodUnsupported { hint: u32 },
    /// No live subscription has the id, or it is one that the call may not be about. `resync` tells whether
    /// the call was to synchronise again, whose reason has a name of its own.
    #[error("no-such-subscription{}: the call may not be about a live subscription of this id", ending(*.resync))]
    NoSuchSubscription { resync: bool },
    /// The subscription is periodic, or has no full update at first.
    #[error("on-change-sync-unsupported: the subscription is not on change with sync-on-start")]
    OnChangeSyncUnsupported,
    /// The trigger that is given is of the other kind than the subscription's.
    #[error("invalid-value: the trigger is of another kind than the subscription")]
    InvalidTrigger,
    /// The id isn't one of configured subscriptions, or was configured before.
    #[error("invalid-value: the id is not from 1 to 2147483647, or was configured before")]
    InvalidId,
    /// A name isn't that of a receiver.
    #[error("invalid-value: a name is not that of a receiver")]
    InvalidReceiver,
    /// There would be more feeds than may be, or no id is left.
    #[error("insufficient-resources: there are too many subscriptions")]
    InsufficientResources,
    /// Memory ran out.
    #[error("out of memory")]
    Memory,
}

/// How the name ends of the reason that there is no such subscription.
fn ending(resync: bool) -> &'static str {
    if resync { "-resync" } else { "" }
}

impl From<NoMemory> for Refused {
    ghost use Rattle.std.specs.Prelude.{◌≡◌};
    ghost use Rattle.yp_terms.specs.declared.refused.Refused.TheVariants.{Memory};

    ghost from_gives = { λ _ e. e ≡ Memory };

    fn from(_error: NoMemory) -> Refused {
        Refused::Memory
    }
}

impl From<AllocError> for Refused {
    ghost use Rattle.std.specs.Prelude.{◌≡◌};
    ghost use Rattle.yp_terms.specs.declared.refused.Refused.TheVariants.{Memory};

    ghost from_gives = { λ _ e. e ≡ Memory };

    fn from(_error: AllocError) -> Refused {
        Refused::Memory
    }
}

impl<T: Drop> From<AllocFailed<T>> for Refused {
    ghost use Rattle.std.specs.Prelude.{◌≡◌};
    ghost use Rattle.yp_terms.specs.declared.refused.Refused.TheVariants.{Memory};

    ghost from_gives = { λ _ e. e ≡ Memory };

    fn from(_error: AllocFailed<T>) -> Refused {
        Refused::Memory
    }
}

//! What a feed owes.
ghost use Rattle.std.specs.Prelude.{◌≡◌};
ghost use Rattle.yp_feed.specs.Machine.{first_owed, owes, owes_nothing};

use crate::item::Item;

/// Which items a feed owes its receiver.
#[derive(Debug, Clone, Copy, PartialEq, Eq, Drop)]
pub struct Owed {
    pub started: bool,
    pub modified: bool,
    pub incomplete: bool,
    pub suspended: bool,
    pub resumed: bool,
    pub sync: bool,
    pub terminated: bool,
}

impl Owed {
    /// Nothing.
    pub fn nothing() -> Owed
        ensures { result ≡ owes_nothing }
    {
        Owed {
            started: false,
            modified: false,
            incomplete: false,
            suspended: false,
            resumed: false,
            sync: false,
            terminated: false,
        }
    }

    /// The first item that is owed, or another one where none is.
    pub fn first(&self, other: Option<Item>) -> Option<Item>
        ensures { result ≡ first_owed self.now other }
    {
        if self.started {
            Some(Item::Started)
        } else if self.modified {
            Some(Item::Modified)
        } else if self.incomplete {
            Some(Item::Incomplete)
        } else if self.suspended {
            Some(Item::Suspended)
        } else if self.resumed {
            Some(Item::Resumed)
        } else if self.sync {
            Some(Item::Sync)
        } else if self.terminated {
            Some(Item::Terminated)
        } else {
            other
        }
    }

    /// Whether an item is owed.
    pub fn any(&self) -> bool
        ensures { result ≡ owes self.now }
    {
        self.started
            || self.modified
            || self.incomplete
            || self.suspended
            || self.resumed
            || self.sync
            || self.terminated
    }
}

//! Receivers, as a script declares them.
use std::alloc::Global;
use yp_base::memory::{Duplicate, NoMemory};
use yp_base::series::Series;
use yp_base::txt::Txt;

/// A receiver.
#[derive(Drop)]
pub struct ReceiverInfo {
    /// Its name, of 1 to 32 letters, digits, `_`, `-` and `.`, which no other receiver has.
    pub name: Txt,
    /// Its user, of 1 to 64 bytes.
    pub user: Txt,
    /// How many packets its queue holds, 1 to 32.
    pub places: u32,
    /// Whether it takes its packets by itself, and not by command.
    pub auto: bool,
}

/// Receivers, in the order of their declaration.
pub type Receivers = Series<ReceiverInfo>;

impl Duplicate for ReceiverInfo {
    fn copy(&self, alloc: Global) -> Result<ReceiverInfo, NoMemory> {
        Ok(ReceiverInfo {
            name: self.name.copy(alloc)?,
            user: self.user.copy(alloc)?,
            places: self.places,
            auto: self.auto,
        })
    }
}

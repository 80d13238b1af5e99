//! What an entry of the journal left.
ghost use Rattle.std.specs.Prelude.{◌≡◌, ◌<◌, length};
ghost use Rattle.yp_journal.specs.History.{rules_at};
ghost use Rattle.yp_slot.specs.Slots.{IsPresent};

use crate::readers::Readers;
use yp_journal::state::State;
use yp_nacm::compile::UserRules;
use yp_schema::schema::Schema;

/// The schema, the state that an entry left, and the own rules of each receiver's user there.
#[derive(Clone, Copy)]
pub struct Present<'a> {
    pub schema: &'a Schema,
    pub state: &'a State,
    pub readers: &'a Readers,
}

impl<'a> Present<'a> {
    /// The own rules of the user of the receiver of this number.
    pub fn rules_of(&self, receiver: usize) -> &UserRules
        requires present { IsPresent self.now.schema.now self.now.state.now self.now.readers.now }
        requires receiver { receiver < length self.now.state.now.receivers }
        ensures { result.now ≡ rules_at self.now.state.now receiver }
    {
        self.readers.rules(receiver)
    }

    /// The number of the first receiver whose user has the same own rules as this one's.
    pub fn first_of(&self, receiver: usize) -> usize
        requires present { IsPresent self.now.schema.now self.now.state.now self.now.readers.now }
        requires receiver { receiver < length self.now.state.now.receivers }
        ensures within { result < length self.now.state.now.receivers }
        ensures same { rules_at self.now.state.now result ≡ rules_at self.now.state.now receiver }
    {
        self.readers.first(receiver)
    }
}

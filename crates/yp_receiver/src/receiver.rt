//! A receiver of lines.
ghost use Rattle.std.specs.Prelude.{◌≡◌, [], OnOk, OnErr, IfOk, IfErr, map, option_copied};
ghost use Rattle.yp_decode.specs.Grammar.{line_heard};
ghost use Rattle.yp_decode.specs.Readings.{Fails};
ghost use Rattle.yp_receiver.specs.Held.{held_of, IsTaken};

use crate::holding::Holding;
use crate::holdings::Holdings;
use std::alloc::Global;
use std::marker::Model;
use yp_base::memory::NoMemory;
use yp_decode::fault::StreamFault;
use yp_decode::line::read_line;
use yp_schema::schema::Schema;

/// The rows that a receiver holds of each subscription that it had an update of: the fold of the lines
/// that it took. Contracts see the list of them, in the order of ids.
#[derive(Drop)]
pub struct Receiver {
    holdings: Holdings,
}

impl Model for Receiver {
    ghost use Rattle.std.specs.Prelude.{ℕ, List};
    ghost use Rattle.yp_base.specs.declared.row.Row.{Row};

    ghost Value = { List (ℕ × List Row) };

    ghost view = { λ r. r.holdings };
}

impl Receiver {
    /// A receiver that had no line. It takes no memory.
    pub fn new(alloc: Global) -> Receiver
        ensures { result ≡ [] }
    {
        Receiver {
            holdings: Holdings::new(alloc),
        }
    }

    /// The ids of the subscriptions that had an update, ascending.
    pub fn ids(&self, alloc: Global) -> Result<Vec<u32>, NoMemory>
        ensures { IfOk result (λ ids. ids.items ≡ map (λ held. held.0) self.now) }
    {
        self.holdings.ids(alloc)
    }

    /// What is held of a subscription, and `None` exactly where it had no update.
    pub fn holding(&self, id: u32) -> Option<&Holding>
        ensures { option_copied result ≡ held_of id self.now }
    {
        self.holdings.find(id)
    }

    /// What is held of all subscriptions, given away.
    pub fn into_holdings(self) -> Holdings
        ensures { result ≡ self }
    {
        let Receiver { holdings } = self;
        holdings
    }

    /// Takes a line, without its line end, and hears what it tells (RFC 8641 section 3.7). A full update
    /// sets the rows of its subscription; each edit of a change update, in order, takes away the rows at
    /// or below its target and puts its own, and one that is the first update of its subscription begins
    /// with no rows; no other notice changes anything. A change update costs the rows that it takes away and
    /// puts, each in a number of steps that grows with the logarithm of the rows that are held; the first
    /// one after a full update costs the rows of this too.
    ///
    /// Its faults are those of `read_line`. After any of them, `Memory` too, the receiver is as it was.
    pub fn take_line(
        &mut self,
        alloc: Global,
        schema: &Schema,
        bytes: &[u8],
    ) -> Result<(), StreamFault>
        ensures taken { OnOk result (IsTaken schema.now bytes.now self.old self.new) }
        ensures fault { IfErr result (λ fault. Fails fault (line_heard schema.now bytes.now)) }
        ensures unchanged { OnErr result (self.new ≡ self.old) }
    {
        let heard = read_line(alloc, schema, bytes)?;
        self.holdings.hear(alloc, heard.notice)?;
        Ok(())
    }
}

//! A receiver that takes each packet at once.
ghost use Rattle.std.specs.Prelude.{◌≡◌, ◌++◌, ◌∷◌, [], OnOk};
ghost use Rattle.yp_receiver.specs.Held.{lines_heard};
ghost use Rattle.yp_offer_log.specs.declared.logged.Logged.TheVariants as logs;

use std::alloc::Global;
use yp_base::memory::NoMemory;
use yp_offer_log::logged::Logged;
use yp_queue::packet::Packet;
use yp_receiver::receiver::Receiver;
use yp_schema::schema::Schema;

/// A receiver that takes each packet at once: its number, what is kept of the offers to it, and what it holds by the lines of
/// the packets that it took.
#[derive(Drop)]
pub struct Listener {
    pub receiver: u32,
    pub log: Vec<Logged>,
    pub heard: Receiver,
}

impl Listener {
    /// Takes a packet: keeps its line, and hears it.
    pub fn take(&mut self, alloc: Global, schema: &Schema, packet: Packet) -> Result<(), NoMemory>
        ensures receiver { self.new.receiver ≡ self.old.receiver }
        ensures log { OnOk result (self.new.log.items ≡ self.old.log.items ++ logs.Line packet.kind packet.line ∷ []) }
        ensures heard { OnOk result (self.new.heard ≡ lines_heard schema.now self.old.heard (packet.line ∷ [])) }
    {
        let Packet { kind, line, .. } = packet;
        // What a worker sends is a line that can be heard, so that nothing but memory can be lacking.
        let bytes = line.as_str().as_bytes();
        let told = self.heard.take_line(alloc, schema, bytes);
        match told {
            Ok(()) => {
                self.log.push(Logged::Line { kind, line })?;
                Ok(())
            }
            Err(_) => Err(NoMemory),
        }
    }
}

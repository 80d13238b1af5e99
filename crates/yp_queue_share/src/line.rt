//! The rule of the queue between two threads: first in, first out.
ghost use Rattle.std.specs.Prelude.{◌≡◌};

use crossbeam_queue::protocol::{Join, Lesson, Outcome, Protocol, Split};
use crossbeam_queue::{Pass, RuledArrayQueue};
use std::collections::LinkedList;
use yp_queue::packet::Packet;

/// What one side of a queue may do, and what it has sent or taken. No value of it is made.
pub struct Side {
    pub sends: bool,
    pub takes: bool,
    pub sent: LinkedList<Packet>,
    pub taken: LinkedList<Packet>,
}

/// The rule: what was taken and what the queue holds are what was sent, in order.
pub struct InOrder;

impl Protocol<Packet, Side> for InOrder {
    ghost use Rattle.std.specs.Prelude.{true, []};
    ghost use Rattle.yp_queue_share.specs.Sides.{side, AreInOrder};

    ghost holds = { AreInOrder };

    ghost first = { side true true [] [] };
}

/// The one that sends and the one that takes.
pub struct Roles;

impl Split<Side> for Roles {
    ghost use Rattle.std.specs.Prelude.{true, false, []};
    ghost use Rattle.yp_queue_share.specs.Sides.{side};

    ghost left = { λ v. side true false v.sent [] };

    ghost right = { λ v. side false true [] v.taken };
}

impl Join<Side> for Roles {
    ghost use Rattle.std.specs.Prelude.{true, false, []};
    ghost use Rattle.yp_queue_share.specs.Sides.{side};

    ghost both = { λ v w. side true true v.sent w.taken };

    ghost spent = { side false false [] [] };
}

/// A packet is sent. Where the queue is full, it holds the last of what was sent.
pub struct Sent;

impl Outcome<Packet, Side> for Sent {
    ghost use Rattle.yp_queue_share.specs.Sides.{sends_one};

    ghost then = { λ v packet w. w ≡ sends_one v packet };
}

impl Lesson<Packet, Side> for Sent {
    ghost use Rattle.yp_queue_share.specs.Sides.{HoldsLast};

    ghost fact = { λ v items. HoldsLast v.sent items };
}

/// A packet is taken.
pub struct Taken;

impl Outcome<Packet, Side> for Taken {
    ghost use Rattle.yp_queue_share.specs.Sides.{takes_one};

    ghost then = { λ v packet w. w ≡ takes_one v packet };
}

impl Lesson<Packet, Side> for Taken {
    ghost use Rattle.std.specs.Prelude.{⊤};

    ghost fact = { λ v items. ⊤ };
}

/// A packet is taken by the side that knows all that was sent: the queue holds what of it was not taken.
pub struct Left;

impl Outcome<Packet, Side> for Left {
    ghost use Rattle.yp_queue_share.specs.Sides.{takes_one};

    ghost then = { λ v packet w. w ≡ takes_one v packet };
}

impl Lesson<Packet, Side> for Left {
    ghost use Rattle.std.specs.Prelude.{◌++◌};

    ghost fact = { λ v items. v.sent ≡ v.taken ++ items };
}

pub type Line = RuledArrayQueue<Packet, Side, InOrder>;

pub type SidePass = Pass<Packet, Side>;

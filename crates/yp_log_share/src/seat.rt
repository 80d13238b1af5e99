//! The seats of lanes: each has the calls that were accepted by it, with their receipts.
ghost use Rattle.std.specs.Prelude.{◌≡◌, ◌<◌, ◌^◌, length, IfOk};
ghost use Rattle.yp_log_share.specs.Seats.{AreOfLanesFrom, count_calls};

use std::alloc::Global;
use std::marker::Model;
use std::sync::ledger::Share;
use yp_base::memory::NoMemory;
use yp_journal::command::Command;
use yp_journal::reply::Reply;
use yp_published::history::{Front, Naming};

/// A call of a lane that was accepted.
#[derive(Drop)]
pub struct Call {
    /// The number of the call in its lane, from 1 on.
    pub index: u32,
    /// The position of its entry in the journal.
    pub position: u64,
    pub command: Command,
    pub reply: Reply,
}

/// What is told of a command that was accepted: the position of its entry in the journal, and the reply.
#[derive(Drop)]
pub struct Receipt {
    pub position: u64,
    pub reply: Reply,
}

/// The seat of a lane: by it alone commands come as the lane's. Contracts see the lane, and the calls that were
/// accepted, in order.
#[derive(Drop)]
pub struct LaneSeat<J: Naming> {
    pub(crate) lane: u32,
    pub(crate) calls: Vec<Call>,
    /// What was seen when the last call was accepted.
    pub(crate) front: Front<J>,
    pub(crate) share: Share<J>,
}

impl<J: Naming> Model for LaneSeat<J> {
    ghost use Rattle.std.specs.Coded.{codes};
    ghost use Rattle.std.specs.Prelude.{◌≡◌, ◌+◌, ◌<◌, ◌≤◌, length};
    ghost use Rattle.yp_log_share.specs.contracts.seat.Call as call;
    ghost use Rattle.yp_log_share.specs.Seats.{Seat, StandIn, calls_by};

    ghost Value = { Seat };

    ghost coded = { Prim.hlevel (codes, call.the_row.coded) };

    ghost view = { λ s. record { lane = s.lane; calls = s.calls.items } };

    ghost invariant = { λ s. (0 < s.lane) × (s.lane ≤ J.parts) × StandIn s.calls.items (calls_by s.lane (J.opening.position + 1) s.front.entries) × (s.share.parts ≡ 1) × (s.share.amount ≡ length s.calls.items) };
}

impl<J: Naming> LaneSeat<J> {
    /// Its lane, from 1 on.
    pub fn lane(&self) -> u32
        ensures { result ≡ self.now.lane }
    {
        self.lane
    }

    /// The calls that were accepted, in order.
    pub fn calls(&self) -> &[Call]
        ensures { result.now ≡ self.now.calls }
    {
        self.calls.as_slice()
    }
}

/// A seat for each lane, from 1 on, with no calls.
pub(crate) fn seats<J: Naming>(
    alloc: Global,
    front: &Front<J>,
    share: &mut Share<J>,
    lanes: u32,
) -> Result<Vec<LaneSeat<J>>, NoMemory>
    requires parts { (share.old.parts ≡ lanes) × (share.old.amount ≡ 0) × (lanes ≡ J.parts) × (lanes < 2 ^ 32) }
    ensures seats { IfOk result (λ seats. (length seats.items ≡ lanes) × AreOfLanesFrom 1 seats.items × (count_calls seats.items ≡ 0)) }
    ensures rest { IfOk result (λ _. (share.new.parts ≡ 0) × (share.new.amount ≡ 0)) }
{
    let mut seats = Vec::with_capacity(alloc, lanes as usize)?;
    for lane in 0..lanes {
        seats.push(LaneSeat {
            lane: lane + 1,
            calls: Vec::new(alloc),
            front: front.again(),
            share: share.split_off(1, 0),
        })?;
    }
    Ok(seats)
}

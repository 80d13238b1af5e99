//! What the seats of lanes come to once the journal has ended.
ghost use Rattle.std.specs.Prelude.{◌≡◌, ◌+◌, ◌≤◌, [], true, length, vec_capacity};
ghost use Rattle.yp_log_share.specs.Seats.{AreOfLanesFrom, AreWhole, StandIn, calls_by, count_calls};

use crate::seat::{Call, LaneSeat};
use std::marker::Model;
use std::sync::ledger::{Book, Share};
use yp_published::history::{Front, Naming};

/// The calls of a lane that were accepted, in order.
#[derive(Drop)]
pub struct LaneCalls {
    pub lane: u32,
    pub calls: Vec<Call>,
}

impl Model for LaneCalls {
    ghost use Rattle.std.specs.Coded.{codes};
    ghost use Rattle.yp_log_share.specs.contracts.seat.Call as call;
    ghost use Rattle.yp_log_share.specs.Seats.{Seat};

    ghost Value = { Seat };

    ghost coded = { Prim.hlevel (codes, call.the_row.coded) };

    ghost view = { λ c. record { lane = c.lane; calls = c.calls.items } };
}

/// Takes seats apart. Their calls are those of the journal that has ended: each once, in order, and no others.
pub(crate) fn settle<J: Naming>(
    calls: &mut Book<J>,
    rest: Share<J>,
    front: &Front<J>,
    seats: Vec<LaneSeat<J>>,
    lanes: &mut Vec<LaneCalls>,
)
    requires ended { front.now.ended ≡ true }
    requires total { calls.old.total ≡ length front.now.entries }
    requires rest { (rest.parts ≡ 0) × (rest.amount ≡ 0) }
    requires every { length seats.items ≡ J.parts }
    requires order { AreOfLanesFrom 1 seats.items }
    requires empty { lanes.old.items ≡ [] }
    requires room { length seats.items ≤ vec_capacity lanes.old }
    ensures calls { lanes.new.items ≡ seats.items }
    ensures whole { AreWhole (J.opening.position + 1) front.now.entries lanes.new.items }
    ensures count { count_calls lanes.new.items ≡ length front.now.entries }
{
    let mut share = rest;
    for seat in seats {
        lanes.push_reserved(taken(seat, front, &mut share));
    }
    calls.audit(&mut share);
}

/// Takes a seat apart. Its calls stand in the journal that has ended, and its part of the ledger comes to the share.
fn taken<J: Naming>(seat: LaneSeat<J>, front: &Front<J>, share: &mut Share<J>) -> LaneCalls
    requires { front.now.ended ≡ true }
    ensures calls { result ≡ seat }
    ensures stand { StandIn seat.calls (calls_by seat.lane (J.opening.position + 1) front.now.entries) }
    ensures parts { share.new.parts ≡ share.old.parts + 1 }
    ensures amount { share.new.amount ≡ share.old.amount + length seat.calls }
{
    let LaneSeat {
        lane,
        calls,
        front: seen,
        share: part,
    } = seat;
    seen.begins(front);
    share.merge(part);
    LaneCalls { lane, calls }
}

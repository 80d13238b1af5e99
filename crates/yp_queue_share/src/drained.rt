//! What a queue between two threads comes to.
ghost use Rattle.std.specs.Prelude.{◌≡◌, ◌≤◌, ◌++◌, [], true, IfOk, IfErr, vec_capacity};
ghost use Rattle.crossbeam_queue.specs.Passes.{view as knows, IsPassOf, IsSamePass, ruled_capacity};
ghost use Rattle.yp_queue_share.specs.Sides.{side, AreDrained};

use crate::line::{Left, Line, Roles, SidePass};
use crate::passes::{SendPass, TakePass};
use std::alloc::Global;
use std::marker::Model;
use std::sync::{Arc, Wait};
use yp_queue::packet::Packet;

/// What the two sides of a queue came to. Contracts see how many places it had, what was sent, how many offers it refused,
/// and what was not taken.
#[derive(Drop)]
pub struct Drained {
    line: Arc<Line, Global>,
    pass: SidePass,
    refused: u64,
    rest: Vec<Packet>,
}

impl Model for Drained {
    ghost use Rattle.std.specs.Coded.{codes};
    ghost use Rattle.crossbeam_queue.specs.Passes.{view as knows, ruled_capacity};
    ghost use Rattle.yp_queue.specs.contracts.packet.Packet as packet;
    ghost use Rattle.yp_queue_share.specs.Sides.{Ending};

    ghost Value = { Ending };

    ghost coded = { Prim.hlevel (codes, packet.the_row.coded) };

    ghost view = { λ d. record { places = ruled_capacity d.line.value; sent = (knows d.pass).sent; refused = d.refused; rest = d.rest.items } };
}

/// The two sides of a queue that wasn't drained, since there was no memory.
#[derive(Drop)]
pub struct Undrained {
    pub send: SendPass,
    pub take: TakePass,
}

impl Drained {
    /// What was not taken, the oldest first.
    pub fn packets(&self) -> &[Packet]
        ensures { result.now ≡ self.now.rest }
    {
        self.rest.as_slice()
    }

    /// How many offers were refused.
    pub fn refused(&self) -> u64
        ensures { result ≡ self.now.refused }
    {
        self.refused
    }
}

/// Takes what is left of a queue, whose two sides these are: what was taken and this are what was sent. After want of
/// memory, which is met first, both sides come back.
pub fn drain<R: Wait>(
    rt: &R,
    alloc: Global,
    send: SendPass,
    take: TakePass,
) -> Result<Drained, Undrained>
    requires one { take.queue ≡ send.queue }
    ensures drained { IfOk result (λ drained. AreDrained send take drained) }
    ensures back { IfErr result (λ back. (back.send ≡ send) × (back.take ≡ take)) }
{
    match Vec::with_capacity(alloc, send.places()) {
        Ok(rest) => Ok(joined(rt, send, take, rest)),
        Err(_) => Err(Undrained { send, take }),
    }
}

/// Joins the two sides of a queue, and takes what is left of it.
fn joined<R: Wait>(rt: &R, send: SendPass, take: TakePass, rest: Vec<Packet>) -> Drained
    requires one { take.queue ≡ send.queue }
    requires room { (rest.items ≡ []) × (send.places ≤ vec_capacity rest) }
    ensures { AreDrained send take result }
{
    let SendPass {
        line,
        mut pass,
        refused,
    } = send;
    let TakePass {
        line: _,
        pass: taker,
    } = take;
    line.absorb::<Roles>(&mut pass, taker);
    let mut rest = rest;
    empty(rt, &line, &mut pass, &mut rest);
    Drained {
        line,
        pass,
        refused,
        rest,
    }
}

/// Takes what is left of a queue.
fn empty<R: Wait>(rt: &R, line: &Line, pass: &mut SidePass, rest: &mut Vec<Packet>)
    requires queue { IsPassOf line.now pass.old }
    requires both { knows pass.old ≡ side true true (knows pass.old).sent (knows pass.old).taken }
    requires room { (rest.old.items ≡ []) × (ruled_capacity line.now ≤ vec_capacity rest.old) }
    ensures sent { (knows pass.new).sent ≡ (knows pass.old).sent }
    ensures whole { (knows pass.old).sent ≡ (knows pass.old).taken ++ rest.new.items }
{
    let left = line.len_as::<Left, R>(rt, pass);
    for _ in 0..left {
        match line.pop_as::<Left, R>(rt, pass) {
            Some(packet) => rest.push_reserved(packet),
            None => return,
        }
    }
    line.learn_as::<Left>(pass);
}

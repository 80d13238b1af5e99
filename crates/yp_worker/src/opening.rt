//! The worker before the first entry.
ghost use Rattle.std.specs.Prelude.{◌≡◌, ◌<◌, ◌^◌, [], length, false, IfOk};
ghost use Rattle.yp_worker.specs.Workers.{IsIdleWorkerOf, IsWorkerOf};
ghost use Rattle.yp_attempt.specs.Workers.{numbers_of};

use crate::rules::readers_at;
use crate::worker::Worker;
use std::alloc::Global;
use yp_attempt::laws::{
    an_opened_worker_stands_for_nothing, what_is_reached_is_what_replaying_gives,
};
use yp_base::memory::NoMemory;
use yp_journal::laws::{a_journal_keeps_a_datastore, a_journal_keeps_users_and_names};
use yp_journal::receiver::ReceiverInfo;
use yp_journal::state::State;
use yp_registry::laws::{an_establishment_keeps_a_registry, ids_rise};
use yp_roster::roster::Roster;
use yp_schema::schema::Schema;
use yp_time::start::Start;

/// Of so many receivers the numbers of those that a worker serves.
fn numbers_of(alloc: Global, worker: u32, workers: u32, count: u32) -> Result<Vec<u32>, NoMemory>
    requires { worker < workers }
    ensures { IfOk result (λ numbers. numbers.items ≡ numbers_of worker workers count) }
{
    let mut numbers = Vec::new(alloc);
    for number in 0..count {
        if number % workers == worker {
            numbers.push(number)?;
        }
    }
    Ok(numbers)
}

impl Worker {
    /// The worker before the first entry, for those of these receivers whose number leaves this remainder by
    /// the number of workers. It has nothing to offer. Numbers of receivers are of 32 bits, so there are fewer
    /// of them than such numbers.
    pub fn open(
        alloc: Global,
        schema: &Schema,
        start: &Start,
        receivers: &[ReceiverInfo],
        worker: u32,
        workers: u32,
    ) -> Result<Worker, NoMemory>
        requires worker { worker < workers }
        requires few { length receivers.now < 2 ^ 32 }
        ensures idle { IfOk result (IsIdleWorkerOf schema.now start.now receivers.now (numbers_of worker workers (length receivers.now)) [] []) }
        ensures stands { IfOk result (IsWorkerOf schema.now start.now receivers.now (numbers_of worker workers (length receivers.now)) [] []) }
        ensures spent { IfOk result (λ opened. opened.spent ≡ false) }
    {
        schema.stands();
        an_opened_worker_stands_for_nothing();
        what_is_reached_is_what_replaying_gives();
        a_journal_keeps_a_datastore();
        a_journal_keeps_users_and_names();
        an_establishment_keeps_a_registry();
        ids_rise();
        let state = State::new(alloc, schema, receivers)?;
        let readers = readers_at(alloc, &state)?;
        let mine = numbers_of(alloc, worker, workers, receivers.len() as u32)?;
        Ok(Worker {
            start: *start,
            state,
            readers,
            former: None,
            mine,
            roster: Roster::open(alloc),
            contents: Vec::new(alloc),
            out: None,
            spent: false,
        })
    }
}

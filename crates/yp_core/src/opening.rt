//! The workers and the deliveries of a world before the first event.
ghost use Rattle.std.specs.Prelude.{◌≡◌, ◌<◌, ◌≤◌, ◌^◌, ℕ, [], None, Some, length, map, IfOk};
ghost use Rattle.std.specs.List.{AllByRecursion, slice_get};
ghost use Rattle.yp_core.specs.declared.seat.Seat.{Seat as SeatThere};
ghost use Rattle.yp_core.specs.Deliveries.{nothing_delivered};
ghost use Rattle.yp_core.specs.Worlds.{IsOpened};

use crate::delivery::Delivery;
use crate::seat::Seat;
use std::alloc::Global;
use yp_base::memory::NoMemory;
use yp_journal::receiver::ReceiverInfo;
use yp_schema::schema::Schema;
use yp_time::start::Start;

/// So many workers, before the first entry.
pub(crate) fn open_seats(
    alloc: Global,
    schema: &Schema,
    start: &Start,
    receivers: &[ReceiverInfo],
    workers: u32,
) -> Result<Vec<Seat>, NoMemory>
    requires few { length receivers.now < 2 ^ 32 }
    ensures count { IfOk result (λ seats. length seats.items ≡ workers) }
    ensures opened { IfOk result (λ seats. (number : ℕ) (seat : SeatThere) → slice_get seats.items number ≡ Some seat → IsOpened schema.now start.now receivers.now workers number seat) }
{
    let mut seats = Vec::new(alloc);
    for worker in 0..workers {
        seats.push(Seat::open(alloc, schema, start, receivers, worker, workers)?)?;
    }
    Ok(seats)
}

/// For each receiver that nothing was delivered yet.
pub(crate) fn open_deliveries(
    alloc: Global,
    receivers: &[ReceiverInfo],
) -> Result<Vec<Delivery>, NoMemory>
    requires { AllByRecursion (λ receiver. 1 ≤ receiver.places) receivers.now }
    ensures { IfOk result (λ deliveries. deliveries.items ≡ map (λ receiver. nothing_delivered receiver.places) receivers.now) }
{
    let mut deliveries = Vec::new(alloc);
    for receiver in receivers {
        deliveries.push(Delivery::open(alloc, receiver.places)?)?;
    }
    Ok(deliveries)
}

//! The end of a shared journal: its seats are given back, and no entry follows.
use crate::seat::LaneSeat;
use std::marker::Model;
use yp_published::history::{Front, Naming};

/// All seats of a journal that has ended. Contracts see the seats, and the entries of the whole journal.
#[derive(Drop)]
pub struct Finished<J: Naming> {
    pub(crate) seats: Vec<LaneSeat<J>>,
    pub(crate) whole: Front<J>,
}

impl<J: Naming> Model for Finished<J> {
    ghost use Rattle.std.specs.Coded.{codes};
    ghost use Rattle.std.specs.Prelude.{◌≡◌, true, length};
    ghost use Rattle.yp_journal.specs.contracts.entry.Entry as entry;
    ghost use Rattle.yp_log_share.specs.contracts.seat.Call as call;
    ghost use Rattle.yp_log_share.specs.Seats.{AllSeats, AreOfLanesFrom};

    ghost Value = { AllSeats };

    ghost coded = { Prim.hlevel (codes, entry.the_row.coded, call.the_row.coded) };

    ghost view = { λ f. record { seats = f.seats.items; entries = f.whole.entries } };

    ghost invariant = { λ f. (f.whole.ended ≡ true) × (length f.seats.items ≡ J.parts) × AreOfLanesFrom 1 f.seats.items };
}

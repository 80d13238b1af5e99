//! The start of the ticks.
ghost use Rattle.std.specs.Prelude.{◌≡◌, IsTrue, IfOk, pos, int_div};
ghost use Rattle.std.specs.Option.{ok_or};
ghost use Rattle.jiff.specs.Words.{civil_nanos};
ghost use Rattle.yp_time.specs.Instants.{start_in, is_in_years, IsStart};

use crate::clock::clock_of;
use crate::form::has_form;
use crate::instant::InstantFault;
use jiff::civil::DateTime;
use jiff::tz::Offset;
use std::marker::Model;

// A date and a time of day in UTC.
const START_FORM: &[u8; 20] = b"dddd-dd-ddTdd:dd:ddZ";

/// The instant of tick 0. Contracts see its whole seconds from 1970-01-01T00:00:00Z.
#[derive(Drop, Debug, Clone, Copy, PartialEq, Eq)]
pub struct Start {
    second: u64,
}

impl Model for Start {
    ghost use Rattle.std.specs.Prelude.{ℕ, ◌<◌};

    ghost Value = { ℕ };

    ghost view = { λ s. s.second };

    ghost invariant = { λ s. s.second < 7_258_118_400 };

    ghost inverse = { λ n. record { second = n } };
}

impl Start {
    /// The start that a text gives, `YYYY-MM-DDThh:mm:ssZ` in the years 1970 to 2199. `BadInstant` comes
    /// for every other text.
    #[tactic(auto, unfolding(crate::specs::Instants::start_in))]
    pub fn read(text: &str) -> Result<Start, InstantFault>
        ensures read { result ≡ ok_or (start_in text.now) InstantFault.BadInstant }
        ensures within { IfOk result IsStart }
    {
        let bytes = text.as_bytes();
        if !has_form(START_FORM, bytes) {
            return Err(InstantFault::BadInstant);
        }
        match clock_of(bytes, 0, 2199) {
            Some(clock) => Ok(Start {
                second: second_at(clock),
            }),
            None => Err(InstantFault::BadInstant),
        }
    }

    /// Its whole seconds from 1970-01-01T00:00:00Z.
    pub fn second(&self) -> u64
        ensures value { result ≡ self.now }
        ensures within { IsStart result }
    {
        self.second
    }
}

// The whole seconds from 1970-01-01T00:00:00Z to what a clock in UTC shows.
fn second_at(clock: DateTime) -> u64
    requires { IsTrue (is_in_years 2199 (civil_nanos clock)) }
    ensures value { pos result ≡ int_div (civil_nanos clock) (pos 1_000_000_000) }
    ensures within { IsStart result }
{
    match Offset::UTC.to_timestamp(clock) {
        Ok(instant) => instant.as_second() as u64,
        Err(_) => unreachable!(),
    }
}

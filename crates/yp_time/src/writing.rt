//! Event times, written (RFC 5277 section 4).
ghost use Rattle.std.specs.Prelude.{◌≡◌, ◌+◌, [], ◌∷◌, ◌++◌, ◌<◌, ◌≤◌, ℕ, ◌*◌, ◌/◌, ◌≤ℤ◌, Some, pos, unsigned_abs, IfOk, OnOk};
ghost use Rattle.std.specs.String.{string_bytes};
ghost use Rattle.jiff.specs.Words.{time_nanos};
ghost use Rattle.yp_time.specs.Days.{day_in, day_after_epoch as counted};
ghost use Rattle.yp_time.specs.Forms.{pair_text};
ghost use Rattle.yp_time.specs.Instants.{event_text, date_text, time_text, event_in, event_year, anchor_in, instant_of, IsStart};
ghost use Rattle.yp_time.specs.Ticks.{tick_limit};

use crate::clock::clock_at;
use crate::start::Start;
use jiff::civil::{Date, Time};
use std::alloc::Global;
use yp_base::memory::NoMemory;
use yp_base::txt::Txt;

// How long an event time is.
const LENGTH: usize = 23;

/// The event time of a tick, `YYYY-MM-DDThh:mm:ss.ccZ`.
#[tactic(auto, unfolding(crate::specs::Instants::event_text))]
pub fn event_time(alloc: Global, start: &Start, tick: u64) -> Result<Txt, NoMemory>
    requires { tick ≤ tick_limit }
    ensures { IfOk result (λ text. text ≡ event_text start.now tick) }
{
    let hundredths = start.second() * 100 + tick;
    let clock = clock_at(hundredths);
    let mut text = String::with_capacity(alloc, LENGTH)?;
    push_date(&mut text, clock.date())?;
    text.push('T')?;
    push_time(&mut text, clock.time())?;
    text.push('.')?;
    push_pair(&mut text, (hundredths % 100) as u16)?;
    text.push('Z')?;
    Txt::from_string(alloc, text)
}

// Appends a date.
fn push_date(text: &mut String, date: Date) -> Result<(), NoMemory>
    requires { pos 0 ≤ℤ date.year }
    ensures { OnOk result (string_bytes text.new ≡ string_bytes text.old ++ date_text (record {
      year = unsigned_abs date.year;
      month = date.month;
      day = date.day;
    }
        )) }
{
    let year = date.year() as u16;
    push_pair(text, year / 100)?;
    push_pair(text, year % 100)?;
    text.push('-')?;
    push_pair(text, date.month() as u16)?;
    text.push('-')?;
    push_pair(text, date.day() as u16)
}

// Appends a time of day.
fn push_time(text: &mut String, time: Time) -> Result<(), NoMemory>
    ensures { OnOk result
        (string_bytes text.new ≡ string_bytes text.old ++ time_text (time_nanos time / 1_000_000_000)) }
{
    push_pair(text, time.hour() as u16)?;
    text.push(':')?;
    push_pair(text, time.minute() as u16)?;
    text.push(':')?;
    push_pair(text, time.second() as u16)
}

// Appends a number in two digits.
fn push_pair(text: &mut String, number: u16) -> Result<(), NoMemory>
    requires { number < 100 }
    ensures { OnOk result (string_bytes text.new ≡ string_bytes text.old ++ pair_text number) }
{
    push_digit(text, number / 10)?;
    push_digit(text, number % 10)
}

fn push_digit(text: &mut String, digit: u16) -> Result<(), NoMemory>
    requires { digit < 10 }
    ensures { OnOk result (string_bytes text.new ≡ string_bytes text.old ++ (48 + digit) ∷ []) }
{
    text.push(char::from(b'0' + digit as u8))?;
    Ok(())
}

/// The days that are counted from 1970-01-01 are jiff's: each has the number of its place.
#[tactic(auto, using(crate::proofs::Written::day_numbers))]
pub fn each_day_has_its_number()
    ensures { (n : ℕ) → day_in (counted n).year (counted n).month (counted n).day ≡ Some n }
{}

/// What is written of a tick is an event time, of the instant so many hundredths of a second after the
/// start.
#[tactic(auto, using(crate::proofs::Written::event_again))]
pub fn what_is_written_is_an_event_time()
    ensures { (start tick : ℕ) → IsStart start → tick ≤ tick_limit
        → event_in (event_text start tick) ≡ Some (instant_of (start * 100 + tick)) }
{}

/// What is written of a tick is read as an anchor of that tick, where its year is one that an anchor
/// may have.
#[tactic(auto, using(crate::proofs::Written::anchor_again))]
pub fn what_is_written_is_an_anchor()
    ensures { (start tick : ℕ) → event_year start tick ≤ 2199
        → anchor_in start (event_text start tick) ≡ Some (pos tick) }
{}

//! Texts of instants, read (RFC 3339 section 5.6).
ghost use Rattle.std.specs.Prelude.{◌≡◌, ◌+◌, ◌-◌, ◌*◌, ◌<◌, ◌≤◌, ◌-ℤ◌, length, pos, option_map, IfOk, IfSome, IsTrue};
ghost use Rattle.std.specs.Int.{IsInRange};
ghost use Rattle.std.specs.Option.{ok_or};
ghost use Rattle.jiff.specs.Words.{civil_nanos, nanos_of_seconds, IsBetween, IsOffsetSeconds};
ghost use Rattle.yp_time.specs.Instants.{anchor_in, event_in, IsStart, offset_in, hours_in, digits_worth as worth, nanoseconds_in, fraction_in, zone_of as zone_after, is_in_years as lies_in_years, within_years, instant_in};
ghost use Rattle.yp_time.specs.Ticks.{IsAnchor, ticks_from as ticks_between};

use crate::clock::clock_of;
use crate::form::{after_form, has_form, leading_digits, pair_at};
use crate::start::Start;
use jiff::Timestamp;
use jiff::civil::DateTime;
use jiff::tz::Offset;

// The date and time of day that begin the text of an instant.
const CLOCK_FORM: &[u8; 19] = b"dddd-dd-ddTdd:dd:dd";

/// Why a text is read as no instant.
#[derive(Debug, Drop, Clone, Copy, PartialEq, Eq, thiserror::Error)]
pub enum InstantFault {
    /// The text isn't of the form, or the day doesn't exist, or the year is out of its range.
    #[error("no instant of the form and years that are read")]
    BadInstant,
}

/// The instant of an event time: `YYYY-MM-DDThh:mm:ss`, a fraction of one to nine digits or none, and
/// `Z` or an offset. Its year, as written and in UTC, lies from 1970 to 2999. `None` for every other
/// text.
#[tactic(auto, unfolding(crate::specs::Instants::event_in))]
pub fn event_instant(text: &str) -> Option<Timestamp>
    ensures { option_map (λ instant. instant.nanosecond) result ≡ event_in text.now }
{
    read_instant(text.as_bytes(), 2999)
}

/// The ticks from the start to an anchor, rounded down; negative before the start. An anchor is written
/// as an event time, and its year, as written and in UTC, lies from 1970 to 2199. `BadInstant` comes
/// for every other text.
#[tactic(auto, unfolding(crate::specs::Instants::anchor_in))]
pub fn anchor_ticks(start: &Start, text: &str) -> Result<i64, InstantFault>
    ensures read { result ≡ ok_or (anchor_in start.now text.now) InstantFault.BadInstant }
    ensures within { IfOk result IsAnchor }
{
    match read_instant(text.as_bytes(), 2199) {
        Some(instant) => Ok(ticks_from(start.second(), instant)),
        None => Err(InstantFault::BadInstant),
    }
}

// The ticks from a start to an instant, rounded down.
fn ticks_from(start: u64, instant: Timestamp) -> i64
    requires start_in { IsStart start }
    requires instant_in { IsTrue (lies_in_years 2199 instant.nanosecond) }
    ensures value { result ≡ ticks_between start instant.nanosecond }
    ensures within { IsAnchor result }
{
    let past = instant.as_nanosecond() - i128::from(start) * 1_000_000_000;
    past.div_euclid(10_000_000) as i64
}

// The instant of a text, in the years up to the last.
fn read_instant(text: &[u8], last: u16) -> Option<Timestamp>
    requires { IsInRange 1970 2999 last }
    ensures value { option_map (λ instant. instant.nanosecond) result ≡ instant_in last text.now }
    ensures within { IfSome result (λ instant. IsTrue (lies_in_years last instant.nanosecond)) }
{
    let rest = after_form(CLOCK_FORM, text)?;
    let clock = clock_of(text, fraction(rest)?, last)?;
    instant_within(clock, offset(zone_of(rest))?, last)
}

// The instant at which a clock of this offset shows this, in the years up to the last.
fn instant_within(clock: DateTime, offset: Offset, last: u16) -> Option<Timestamp>
    requires { IsInRange 1970 2999 last }
    ensures value { option_map (λ instant. instant.nanosecond) result
        ≡ within_years last (civil_nanos clock -ℤ nanos_of_seconds offset.seconds) }
    ensures within { IfSome result (λ instant. IsTrue (lies_in_years last instant.nanosecond)) }
{
    let instant = offset.to_timestamp(clock).ok()?;
    if is_in_years(instant, last) {
        Some(instant)
    } else {
        None
    }
}

// Whether an instant lies in the years from 1970 to the last, in UTC.
fn is_in_years(instant: Timestamp, last: u16) -> bool
    requires { IsInRange 1970 2999 last }
    ensures { result ≡ lies_in_years last instant.nanosecond }
{
    let year = Offset::UTC.to_datetime(instant).year();
    1970 <= year && year <= last as i16
}

// The offset of a clock of this zone.
fn offset(zone: &[u8]) -> Option<Offset>
    ensures { option_map (λ offset. offset.seconds) result ≡ offset_in zone.now }
{
    Offset::from_seconds(seconds_ahead(zone)?).ok()
}

// The seconds by which a clock of this zone is ahead of UTC.
fn seconds_ahead(zone: &[u8]) -> Option<i32>
    ensures value { result ≡ offset_in zone.now }
    ensures within { IfSome result IsOffsetSeconds }
{
    if has_form(b"Z", zone) {
        return Some(0);
    }
    if has_form(b"+dd:dd", zone) {
        return hours(zone);
    }
    if has_form(b"-dd:dd", zone) {
        return Some(-hours(zone)?);
    }
    None
}

// The seconds of `hh:mm` after a sign.
fn hours(zone: &[u8]) -> Option<i32>
    requires { length zone.now ≡ 6 }
    ensures value { result ≡ option_map (λ seconds. pos seconds) (hours_in zone.now) }
    ensures within { IfSome result (λ seconds. IsBetween (pos 0) (pos 86_399) seconds) }
{
    let (hour, minute) = (pair_at(zone, 1), pair_at(zone, 4));
    if hour < 24 && minute < 60 {
        Some(i32::from(hour) * 3600 + i32::from(minute) * 60)
    } else {
        None
    }
}

// The fraction of the second after the time of day, in nanoseconds.
fn fraction(rest: &[u8]) -> Option<u32>
    ensures value { result ≡ fraction_in rest.now }
    ensures within { IfSome result (λ fraction. fraction < 1_000_000_000) }
{
    match rest.split_first() {
        None => Some(0),
        Some((byte, digits)) => {
            if *byte == b'.' {
                nanoseconds(digits)
            } else {
                Some(0)
            }
        }
    }
}

// One to nine digits after a point, in nanoseconds.
fn nanoseconds(text: &[u8]) -> Option<u32>
    ensures value { result ≡ nanoseconds_in text.now }
    ensures within { IfSome result (λ fraction. fraction < 1_000_000_000) }
{
    let count = leading_digits(text);
    if count > 0 && count < 10 {
        Some(digits_worth(100_000_000, text))
    } else {
        None
    }
}

// The leading digits, each worth a tenth of the one before it.
fn digits_worth(unit: u32, text: &[u8]) -> u32
    requires { unit ≤ 100_000_000 }
    ensures value { result ≡ worth unit text.now }
    ensures within { result ≤ 10 * unit - 1 }
{
    match text.split_first() {
        None => 0,
        Some((byte, rest)) => {
            if byte.is_ascii_digit() {
                u32::from(*byte - b'0') * unit + digits_worth(unit / 10, rest)
            } else {
                0
            }
        }
    }
}

// The zone after the time of day and its fraction.
fn zone_of(rest: &[u8]) -> &[u8]
    ensures { result.now ≡ zone_after rest.now }
{
    match rest.split_first() {
        None => rest,
        Some((byte, after_point)) => {
            if *byte == b'.' {
                &after_point[leading_digits(after_point)..]
            } else {
                rest
            }
        }
    }
}

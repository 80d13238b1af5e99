//! What a clock shows: a date and a time of day, which are jiff's.
ghost use Rattle.std.specs.Prelude.{◌≡◌, ◌+◌, ◌*◌, ◌/◌, ◌%◌, ◌<◌, ◌≤◌, length, pos, option_map, IsTrue, IfSome};
ghost use Rattle.std.specs.Int.{IsInRange};
ghost use Rattle.jiff.specs.Words.{civil_nanos, epoch_day, time_nanos};
ghost use Rattle.yp_time.specs.Days.{day_in, time_in, day_after_epoch};
ghost use Rattle.yp_time.specs.Instants.{clock_in, is_in_years};
ghost use Rattle.yp_time.specs.Ticks.{tick_limit};

use crate::form::{leading_year, pair_at};
use jiff::Timestamp;
use jiff::civil::{Date, DateTime, Time};
use jiff::tz::Offset;

/// What the date and the time of day that begin a text show, with so many nanoseconds more.
pub(crate) fn clock_of(text: &[u8], nanosecond: u32, last: u16) -> Option<DateTime>
    requires long { 19 ≤ length text.now }
    requires fraction_in { nanosecond < 1_000_000_000 }
    requires year_in { last ≤ 2999 }
    ensures value { option_map civil_nanos result
        ≡ option_map (λ second. pos (second * 1_000_000_000 + nanosecond)) (clock_in last text.now) }
    ensures within { IfSome result (λ clock. IsTrue (is_in_years last (civil_nanos clock))) }
{
    let year = leading_year(text);
    if year < 1970 || year > u32::from(last) {
        return None;
    }
    let date = date_of(year as u16, pair_at(text, 5), pair_at(text, 8))?;
    let time = time_of(
        pair_at(text, 11),
        pair_at(text, 14),
        pair_at(text, 17),
        nanosecond,
    )?;
    Some(DateTime::from_parts(date, time))
}

// The date, if the calendar has it.
fn date_of(year: u16, month: u16, day: u16) -> Option<Date>
    requires { IsInRange 1970 9998 year }
    ensures value { option_map epoch_day result
        ≡ option_map (λ number. pos number) (day_in year month day) }
    ensures in_year { IfSome result (λ date. date.year ≡ pos year) }
{
    if month > 12 || day > 31 {
        return None;
    }
    Date::new(year as i16, month as i8, day as i8).ok()
}

// The time of day, if a clock shows it.
fn time_of(hour: u16, minute: u16, second: u16, nanosecond: u32) -> Option<Time>
    requires { nanosecond < 1_000_000_000 }
    ensures { option_map time_nanos result
        ≡ option_map (λ seconds. seconds * 1_000_000_000 + nanosecond) (time_in hour minute second) }
{
    if hour < 24 && minute < 60 && second < 60 {
        Some(Time::constant(hour as i8, minute as i8, second as i8, nanosecond as i32))
    } else {
        None
    }
}

/// What a clock in UTC shows so many hundredths of a second after 1970-01-01T00:00:00Z.
pub(crate) fn clock_at(hundredths: u64) -> DateTime
    requires { hundredths ≤ 2 * tick_limit }
    ensures year { result.date.year ≡ pos (day_after_epoch (hundredths / 8_640_000)).year }
    ensures month { result.date.month ≡ (day_after_epoch (hundredths / 8_640_000)).month }
    ensures day { result.date.day ≡ (day_after_epoch (hundredths / 8_640_000)).day }
    ensures time { time_nanos result.time ≡ hundredths % 8_640_000 * 10_000_000 }
{
    let instant = Timestamp::constant(
        (hundredths / 100) as i64,
        (hundredths % 100 * 10_000_000) as i32,
    );
    Offset::UTC.to_datetime(instant)
}

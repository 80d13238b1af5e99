//! Numbers in texts: digits, signs and decimals (RFC 7950 sections 9.2 and 9.3).
ghost use Rattle.std.specs.List.{position_or_len, before_first, after_first};
ghost use Rattle.std.specs.Prelude.{◌≡◌, ◌^◌, ◌<◌, ◌≤◌, ◌==◌, MatchOption, option_map, ◌+◌, ◌*◌, ◌-◌, if◌then◌else◌, length, Some, None, option_and_then, unsigned_abs, IfOk, string_bytes};
ghost use Rattle.yp_value.specs.Texts.{is_digit, value_from, magnitude_in, below, cut_sign, signed_in, number_in, units_in, around_point, units_around, decimal_in, filled_up, shortened, decimal_text};
ghost use Rattle.std.specs.Fmt.{decimal};

use std::alloc::{AllocError, Global};

/// A number with one more digit.
fn one_more(value: u64, digit: u8) -> Option<u64>
    ensures { result ≡ (if is_digit digit then below (2 ^ 64) (value * 10 + (digit - 48)) else None) }
{
    if digit < 48 || digit > 57 {
        return None;
    }
    let next = value as u128 * 10 + (digit - 48) as u128;
    if next < 18446744073709551616 {
        Some(next as u64)
    } else {
        None
    }
}

/// The number that digits spell behind another.
#[tactic(auto, using(crate::proofs::Digits::not_read, crate::proofs::Digits::read_on, crate::proofs::Digits::read_out))]
fn extend(value: u64, digits: &[u8]) -> Option<u64>
    ensures { result ≡ option_and_then (below (2 ^ 64)) (value_from value digits.now) }
{
    let mut value = value;
    for digit in digits {
        match one_more(value, *digit) {
            Some(next) => value = next,
            None => return None,
        }
    }
    Some(value)
}

/// The number that one or more digits spell.
fn magnitude(digits: &[u8]) -> Option<u64>
    ensures { result ≡ option_and_then (below (2 ^ 64)) (magnitude_in digits.now) }
{
    if digits.is_empty() {
        return None;
    }
    extend(0, digits)
}

/// Whether a minus stands first, and what follows the sign.
fn split_sign(text: &[u8]) -> (bool, &[u8])
    ensures { (result.0, result.1.now) ≡ cut_sign text.now }
{
    match text.split_first() {
        Some((first, rest)) => {
            if *first == b'-' {
                (true, rest)
            } else if *first == b'+' {
                (false, rest)
            } else {
                (false, text)
            }
        }
        None => (false, text),
    }
}

/// A number with its sign, from -low to high.
fn signed(low: u64, high: u64, negative: bool, magnitude: u64) -> Option<i64>
    requires low_fits { low ≤ 2 ^ 63 }
    requires high_fits { high < 2 ^ 63 }
    ensures { result ≡ signed_in low high negative magnitude }
{
    if negative {
        if magnitude <= low {
            Some((magnitude as i128 * -1) as i64)
        } else {
            None
        }
    } else if magnitude <= high {
        Some(magnitude as i64)
    } else {
        None
    }
}

/// A whole number from -low to high.
#[tactic(auto, using(crate::proofs::Digits::no_magnitude, crate::proofs::Digits::with_magnitude))]
pub(crate) fn read_signed(low: u64, high: u64, text: &str) -> Option<i64>
    requires low_fits { low ≤ 2 ^ 63 }
    requires high_fits { high < 2 ^ 63 }
    ensures { result ≡ number_in low high text.now }
{
    let (negative, digits) = split_sign(text.as_bytes());
    let magnitude = magnitude(digits)?;
    signed(low, high, negative, magnitude)
}

/// A whole number from 0 to high.
#[tactic(auto, using(crate::proofs::Digits::no_magnitude, crate::proofs::Digits::with_magnitude))]
pub(crate) fn read_unsigned(high: u64, text: &str) -> Option<u64>
    ensures { result ≡ option_map (λ n. unsigned_abs n) (number_in 0 high text.now) }
{
    let (negative, digits) = split_sign(text.as_bytes());
    let magnitude = magnitude(digits)?;
    let limit = if negative { 0 } else { high };
    if magnitude <= limit {
        Some(magnitude)
    } else {
        None
    }
}

fn cut_once(text: &str) -> Option<(&str, &str)>
    ensures { MatchOption result (position_or_len (λ b. b == 46) text.now ≡ length text.now)
        (λ x. (x.0.now ≡ before_first (λ b. b == 46) text.now) × (x.1.now ≡ after_first (λ b. b == 46) text.now) × (position_or_len (λ b. b == 46) text.now < length text.now)) }
{
    text.split_once('.')
}

/// What stands before the first point, and behind it where there is one.
#[tactic(auto, using(crate::proofs::Digits::has_point, crate::proofs::Digits::no_point))]
fn split_point(text: &str) -> (&str, Option<&str>)
    ensures { (result.0.now, option_map (λ part. part.now) result.1) ≡ around_point text.now }
{
    match cut_once(text) {
        Some((whole, part)) => (whole, Some(part)),
        None => (text, None),
    }
}

const ZEROS: [u8; 18] = [48; 18];

/// The units of digits around a point.
fn units(places: usize, whole: &[u8], part: &[u8]) -> Option<u64>
    requires shorter { length part.now ≤ places }
    requires fits { places ≤ 18 }
    ensures { result ≡ option_and_then (below (2 ^ 64)) (units_in places whole.now part.now) }
{
    let zeros = &ZEROS[..places - part.len()];
    match magnitude(whole) {
        Some(value) => match extend(value, part) {
            Some(value) => extend(value, zeros),
            None => None,
        },
        None => None,
    }
}

/// The units of digits and what stands behind the point, where there is one.
fn decimal_magnitude(places: usize, whole: &[u8], part: Option<&str>) -> Option<u64>
    requires fits { places ≤ 18 }
    ensures { result ≡ option_and_then (below (2 ^ 64)) (units_around places (whole.now, option_map (λ part. part.now) part.entry)) }
{
    match part {
        None => units(places, whole, &[]),
        Some(part) => {
            if part.is_empty() {
                return None;
            }
            if part.len() > places {
                return None;
            }
            units(places, whole, part.as_bytes())
        }
    }
}

/// The units of a decimal with so many places.
#[tactic(auto, using(crate::proofs::Digits::no_magnitude, crate::proofs::Digits::with_magnitude))]
pub(crate) fn read_decimal(places: usize, text: &str) -> Option<i64>
    requires fits { places ≤ 18 }
    ensures { result ≡ decimal_in places text.now }
{
    let (whole, part) = split_point(text);
    let (negative, digits) = split_sign(whole.as_bytes());
    let magnitude = decimal_magnitude(places, digits, part)?;
    signed(
        9223372036854775808,
        9223372036854775807,
        negative,
        magnitude,
    )
}

/// The digits of a number, with zeros in front where there are fewer than so many.
fn filled_digits(alloc: Global, number: u64, count: usize) -> Result<Vec<u8>, AllocError>
    ensures { IfOk result (λ digits. digits.items ≡ filled_up count (decimal number)) }
{
    let text = number.to_string(alloc)?;
    let digits = text.as_bytes();
    let zeros = count.saturating_sub(digits.len());
    let mut filled = vec![in alloc; b'0'; zeros]?;
    filled.extend_from_slice(digits)?;
    Ok(filled)
}

/// Digits without the zeros at their end; the first digit stays.
fn shorten(digits: &[u8]) -> &[u8]
    ensures { result.now ≡ shortened digits.now }
{
    let mut kept = digits.len();
    while kept > 1 && digits[kept - 1] == b'0' {
        kept -= 1;
    }
    &digits[..kept]
}

/// The bytes of a decimal's canonical text.
fn decimal_bytes(alloc: Global, units: i64, places: u8) -> Result<Vec<u8>, AllocError>
    ensures { IfOk result (λ bytes. bytes.items ≡ decimal_text units places) }
{
    let places = places as usize;
    let digits = filled_digits(alloc, units.unsigned_abs(), places + 1)?;
    let (whole, part) = digits.as_slice().split_at(digits.len() - places);
    let mut bytes = Vec::with_capacity(alloc, digits.len() + 2)?;
    if units < 0 {
        bytes.push(b'-')?;
    }
    bytes.extend_from_slice(whole)?;
    bytes.push(b'.')?;
    bytes.extend_from_slice(shorten(part))?;
    Ok(bytes)
}

/// The canonical text of a decimal with so many places.
pub(crate) fn write_decimal(alloc: Global, units: i64, places: u8) -> Result<String, AllocError>
    ensures { IfOk result (λ text. string_bytes text ≡ decimal_text units places) }
{
    let bytes = decimal_bytes(alloc, units, places)?;
    Ok(String::from_utf8(bytes).unwrap())
}

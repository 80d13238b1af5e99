//! Lines of a text and their JSON.
ghost use Rattle.std.specs.Prelude.{◌≡◌, ◌≢◌, ◌-◌, ℕ, ◌<◌, ◌≤◌, ◌∷◌, length, take, slice_index, IfOk, Some, option_map};
ghost use Rattle.std.specs.Result.{result_ok};
ghost use Rattle.serde_json.specs.View.{view};
ghost use Rattle.yp_command.specs.declared.fault.ScriptKind.TheVariants.{Limit, TooLong};
ghost use Rattle.yp_command.specs.Faults.{said_map};
ghost use Rattle.yp_value.specs.Json.{json_of};
ghost use Rattle.yp_script.specs.Lines.{pieces_of, without_feed, is_blank, json_in, text_in};

use crate::cursor::{BYTE_LIMIT, LINE_LIMIT};
use memchr::memchr;
use serde_json::Value as Json;
use std::alloc::{AllocError, Global};
use yp_base::memory::NoMemory;
use yp_cause::cause::{Cause, Wrong};
use yp_cause::lines::json_cause;
use yp_command::fault::{Flaw, ScriptKind};

/// The most bytes of a line of a script, its line feed aside.
const MOST_LINE_BYTES: usize = 65_536;

/// Where the first line ends.
fn line_end(bytes: &[u8]) -> usize
    ensures none { (k : ℕ) → k < result → slice_index bytes.now k ≢ 10 }
    ensures found { result < length bytes.now → slice_index bytes.now result ≡ 10 }
    ensures within { result ≤ length bytes.now }
{
    match memchr(b'\n', bytes) {
        Some(at) => at,
        None => bytes.len(),
    }
}

/// The first line without its line feed, and what stands behind it.
pub fn first_line(bytes: &[u8]) -> (&[u8], &[u8])
    requires { 0 < length bytes.now }
    ensures pieces { pieces_of bytes.now ≡ take (length bytes.now - length result.1.now) bytes.now ∷ pieces_of result.1.now }
    ensures line { result.0.now ≡ without_feed (take (length bytes.now - length result.1.now) bytes.now) }
    ensures shorter { length result.1.now < length bytes.now }
{
    let end = line_end(bytes);
    let (line, _) = bytes.split_at(end);
    let (_, rest) = bytes.split_at((end + 1).min(bytes.len()));
    (line, rest)
}

/// Whether a line has blanks, tabs and carriage returns alone.
pub fn is_blank_line(line: &[u8]) -> bool
    ensures { result ≡ is_blank line.now }
{
    for byte in line {
        if *byte != b' ' && *byte != b'\t' && *byte != b'\r' {
            return false;
        }
    }
    true
}

/// The JSON of a text, or why it is not JSON.
pub fn read_json(alloc: Global, text: &[u8]) -> Result<Result<Json, Cause>, NoMemory>
    ensures { IfOk result (λ read. option_map view (result_ok read) ≡ json_of text.now) }
{
    match std::str::from_utf8(text) {
        Ok(text) => match Json::from_str(alloc, text) {
            Ok(json) => Ok(Ok(json)),
            Err(error) => {
                if error.is_memory() {
                    Err(NoMemory)
                } else {
                    Ok(Err(json_cause(alloc, &error)))
                }
            }
        },
        Err(error) => Ok(Err(Cause::of(Wrong::NotUtf8 {
            bytes: error.valid_up_to(),
        }))),
    }
}

/// The fault of a line of this number that isn't within the limits of a script.
fn past_limit(number: u32) -> Flaw
    ensures { result ≡ Limit }
{
    if number > LINE_LIMIT {
        Flaw::too_many(LINE_LIMIT as u64, "lines")
    } else {
        Flaw::too_many(BYTE_LIMIT as u64, "bytes")
    }
}

/// The fault of a line that is too long.
fn too_long(text: &[u8]) -> Flaw
    ensures { result ≡ TooLong }
{
    Flaw::of(
        ScriptKind::TooLong,
        Cause::of(Wrong::TooLong { bytes: text.len() }),
    )
}

/// The JSON of a line of this number: `Limit` where it isn't within the limits of a script, then `TooLong` and
/// `NotJson`.
pub fn json_within(
    alloc: Global,
    number: u32,
    within: bool,
    text: &[u8],
) -> Result<Result<Json, Flaw>, NoMemory>
    ensures { IfOk result (λ read. said_map view read ≡ json_in within text.now) }
{
    if !within {
        return Ok(Err(past_limit(number)));
    }
    if text.len() > MOST_LINE_BYTES {
        return Ok(Err(too_long(text)));
    }
    match read_json(alloc, text)? {
        Ok(json) => Ok(Ok(json)),
        Err(cause) => Ok(Err(Flaw::of(ScriptKind::NotJson, cause))),
    }
}

/// The JSON that the text of a line of this number is, with the same limits.
pub fn json_limited(number: u32, within: bool, text: &[u8], json: Json) -> Result<Json, Flaw>
    requires { json_of text.now ≡ Some (view json) }
    ensures { said_map view result ≡ json_in within text.now }
{
    if !within {
        return Err(past_limit(number));
    }
    if text.len() > MOST_LINE_BYTES {
        return Err(too_long(text));
    }
    Ok(json)
}

/// The text of a line: `Limit` where it isn't within the limit of bytes.
pub fn text_within(within: bool, text: &[u8]) -> Result<&[u8], ScriptKind>
    ensures { said_map (λ text. text.now) result ≡ text_in within text.now }
{
    if within {
        Ok(text)
    } else {
        Err(ScriptKind::Limit)
    }
}

/// The fault of a line without a text, which is past the limit of bytes.
pub fn past_bytes(kind: ScriptKind) -> Flaw
    ensures { result ≡ kind }
{
    Flaw::of(
        kind,
        Cause::of(Wrong::TooMany {
            most: BYTE_LIMIT as u64,
            what: "bytes",
        }),
    )
}

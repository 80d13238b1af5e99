//! Keys as they stand in a path.
ghost use Rattle.std.specs.Prelude.{◌≡◌, ◌++◌, IfOk, OnOk, Some, None, true, if◌then◌else◌, string_bytes};
ghost use Rattle.std.specs.Str.{is_utf8};
ghost use Rattle.yp_base.specs.Cuts.{cut};
ghost use Rattle.yp_path.specs.Targets.{keys_read};
ghost use Rattle.yp_path.specs.Escapes.{escaped, key_read, has_whole_escapes, begins_with_digits, is_hexadecimal};

use crate::cut::cut_once;
use percent_encoding::{AsciiSet, NON_ALPHANUMERIC, ascii_set, percent_decode, percent_encode};
use std::alloc::Global;
use yp_base::leaf_type::Names;
use yp_base::memory::NoMemory;
use yp_base::series::Series;
use yp_base::txt::Txt;

/// The bytes that are escaped in a key: all but letters, digits, `-`, `.`, `_` and `~`.
const ESCAPED: AsciiSet = ascii_set!(
    NON_ALPHANUMERIC
        .remove(b'-')
        .remove(b'.')
        .remove(b'_')
        .remove(b'~')
);

/// Writes a key at the end of a text.
#[tactic(auto, using(crate::proofs::Escapes::escaped_is))]
pub fn push_key(text: &mut String, key: &str) -> Result<(), NoMemory>
    ensures written { OnOk result (string_bytes text.new ≡ string_bytes text.old ++ escaped key.now) }
    ensures utf8 { is_utf8 key.now ≡ true }
{
    percent_encode(key.as_bytes(), ESCAPED).append_to(text)?;
    Ok(())
}

fn is_hexadecimal(byte: u8) -> bool
    ensures { result ≡ is_hexadecimal byte }
{
    matches!(byte, b'0'..=b'9' | b'A'..=b'F' | b'a'..=b'f')
}

fn begins_with_digits(bytes: &[u8]) -> bool
    ensures { result ≡ begins_with_digits bytes.now }
{
    match bytes.split_first() {
        Some((high, more)) => match more.split_first() {
            Some((low, _)) => is_hexadecimal(*high) && is_hexadecimal(*low),
            None => false,
        },
        None => false,
    }
}

fn has_whole_escapes(key: &[u8]) -> bool
    ensures { result ≡ has_whole_escapes key.now }
{
    let mut rest = key;
    while let Some((byte, more)) = rest.split_first() {
        if *byte == b'%' && !begins_with_digits(more) {
            return false;
        }
        rest = more;
    }
    true
}

/// The text of these bytes, if they are UTF-8.
fn text_of(alloc: Global, bytes: Vec<u8>) -> Result<Option<Txt>, NoMemory>
    ensures { IfOk result (λ text. text ≡ (if is_utf8 bytes.items then Some bytes.items else None)) }
{
    match String::from_utf8(bytes) {
        Ok(text) => {
            let text = Txt::from_string(alloc, text)?;
            Ok(Some(text))
        }
        Err(_) => Ok(None),
    }
}

/// The text that a key stands for; none where a `%` stands without two hexadecimal digits, or where
/// the bytes aren't UTF-8.
pub fn read_key(alloc: Global, key: &str) -> Result<Option<Txt>, NoMemory>
    ensures { IfOk result (λ text. text ≡ key_read key.now) }
{
    if !has_whole_escapes(key.as_bytes()) {
        return Ok(None);
    }
    let mut bytes = Vec::with_capacity(alloc, key.len())?;
    percent_decode(key.as_bytes()).append_to(&mut bytes)?;
    text_of(alloc, bytes)
}

/// The texts that keys stand for; none where one has none.
#[tactic(auto, using(crate::proofs::Cuts::cut_found, crate::proofs::Cuts::cut_none, crate::proofs::Cuts::put_between))]
pub fn read_keys(alloc: Global, keys: &str) -> Result<Option<Names>, NoMemory>
    ensures { IfOk result (λ texts. texts ≡ keys_read (cut 44 keys.now)) }
{
    let mut texts = Vec::new(alloc);
    let mut rest = keys;
    while let Some((key, more)) = cut_once(rest, ',') {
        match read_key(alloc, key)? {
            Some(text) => texts.push(text)?,
            None => return Ok(None),
        }
        rest = more;
    }
    match read_key(alloc, rest)? {
        Some(text) => texts.push(text)?,
        None => return Ok(None),
    }
    Ok(Some(Series::from_vec(texts)))
}

//! JSON strings, and members with what leads to them.
ghost use Rattle.std.specs.List.{list_all};
ghost use Rattle.std.specs.Prelude.{◌≡◌, ◌++◌, OnOk, decimal, string_bytes};
ghost use Rattle.json.specs.Print.{quoted};
ghost use Rattle.serde_json.specs.Written.{comma_if};
ghost use Rattle.yp_json_text.specs.Strings.{stands_for_itself, name_text};

use serde_json::Value as Json;
use std::alloc::{AllocError, Global};

/// Whether each byte of a text stands for itself in a JSON string.
fn is_plain(text: &[u8]) -> bool
    ensures { result ≡ list_all stands_for_itself text.now }
{
    text.iter().all(|b| *b >= 32 && *b != b'"' && *b != b'\\')
}

/// Appends a text that has escapes as a JSON string.
fn push_escaped(alloc: Global, text: &mut String, value: &str) -> Result<(), AllocError>
    ensures { OnOk result (string_bytes text.new ≡ string_bytes text.old ++ quoted value.now) }
{
    let json = Json::try_from_str(alloc, value)?;
    let json = json.to_string(alloc)?;
    text.push_str(json.as_str())
}

/// Appends a text as a JSON string.
pub fn push_string(alloc: Global, text: &mut String, value: &str) -> Result<(), AllocError>
    ensures { OnOk result (string_bytes text.new ≡ string_bytes text.old ++ quoted value.now) }
{
    if !is_plain(value.as_bytes()) {
        return push_escaped(alloc, text, value);
    }
    text.push_str("\"")?;
    text.push_str(value)?;
    text.push_str("\"")?;
    Ok(())
}

/// Appends what leads to a member's value, and a text as a JSON string.
pub fn push_member(
    alloc: Global,
    text: &mut String,
    lead: &str,
    value: &str,
) -> Result<(), AllocError>
    ensures { OnOk result (string_bytes text.new ≡ string_bytes text.old ++ (lead.now ++ quoted value.now)) }
{
    text.push_str(lead)?;
    push_string(alloc, text, value)
}

/// Appends what leads to a member's value, and a number.
pub fn push_number(text: &mut String, lead: &str, number: u32) -> Result<(), AllocError>
    ensures { OnOk result (string_bytes text.new ≡ string_bytes text.old ++ (lead.now ++ decimal number)) }
{
    write!(text, "{lead}{number}")
}

/// Appends what leads to a member's value, and a number as a JSON string.
pub fn push_counted(
    alloc: Global,
    text: &mut String,
    lead: &str,
    number: u64,
) -> Result<(), AllocError>
    ensures { OnOk result (string_bytes text.new ≡ string_bytes text.old ++ (lead.now ++ quoted (decimal number))) }
{
    let number = number.to_string(alloc)?;
    push_member(alloc, text, lead, number.as_str())
}

/// Appends a comma, where something stands before.
pub fn push_comma(text: &mut String, later: bool) -> Result<(), AllocError>
    ensures { OnOk result (string_bytes text.new ≡ string_bytes text.old ++ comma_if later) }
{
    text.push_str(if later { "," } else { "" })
}

/// Appends what leads to the value of a member of this name: a comma, where a member stands before, the
/// name, and a colon.
pub fn push_name(
    alloc: Global,
    text: &mut String,
    later: bool,
    name: &str,
) -> Result<(), AllocError>
    ensures { OnOk result (string_bytes text.new ≡ string_bytes text.old ++ name_text later name.now) }
{
    push_comma(text, later)?;
    push_string(alloc, text, name)?;
    text.push_str(":")
}

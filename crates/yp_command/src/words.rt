//! The members of a line's JSON.
ghost use Rattle.std.specs.Prelude.{◌≡◌, ◌≤◌, option_map, is_some, IfOk};
ghost use Rattle.serde_json.specs.Find.{as_str};
ghost use Rattle.serde_json.specs.View.{view, members_view};
ghost use Rattle.yp_command.specs.declared.fault.ScriptKind.TheVariants.{Member};
ghost use Rattle.yp_value.specs.Json.{seen_member};
ghost use Rattle.yp_command.specs.Words.{first_member, sole_member, has_count, text_at, says, is_text, whole_said, is_yes};

use crate::fault::Flaw;
use serde_json::{Map, Value as Json};
use std::alloc::Global;
use yp_cause::cause::Cause;
use yp_cause::lines::other_member;
use yp_value::json::member;
use yp_value::members::count;

/// Whether it is an object of so many members.
pub fn has_count(json: &Json, many: usize) -> bool
    ensures { result ≡ has_count many (view json.now) }
{
    match json {
        Json::Object(members) => count(members) == many,
        _ => false,
    }
}

/// The first member of an object: its name and its value.
fn first_member(members: &Map<String, Json>) -> Option<(&str, &Json)>
    ensures { option_map seen_member result ≡ first_member (members_view members.now.entries) }
{
    match members.first_key_value() {
        Some((name, value)) => Some((name.as_str(), value)),
        None => None,
    }
}

/// The only member of an object that has just one: its name and its value.
pub fn sole_member(json: &Json) -> Option<(&str, &Json)>
    ensures { option_map seen_member result ≡ sole_member (view json.now) }
{
    match json {
        Json::Object(members) => {
            if count(members) == 1 {
                first_member(members)
            } else {
                None
            }
        }
        _ => None,
    }
}

/// The text that a member of this name is.
pub fn text_in<'a>(json: &'a Json, name: &str) -> Option<&'a str>
    ensures { option_map (λ text. text.now) result ≡ text_at name.now (view json.now) }
{
    match member(json, name) {
        Some(value) => value.as_str(),
        None => None,
    }
}

/// Whether it is this text.
pub fn is_text(json: &Json, word: &str) -> bool
    ensures { result ≡ is_text (as_str (view json.now)) word.now }
{
    match json.as_str() {
        Some(text) => text == word,
        None => false,
    }
}

/// Whether a member is this text.
pub fn says(json: &Json, name: &str, word: &str) -> bool
    ensures { result ≡ says name.now word.now (view json.now) }
{
    match text_in(json, name) {
        Some(text) => text == word,
        None => false,
    }
}

/// The whole number within bounds that a member of this name is: `Limit` where it lies outside, `Member` where
/// it is none.
pub fn whole(json: &Json, name: &'static str, low: u64, high: u64) -> Result<u64, Flaw>
    ensures read { result ≡ whole_said low high (view json.now) }
    ensures low { IfOk result (λ number. low ≤ number) }
    ensures high { IfOk result (λ number. number ≤ high) }
{
    match json {
        Json::Number(number) => match number.as_u64() {
            Some(whole) => {
                if low <= whole && whole <= high {
                    Ok(whole)
                } else {
                    Err(Flaw::out_of_range(name, low, high))
                }
            }
            None => {
                if number.is_i64() {
                    Err(Flaw::out_of_range(name, low, high))
                } else {
                    Err(Flaw::wrong(name, "is a whole number, without a point or an exponent"))
                }
            }
        },
        _ => Err(Flaw::wrong(name, "is a whole number")),
    }
}

/// What is wrong with an object in which no member of this name is what it must be, as these words say.
pub fn lacking(json: &Json, name: &'static str, words: &'static str) -> Flaw
    ensures { result ≡ Member }
{
    match member(json, name) {
        Some(_) => Flaw::wrong(name, words),
        None => Flaw::member(Cause::missing(name)),
    }
}

/// What is wrong with an object of these members alone in which the one of this name isn't what it must be, as
/// these words say.
pub fn lacking_among(
    alloc: Global,
    json: &Json,
    names: &[&'static str],
    name: &'static str,
    words: &'static str,
) -> Flaw
    ensures { result ≡ Member }
{
    match other_member(alloc, json, names) {
        Some(cause) => Flaw::member(cause),
        None => Flaw::wrong(name, words),
    }
}

/// Whether it is the word `true`.
pub fn is_yes(json: &Json) -> bool
    ensures { result ≡ is_yes (view json.now) }
{
    match json {
        Json::Bool(yes) => *yes,
        _ => false,
    }
}

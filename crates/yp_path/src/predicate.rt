//! Predicates of rule paths (RFC 8341 section 3.5.2).
ghost use Rattle.std.specs.Prelude.{◌≡◌, ◌<◌, Some, None, IfOk, MatchOption};
ghost use Rattle.std.specs.List.{before_first};
ghost use Rattle.yp_path.specs.RulePaths.{without_spaces, are_spaces, name_in, closed, quoted_value, predicate_in, predicates_behind, predicates_of, is_bracket};
ghost use Rattle.yp_path.specs.Targets.{some_name};

use crate::cut::{behind, cut_once};
use crate::mark::{Place, cut_bare};
use std::alloc::Global;
use yp_base::memory::NoMemory;
use yp_base::series::Series;
use yp_base::txt::{Txt, text_of};

/// A predicate: the name of a key, and its value's text.
#[derive(Drop)]
pub struct Predicate {
    pub name: Txt,
    pub value: Txt,
}

/// The predicates of a segment, in the order of its text.
pub type Predicates = Series<Predicate>;

/// What stands after a text's spaces.
#[tactic(auto, using(crate::proofs::Predicates::no_spaces))]
fn without_spaces(text: &str) -> &str
    ensures { result.now ≡ without_spaces text.now }
{
    let mut rest = text;
    while let Some(more) = behind(rest, ' ') {
        rest = more;
    }
    rest
}

fn are_spaces(text: &str) -> bool
    ensures { result ≡ are_spaces text.now }
{
    without_spaces(text).is_empty()
}

fn some_name(name: &str) -> Option<&str>
    ensures { MatchOption result (some_name name.now ≡ None) (λ x. some_name name.now ≡ Some x.now) }
{
    if name.is_empty() { None } else { Some(name) }
}

/// A name, after which only spaces stand.
fn name_in(text: &str) -> Option<&str>
    ensures { MatchOption result (name_in text.now ≡ None) (λ x. name_in text.now ≡ Some x.now) }
{
    match cut_once(text, ' ') {
        Some((name, rest)) => {
            if are_spaces(rest) {
                some_name(name)
            } else {
                None
            }
        }
        None => some_name(text),
    }
}

/// A value up to this quote, after which only spaces stand.
fn closed(text: &str, quote: char) -> Option<&str>
    requires { quote < 128 }
    ensures { MatchOption result (closed quote text.now ≡ None) (λ x. closed quote text.now ≡ Some x.now) }
{
    match cut_once(text, quote) {
        Some((value, rest)) => { if are_spaces(rest) { Some(value) } else { None } }
        None => None,
    }
}

/// A value between two equal quotes, after which only spaces stand.
fn quoted_value(text: &str) -> Option<&str>
    ensures { MatchOption result (quoted_value text.now ≡ None) (λ x. quoted_value text.now ≡ Some x.now) }
{
    match behind(text, '\'') {
        Some(rest) => closed(rest, '\''),
        None => match behind(text, '"') {
            Some(rest) => closed(rest, '"'),
            None => None,
        },
    }
}

fn make_predicate(alloc: Global, name: &str, value: &str) -> Result<Predicate, NoMemory>
    ensures { IfOk result (λ made. (made.name ≡ name.now) × (made.value ≡ value.now)) }
{
    Ok(Predicate {
        name: text_of(alloc, name)?,
        value: text_of(alloc, value)?,
    })
}

/// The predicate that stands within brackets.
fn read_predicate(alloc: Global, body: &str) -> Result<Option<Predicate>, NoMemory>
    ensures { IfOk result (λ read. read ≡ predicate_in body.now) }
{
    match cut_once(body, '=') {
        Some((front, back)) => match name_in(without_spaces(front)) {
            Some(name) => match quoted_value(without_spaces(back)) {
                Some(value) => Ok(Some(make_predicate(alloc, name, value)?)),
                None => Ok(None),
            },
            None => Ok(None),
        },
        None => Ok(None),
    }
}

/// The predicates after the first opening bracket.
#[tactic(auto, using(crate::proofs::Predicates::unclosed, crate::proofs::Predicates::broken, crate::proofs::Predicates::last_one, crate::proofs::Predicates::one_more, crate::proofs::Predicates::unopened))]
fn read_behind(alloc: Global, text: &str) -> Result<Option<Predicates>, NoMemory>
    ensures { IfOk result (λ read. read ≡ predicates_behind text.now) }
{
    let mut predicates = Vec::new(alloc);
    let mut rest = text;
    while let Some((body, more)) = cut_bare(rest, b']', Place::Within) {
        match read_predicate(alloc, body)? {
            Some(predicate) => predicates.push(predicate)?,
            None => return Ok(None),
        }
        if more.is_empty() {
            return Ok(Some(Series::from_vec(predicates)));
        }
        match behind(more, '[') {
            Some(next) => rest = next,
            None => return Ok(None),
        }
    }
    Ok(None)
}

/// The name of a segment: what stands before its predicates.
pub fn name_of(part: &str) -> &str
    ensures { result.now ≡ before_first is_bracket part.now }
{
    match cut_once(part, '[') {
        Some((name, _)) => name,
        None => part,
    }
}

/// The name of a segment, and its predicates where they are well formed.
pub fn read_part<'a>(
    alloc: Global,
    part: &'a str,
) -> Result<(&'a str, Option<Predicates>), NoMemory>
    ensures { IfOk result (λ x. (x.0.now ≡ before_first is_bracket part.now) × (x.1 ≡ predicates_of part.now)) }
{
    match cut_once(part, '[') {
        Some((name, rest)) => Ok((name, read_behind(alloc, rest)?)),
        None => Ok((part, Some(Series::from_vec(Vec::new(alloc))))),
    }
}

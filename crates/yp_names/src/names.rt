//! The names on the way to a node, and member forms (RFC 7951 section 4).
ghost use Rattle.std.specs.List.{position_or_len, before_first, after_first};
ghost use Rattle.std.specs.Prelude.{◌≡◌, ◌<◌, ◌++◌, ◌∷◌, [], ◌==◌, length, IfOk, MatchOption, option_map};
ghost use Rattle.yp_base.specs.Cuts.{cut};
ghost use Rattle.yp_names.specs.Names.{names_in, around_colon, front, last, is_name, is_identifier, begins_name, goes_on_name, go_on_name, is_letter};

use std::alloc::Global;
use yp_base::leaf_type::Names;
use yp_base::memory::{Duplicate, NoMemory};
use yp_base::series::Series;
use yp_base::txt::{Txt, text_of};

fn begins_name(b: u8) -> bool
    ensures { result ≡ begins_name b }
{
    (97 <= b && b <= 122) || (65 <= b && b <= 90) || b == 95
}

fn go_on_name(bytes: &[u8]) -> bool
    ensures { result ≡ go_on_name bytes.now }
{
    for b in bytes {
        if !begins_name(*b) && !b.is_ascii_digit() && *b != b'-' && *b != b'.' {
            return false;
        }
    }
    true
}

/// Whether a text is the name of a module or node: an identifier (RFC 7950 section 6.2) of at most 64
/// bytes.
pub fn is_name(text: &str) -> bool
    ensures { result ≡ is_name text.now }
{
    match text.as_bytes().split_first() {
        Some((first, rest)) => begins_name(*first) && go_on_name(rest) && text.len() <= 64,
        None => false,
    }
}

/// What stands before the first `/`, and what stands behind it.
fn cut_once(text: &str) -> Option<(&str, &str)>
    ensures { MatchOption result (position_or_len (λ b. b == 47) text.now ≡ length text.now)
        (λ x. (x.0.now ≡ before_first (λ b. b == 47) text.now) × (x.1.now ≡ after_first (λ b. b == 47) text.now) × (position_or_len (λ b. b == 47) text.now < length text.now)) }
{
    text.split_once('/')
}

/// What stands before the first `:`, and what stands behind it.
pub fn around_colon(text: &str) -> Option<(&str, &str)>
    ensures { option_map (λ x. (x.0.now, x.1.now)) result ≡ around_colon text.now }
{
    text.split_once(':')
}

/// A text cut at each `/`.
#[tactic(auto, using(crate::proofs::Cuts::cut_found, crate::proofs::Cuts::cut_none, crate::proofs::Cuts::put_between))]
fn cut_at(alloc: Global, text: &str) -> Result<Names, NoMemory>
    ensures { IfOk result (λ names. names ≡ cut 47 text.now) }
{
    let mut names = Vec::new(alloc);
    let mut rest = text;
    while let Some((name, more)) = cut_once(rest) {
        names.push(text_of(alloc, name)?)?;
        rest = more;
    }
    names.push(text_of(alloc, rest)?)?;
    Ok(Series::from_vec(names))
}

/// The names of a path, which is `/` and member forms joined by `/`. `None` where it isn't one.
#[tactic(auto, using(crate::proofs::Cuts::cut_found, crate::proofs::Cuts::cut_none))]
pub fn read_path(alloc: Global, text: &str) -> Result<Option<Names>, NoMemory>
    ensures { IfOk result (λ path. path ≡ names_in text.now) }
{
    match cut_once(text) {
        Some((first, rest)) => {
            if first.is_empty() {
                Ok(Some(cut_at(alloc, rest)?))
            } else {
                Ok(None)
            }
        }
        None => Ok(None),
    }
}

/// The names above the last.
pub fn front_of(alloc: Global, path: &Names) -> Result<Names, NoMemory>
    ensures { IfOk result (λ made. made ≡ front path.now) }
{
    let mut names = path.copy(alloc)?.into_vec(alloc)?;
    names.pop();
    Ok(Series::from_vec(names))
}

/// The last name; empty where there is none.
pub fn last_of(path: &Names) -> &str
    ensures { result.now ≡ last path.now }
{
    match path.items().last() {
        Some(name) => name.as_str(),
        None => "",
    }
}

/// The names and one more below them.
pub fn with_name(alloc: Global, path: &Names, name: &Txt) -> Result<Names, NoMemory>
    ensures { IfOk result (λ made. made ≡ path.now ++ name.now ∷ []) }
{
    let mut names = path.copy(alloc)?.into_vec(alloc)?;
    names.push(name.copy(alloc)?)?;
    Ok(Series::from_vec(names))
}

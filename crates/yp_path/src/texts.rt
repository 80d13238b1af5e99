//! The texts of the keys of a segment.
ghost use Rattle.std.specs.Prelude.{◌≡◌, ◌==◌, IfOk, length, count_by, option_map};
ghost use Rattle.yp_base.specs.Cuts.{cut};
ghost use Rattle.yp_path.specs.Targets.{keys_read};
ghost use Rattle.yp_path.specs.Texts.{texts_of};

use crate::cut::cut_once;
use crate::escape::read_keys;
use std::alloc::Global;
use yp_base::leaf_type::Names;
use yp_base::memory::NoMemory;

/// The texts of keys. Without an escape they are as they stand, with commas between them.
#[derive(Drop)]
pub enum Texts<'a> {
    Bare(&'a str),
    Read(Names),
}

/// The texts that keys stand for, unescaped; none where one has none.
fn read_escaped<'a>(alloc: Global, keys: &str) -> Result<Option<Texts<'a>>, NoMemory>
    ensures { IfOk result (λ texts. option_map texts_of texts ≡ keys_read (cut 44 keys.now)) }
{
    match read_keys(alloc, keys)? {
        Some(texts) => Ok(Some(Texts::Read(texts))),
        None => Ok(None),
    }
}

/// The texts that keys stand for; none where one has none.
pub fn read_texts<'a>(alloc: Global, keys: &'a str) -> Result<Option<Texts<'a>>, NoMemory>
    ensures { IfOk result (λ texts. option_map texts_of texts ≡ keys_read (cut 44 keys.now)) }
{
    match cut_once(keys, '%') {
        Some(_) => read_escaped(alloc, keys),
        None => Ok(Some(Texts::Bare(keys))),
    }
}

/// How many commas stand in a text.
fn commas(text: &str) -> usize
    ensures { result ≡ count_by (λ b. b == 44) text.now }
{
    text.as_bytes().iter().filter(|b| **b == b',').count()
}

/// How many texts there are.
#[tactic(auto, using(crate::proofs::Bare::counted))]
pub fn count(texts: &Texts) -> usize
    ensures { result ≡ length (texts_of texts.now) }
{
    match texts {
        Texts::Bare(keys) => commas(keys) + 1,
        Texts::Read(texts) => texts.len(),
    }
}

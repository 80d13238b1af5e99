//! Texts of values (RFC 7950 section 9).
ghost use Rattle.std.specs.Prelude.{◌≡◌, ◌-◌, ◌^◌, ◌≤◌, ◌<◌, ℕ, List, Some, IfOk, true, string_bytes};
ghost use Rattle.yp_base.specs.Types.{is_type, is_width, is_among, are_names, is_short};
ghost use Rattle.yp_value.specs.Texts.{ReadsAs, atom_in, atom_text, truth_in, is_writable, fits};
ghost use Rattle.yp_base.specs.declared.atom.Atom.{Atom};
ghost use Rattle.yp_base.specs.declared.leaf_type.LeafType.{LeafType};
ghost use Rattle.yp_value.specs.declared.text.TextFault.TheVariants.{Memory};

use crate::number;
use std::alloc::{AllocError, Global};
use yp_base::atom::Atom;
use yp_base::leaf_type::{LeafType, Names};
use yp_base::memory::NoMemory;
use yp_base::txt::{Txt, text_of};

/// Why a value isn't read.
#[derive(Debug, Drop, Clone, Copy, PartialEq, Eq, thiserror::Error)]
pub enum TextFault {
    /// It is no text, or no JSON, of the type.
    #[error("no value of the type")]
    BadText,
    /// Memory ran out.
    #[error("no memory")]
    Memory,
}

impl From<NoMemory> for TextFault {
    ghost from_gives = { λ _ fault. fault ≡ Memory };

    fn from(_error: NoMemory) -> TextFault {
        TextFault::Memory
    }
}

/// Reads a text as a value of a type (RFC 7950 sections 9.2 to 9.6). `BadText` comes exactly where it is none.
pub fn read_text(alloc: Global, ty: &LeafType, text: &str) -> Result<Atom, TextFault>
    requires { is_type ty.now ≡ true }
    ensures { ReadsAs result (atom_in ty.now text.now) }
{
    match ty {
        LeafType::Bool => answer(read_truth(text)),
        LeafType::Int { bits } => answer(read_int(*bits, text)),
        LeafType::Uint { bits } => answer(read_uint(*bits, text)),
        LeafType::Dec { places } => answer(read_dec(*places, text)),
        LeafType::Text => {
            if text.len() <= 256 {
                Ok(Atom::Text(text_of(alloc, text)?))
            } else {
                Err(TextFault::BadText)
            }
        }
        LeafType::Names(names) => {
            if is_named(names, text) {
                Ok(Atom::Text(text_of(alloc, text)?))
            } else {
                Err(TextFault::BadText)
            }
        }
        LeafType::Empty => Err(TextFault::BadText),
    }
}

/// What was read, or the fault.
fn answer(read: Option<Atom>) -> Result<Atom, TextFault>
    ensures { ReadsAs result read }
{
    match read {
        Some(atom) => Ok(atom),
        None => Err(TextFault::BadText),
    }
}

fn read_truth(text: &str) -> Option<Atom>
    ensures { result ≡ atom_in LeafType.Bool text.now }
{
    if text == "true" {
        Some(Atom::Bool(true))
    } else if text == "false" {
        Some(Atom::Bool(false))
    } else {
        None
    }
}

/// How many numbers of so many bits are below zero.
pub(crate) fn half_range(bits: u8) -> u64
    requires { is_width bits ≡ true }
    ensures { result ≡ 2 ^ (bits - 1) }
{
    match bits {
        8 => 128,
        16 => 32768,
        32 => 2147483648,
        _ => 9223372036854775808,
    }
}

/// The greatest number of so many bits without a sign.
pub(crate) fn greatest(bits: u8) -> u64
    requires { is_width bits ≡ true }
    ensures { result ≡ 2 ^ bits - 1 }
{
    match bits {
        8 => 255,
        16 => 65535,
        32 => 4294967295,
        _ => 18446744073709551615,
    }
}

fn read_int(bits: u8, text: &str) -> Option<Atom>
    requires { is_width bits ≡ true }
    ensures { result ≡ atom_in (LeafType.Int bits) text.now }
{
    let half = half_range(bits);
    Some(Atom::Int(number::read_signed(half, half - 1, text)?))
}

fn read_uint(bits: u8, text: &str) -> Option<Atom>
    requires { is_width bits ≡ true }
    ensures { result ≡ atom_in (LeafType.Uint bits) text.now }
{
    Some(Atom::Uint(number::read_unsigned(greatest(bits), text)?))
}

fn read_dec(places: u8, text: &str) -> Option<Atom>
    requires { places ≤ 18 }
    ensures { result ≡ atom_in (LeafType.Dec places) text.now }
{
    let units = number::read_decimal(places as usize, text)?;
    Some(Atom::Dec { units, places })
}

/// Whether a text is one of the names of an enumeration.
fn is_named(names: &Names, text: &str) -> bool
    requires { are_names names.now ≡ true }
    ensures { result ≡ is_among text.now names.now }
{
    let found = names
        .items()
        .binary_search_by(|name| name.as_str().cmp(text));
    found.is_ok()
}

/// Writes the canonical text of a value (RFC 7950 sections 9.2 to 9.6).
pub fn write_text(alloc: Global, atom: &Atom) -> Result<Txt, NoMemory>
    ensures { IfOk result (λ text. text ≡ atom_text atom.now) }
{
    let text = string_of(alloc, atom)?;
    Txt::from_string(alloc, text)
}

/// The canonical text of a value.
pub(crate) fn string_of(alloc: Global, atom: &Atom) -> Result<String, AllocError>
    ensures { IfOk result (λ text. string_bytes text ≡ atom_text atom.now) }
{
    match atom {
        Atom::Bool(truth) => String::from_str(alloc, if *truth { "true" } else { "false" }),
        Atom::Int(number) => number.to_string(alloc),
        Atom::Uint(number) => number.to_string(alloc),
        Atom::Dec { units, places } => number::write_decimal(alloc, *units, *places),
        Atom::Text(text) => String::from_str(alloc, text.as_str()),
    }
}

/// What is written of a value of a type is read again as this value.
#[tactic(auto, using(crate::specs::TextLaws::text_again))]
pub fn written_text_is_read()
    ensures { (ty : LeafType) (atom : Atom) → is_type ty ≡ true → fits ty atom ≡ true
        → atom_in ty (atom_text atom) ≡ Some atom }
{}

/// What is read is a value of the type.
#[tactic(auto, using(crate::specs::TextLaws::read_fits))]
pub fn read_text_fits()
    ensures { (ty : LeafType) (text : List ℕ) (atom : Atom) → atom_in ty text ≡ Some atom
        → fits ty atom ≡ true }
{}

/// A value of a type can be written.
#[tactic(auto, using(crate::specs::Writable::fits_writable))]
pub fn fitting_value_is_writable()
    ensures { (ty : LeafType) (atom : Atom) → is_type ty ≡ true → fits ty atom ≡ true
        → is_writable atom ≡ true }
{}

//! JSON values that are handed on.
ghost use Rattle.std.specs.Prelude.{◌≡◌, IfOk, IfSome, Some};
ghost use Rattle.serde_json.specs.Data.{member, no_members, object};
ghost use Rattle.serde_json.specs.Read.{read};
ghost use Rattle.serde_json.specs.View.{view as data_of};
ghost use Rattle.yp_value.specs.Payloads.{IsKept, IsReadable, data_in, kept_data, scalar_data};

use crate::members::only_member;
use crate::nesting::nests_within;
use serde_json::{Category, Value as Json, json};
use std::alloc::Global;
use std::marker::Model;
use yp_base::memory::{Duplicate, NoMemory};
use yp_base::txt::{Txt, text_of};

/// How deep arrays and objects may nest in a text that is read again.
const MAX_DEPTH: u32 = 127;

/// A JSON value that holds no others, kept as it is.
#[derive(Drop)]
enum Scalar {
    Text(Txt),
    Whole(u64),
    /// A number below zero.
    Negative(i64),
    Truth(bool),
}

/// How a JSON value is kept.
#[derive(Drop)]
enum Kept {
    /// As its compact text.
    Compact(Txt),
    /// An object of one member, as its name and its value.
    Member { name: Txt, value: Scalar },
}

/// A JSON value that waits until it is asked for. It is kept as its compact text, since a value takes many times as much
/// room, or as name and value where it is an object of one member with a scalar, which takes no reading.
/// Contracts see its data, so that copies are equal.
#[derive(Drop)]
pub struct Payload {
    kept: Kept,
}

impl Model for Payload {
    ghost use Rattle.serde_json.specs.Data.{Data};
    ghost use Rattle.yp_value.specs.Payloads.{IsKept, kept_data};
    ghost use Rattle.yp_value.specs.Coding.{coded_data};

    ghost Value = { Data };

    ghost coded = { coded_data };

    ghost view = { λ p. kept_data p.kept };

    ghost invariant = { λ p. IsKept p.kept };
}

impl Payload {
    /// The payload of a JSON value. One that nests deeper than a text that is read, which no reader gives, is refused as
    /// for want of memory.
    pub fn from_json(alloc: Global, json: &Json) -> Result<Payload, NoMemory>
        ensures { IfOk result (λ payload. payload ≡ data_of json.now) }
    {
        let kept = match Kept::of_member(alloc, json)? {
            Some(kept) => kept,
            None => Kept::Compact(compact_text(alloc, json)?),
        };
        Ok(Payload { kept })
    }

    /// The JSON value, made again. Only memory can be missing for that.
    pub fn json(&self, alloc: Global) -> Result<Json, NoMemory>
        ensures { IfOk result (λ json. data_of json ≡ self.now) }
    {
        match &self.kept {
            Kept::Compact(text) => read_again(alloc, text),
            Kept::Member { name, value } => object_of(alloc, name.as_str(), value.json(alloc)?),
        }
    }
}

impl Kept {
    /// An object of one member with a scalar.
    fn of_member(alloc: Global, json: &Json) -> Result<Option<Kept>, NoMemory>
        ensures data { IfOk result (λ kept. IfSome kept (λ kept. kept_data kept ≡ data_of json.now)) }
        ensures kept { IfOk result (λ kept. IfSome kept IsKept) }
    {
        let Some((name, value)) = only_member(json) else {
            return Ok(None);
        };
        let Some(value) = Scalar::from_json(alloc, value)? else {
            return Ok(None);
        };
        let name = text_of(alloc, name)?;
        Ok(Some(Kept::Member { name, value }))
    }
}

impl Scalar {
    /// The scalar that a JSON value is. A number with a fraction is left to its text.
    fn from_json(alloc: Global, json: &Json) -> Result<Option<Scalar>, NoMemory>
        ensures { IfOk result (λ scalar. IfSome scalar (λ scalar. scalar_data scalar ≡ data_of json.now)) }
    {
        Ok(match json {
            Json::String(text) => Some(Scalar::Text(text_of(alloc, text.as_str())?)),
            Json::Bool(truth) => Some(Scalar::Truth(*truth)),
            Json::Number(_) => Scalar::from_number(json),
            _ => None,
        })
    }

    /// The whole number that a JSON value is.
    fn from_number(json: &Json) -> Option<Scalar>
        ensures { IfSome result (λ scalar. scalar_data scalar ≡ data_of json.now) }
    {
        if let Some(number) = json.as_u64() {
            return Some(Scalar::Whole(number));
        }
        match json.as_i64() {
            Some(number) if number < 0 => Some(Scalar::Negative(number)),
            _ => None,
        }
    }

    /// The JSON value.
    fn json(&self, alloc: Global) -> Result<Json, NoMemory>
        ensures { IfOk result (λ json. data_of json ≡ scalar_data self.now) }
    {
        Ok(match self {
            Scalar::Text(text) => Json::try_from_str(alloc, text.as_str())?,
            Scalar::Whole(number) => Json::from(*number),
            Scalar::Negative(number) => Json::from(*number),
            Scalar::Truth(truth) => Json::from(*truth),
        })
    }
}

/// An object of one member.
fn object_of(alloc: Global, name: &str, value: Json) -> Result<Json, NoMemory>
    ensures { IfOk result (λ json. data_of json ≡ object (member name.now (data_of value) no_members)) }
{
    Ok(json!(in alloc; {name: value})?)
}

/// The compact text of a value, without spare room. `NoMemory` also where it nests deeper than a text that is read.
fn compact_text(alloc: Global, json: &Json) -> Result<Txt, NoMemory>
    ensures { IfOk result (λ text. read text ≡ Some (data_of json.now)) }
{
    if !nests_within(json, MAX_DEPTH) {
        return Err(NoMemory);
    }
    let mut written = json.to_string(alloc)?;
    written.shrink_to_fit();
    Txt::from_string(alloc, written)
}

/// The value that a text reads as.
fn read_again(alloc: Global, text: &Txt) -> Result<Json, NoMemory>
    requires { IsReadable text.now }
    ensures { IfOk result (λ json. data_of json ≡ data_in text.now) }
{
    match Json::from_str(alloc, text.as_str()) {
        Ok(json) => Ok(json),
        Err(error) => match error.classify() {
            Category::Memory => Err(NoMemory),
            _ => unreachable!(),
        },
    }
}

impl Duplicate for Scalar {
    fn copy(&self, alloc: Global) -> Result<Scalar, NoMemory> {
        Ok(match self {
            Scalar::Text(text) => Scalar::Text(text.copy(alloc)?),
            Scalar::Whole(number) => Scalar::Whole(*number),
            Scalar::Negative(number) => Scalar::Negative(*number),
            Scalar::Truth(truth) => Scalar::Truth(*truth),
        })
    }
}

impl Duplicate for Kept {
    fn copy(&self, alloc: Global) -> Result<Kept, NoMemory> {
        Ok(match self {
            Kept::Compact(text) => Kept::Compact(text.copy(alloc)?),
            Kept::Member { name, value } => Kept::Member {
                name: name.copy(alloc)?,
                value: value.copy(alloc)?,
            },
        })
    }
}

impl Duplicate for Payload {
    fn copy(&self, alloc: Global) -> Result<Payload, NoMemory> {
        Ok(Payload {
            kept: self.kept.copy(alloc)?,
        })
    }
}

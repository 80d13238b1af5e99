//! Why an edit of a patch is refused, in words.
ghost use Rattle.std.specs.Prelude.{◌≡◌, true};
ghost use Rattle.yp_schema.specs.Datastore.{is_path_of};

use std::alloc::Global;
use yp_base::memory::NoMemory;
use yp_base::path::Path;
use yp_cause::paths::{member_text, path_text};
use yp_cause::values::value_text;
use yp_data_json::at_path::read_payload;
use yp_data_json::fault::{DataError, DataFault};
use yp_patch::patch::{Edit, EditOp};
use yp_path::fault::PathFault;
use yp_path::target::read_target;
use yp_schema::schema::Schema;

/// The most slashes of a target that are tried as parts of a key.
const MOST_SLASHES: usize = 8;

/// What is wrong by an edit's error, in words.
fn meaning_of(tag: &str, op: EditOp) -> &'static str {
    match tag {
        "data-exists" => "something is there: `merge` or `replace` it",
        "data-missing" => match op {
            EditOp::Delete => "nothing is there: `remove` is no error then",
            _ => "an entry or a presence container above the target is not there: create it first",
        },
        "too-big" => "the datastore would have more than 20,000 rows",
        _ => "the value is not one of the target",
    }
}

/// Why an edit is refused with this tag.
pub fn refused_edit(
    alloc: Global,
    schema: &Schema,
    edit: &Edit,
    tag: &str,
) -> Result<String, NoMemory> {
    match read_target(alloc, schema, edit.target.as_str()) {
        Ok(path) => at_target(alloc, schema, edit, &path, tag),
        Err(error) => {
            let target = edit.target.as_str();
            let cause = path_text(alloc, schema, &error)?;
            match escaped(alloc, schema, target)? {
                Some(hint) => Ok(format!(in alloc; "`{target}`: {cause}{hint}")?),
                None => Ok(format!(in alloc; "`{target}`: {cause}")?),
            }
        }
    }
}

/// What is wrong with the value of an edit, and at which member.
fn value_cause(alloc: Global, schema: &Schema, error: &DataError) -> Result<String, NoMemory> {
    let fault = error.fault;
    if fault == DataFault::Memory {
        return Err(NoMemory);
    }
    if fault == DataFault::InvalidValue {
        if let Some(text) = value_text(alloc, schema, error.node)? {
            return Ok(format!(in alloc; "{fault}: {text}")?);
        }
    }
    let at = member_text(schema, error.node);
    Ok(match &error.member {
        Some(member) => {
            let member = member.as_str();
            match at {
                Some(at) => format!(in alloc; "{fault} `{member}` in `{at}`")?,
                None => format!(in alloc; "{fault} `{member}`")?,
            }
        }
        None => match at {
            Some(at) => format!(in alloc; "{fault}: `{at}`")?,
            None => format!(in alloc; "{fault}")?,
        },
    })
}

/// Why an edit at a node of the schema is refused.
fn at_target(
    alloc: Global,
    schema: &Schema,
    edit: &Edit,
    path: &Path,
    tag: &str,
) -> Result<String, NoMemory>
    requires { is_path_of schema.now path.now ≡ true }
{
    let target = edit.target.as_str();
    if schema.ends_in_key(path) {
        return Ok(format!(in alloc; "`{target}` is a key: delete the entry and create another")?);
    }
    if matches!(edit.op, EditOp::Insert | EditOp::Move) {
        return Ok(format!(in alloc;
            "`{target}`: no list is ordered by its user: `create` or `merge`"
        )?);
    }
    if let Some(value) = &edit.value {
        match read_payload(alloc, schema, path, value) {
            Ok(_) => {}
            Err(error) => {
                let cause = value_cause(alloc, schema, &error)?;
                return Ok(format!(in alloc; "the value for `{target}`: {cause}")?);
            }
        }
    }
    let meaning = meaning_of(tag, edit.op);
    Ok(format!(in alloc; "`{target}`: {meaning}")?)
}

/// What to write where slashes of a key aren't escaped, if the target is one with as many of them escaped as
/// are needed.
fn escaped(alloc: Global, schema: &Schema, target: &str) -> Result<Option<String>, NoMemory> {
    let Some((front, keys)) = target.split_once('=') else {
        return Ok(None);
    };
    for count in 1..=MOST_SLASHES {
        let written = keys.replacen(alloc, "/", "%2F", count)?;
        let whole = format!(in alloc; "{front}={written}")?;
        match read_target(alloc, schema, whole.as_str()) {
            Ok(_) => {
                return Ok(Some(format!(in alloc;
                    "; if the `/` belongs to the key, write `{whole}`"
                )?));
            }
            Err(error) => {
                if error.fault == PathFault::Memory {
                    return Err(NoMemory);
                }
            }
        }
    }
    Ok(None)
}

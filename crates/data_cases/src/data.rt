//! Calls of `yp_data_json`.
ghost use Rattle.std.specs.Prelude.{◌≡◌, ◌↔◌, true, IfOk, IfErr, Contains};
ghost use Rattle.serde_json.specs.View.{view};
ghost use Rattle.yp_base.specs.declared.row.Row.{Row};
ghost use Rattle.yp_schema.specs.Datastore.{AreWhole, is_place};
ghost use Rattle.yp_data_json.specs.Holding.{IsDataAt, HoldsAt};

use case_frame::fault::{CaseFault, OrFault, or_bad};
use case_frame::given::{self, part};
use case_frame::shown::{self, Answer};
use serde_json::Value as Json;
use std::alloc::Global;
use yp_base::path::Path;
use yp_base::row::Rows;
use yp_data_json::at_path::{read_payload, read_rows};
use yp_data_json::fault::{DataError, DataFault};
use yp_data_json::holding::{accepted_data_holds_its_rows, names_stand_once};
use yp_data_json::writing::push_rows;
use yp_path::target::read_target;
use yp_schema::schema::Schema;
use yp_value::payload::Payload;

pub fn answer(alloc: Global, schema: &Schema, call: &str, arguments: &Json) -> Answer {
    Ok(Some(match call {
        "read_rows" | "read_payload" | "push_rows" => at_place(alloc, schema, call, arguments)?,
        _ => return Ok(None),
    }))
}

/// The place of a target, or the top of an empty text.
fn place(alloc: Global, schema: &Schema, text: &str) -> OrFault<Path>
    ensures { IfOk result (λ path. is_place schema.now path ≡ true) }
{
    if text.is_empty() {
        return or_bad(Path::top(alloc));
    }
    let path = or_bad(read_target(alloc, schema, text))?;
    if schema.ends_in_key(&path) {
        return Err(CaseFault::BadArgument);
    }
    Ok(path)
}

/// The answer of a call with a place and data.
fn at_place(alloc: Global, schema: &Schema, call: &str, arguments: &Json) -> OrFault<String> {
    let at = place(alloc, schema, given::text(part(arguments, "at")?)?)?;
    let json = part(arguments, "data")?;
    match call {
        "read_rows" => rows_read(alloc, schema, &at, json),
        "read_payload" => payload_read(alloc, schema, &at, json),
        _ => rows_written(alloc, schema, &at, json),
    }
}

/// What is shown of a fault.
fn fault(alloc: Global, error: &DataError) -> OrFault<String> {
    match error.fault {
        DataFault::UnknownElement => shown::quoted(alloc, "UnknownElement"),
        DataFault::InvalidValue => shown::quoted(alloc, "InvalidValue"),
        DataFault::MissingKey => shown::quoted(alloc, "MissingKey"),
        DataFault::RepeatedKey => shown::quoted(alloc, "RepeatedKey"),
        DataFault::Memory => Err(CaseFault::Memory),
    }
}

/// The rows of data at a place: what is read is data of the schema, and its rows are those that the data hold.
fn held_rows(alloc: Global, schema: &Schema, at: &Path, json: &Json) -> Result<Rows, DataError>
    requires { is_place schema.now at.now ≡ true }
    ensures is { IfOk result (λ rows. IsDataAt schema.now at.now (view json.now)) }
    ensures rows { IfOk result (λ rows. (row : Row) → Contains rows row ↔ HoldsAt schema.now at.now (view json.now) row) }
    ensures refused { IfErr result (λ fault. IsDataAt schema.now at.now (view json.now) → fault ≡ DataFault.Memory) }
{
    accepted_data_holds_its_rows();
    names_stand_once(json);
    schema.stands();
    read_rows(alloc, schema, at, json)
}

/// The rows of data.
fn rows_read(alloc: Global, schema: &Schema, at: &Path, json: &Json) -> OrFault<String>
    requires { is_place schema.now at.now ≡ true }
{
    match held_rows(alloc, schema, at, json) {
        Ok(rows) => shown::rows(alloc, &rows),
        Err(found) => fault(alloc, &found),
    }
}

/// The rows of a payload.
fn payload_read(alloc: Global, schema: &Schema, at: &Path, json: &Json) -> OrFault<String>
    requires { is_place schema.now at.now ≡ true }
{
    let payload = Payload::from_json(alloc, json)?;
    match read_payload(alloc, schema, at, &payload) {
        Ok(rows) => shown::rows(alloc, &rows),
        Err(found) => fault(alloc, &found),
    }
}

/// What is written of the rows of data, where the same rows are read of it again.
fn rows_written(alloc: Global, schema: &Schema, at: &Path, json: &Json) -> OrFault<String>
    requires { is_place schema.now at.now ≡ true }
{
    let rows = or_bad(read_rows(alloc, schema, at, json))?;
    written(alloc, schema, at, &rows)
}

/// What is written of all rows at a place, where they are read of it again.
fn written(alloc: Global, schema: &Schema, at: &Path, rows: &Rows) -> OrFault<String>
    requires place { is_place schema.now at.now ≡ true }
    requires whole { AreWhole schema.now at.now rows.now }
{
    let mut text = String::new(alloc);
    push_rows(alloc, schema, &mut text, at, rows)?;
    let json = Json::from_str(alloc, text.as_str())?;
    let again = rows_read(alloc, schema, at, &json)?;
    if again.as_str() == shown::rows(alloc, rows)?.as_str() {
        Ok(text)
    } else {
        shown::quoted(alloc, "other rows are read again")
    }
}

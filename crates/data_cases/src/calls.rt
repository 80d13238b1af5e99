//! The calls that cases name, library by library.
use crate::{data, schemas, targets, trees};
use case_frame::fault::{CaseFault, OrFault, or_bad};
use case_frame::frame::Calls;
use serde_json::Value as Json;
use std::alloc::Global;
use yp_schema::schema::Schema;

/// What earlier lines set: the schema.
#[derive(Drop)]
pub struct Setting {
    schema: Schema,
}

impl Setting {
    /// With a schema without nodes.
    pub fn new(alloc: Global) -> OrFault<Setting> {
        let schema = or_bad(Schema::read(alloc, &[]))?;
        Ok(Setting { schema })
    }
}

impl Calls for Setting {
    /// Sets a schema by its parts.
    fn set(&mut self, alloc: Global, line: &Json) -> OrFault<bool> {
        match line.get("schema") {
            Some(Json::Array(parts)) => {
                self.schema = or_bad(Schema::read(alloc, parts.as_slice()))?;
                Ok(true)
            }
            _ => Ok(false),
        }
    }

    fn answer(&self, alloc: Global, call: &str, arguments: &Json) -> OrFault<String> {
        let schema = &self.schema;
        if let Some(given) = schemas::answer(alloc, schema, call, arguments)? {
            return Ok(given);
        }
        if let Some(given) = targets::answer(alloc, schema, call, arguments)? {
            return Ok(given);
        }
        if let Some(given) = data::answer(alloc, schema, call, arguments)? {
            return Ok(given);
        }
        trees::answer(alloc, call, arguments)?.ok_or(CaseFault::NoSuchCall)
    }
}

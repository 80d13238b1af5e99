//! What the lines of cases set: a schema, and the policy of access control.
use crate::fault::{OrFault, or_bad};
use crate::given::items;
use serde_json::Value as Json;
use std::alloc::Global;
use yp_nacm::policy::Policy;
use yp_nacm_text::policy::read_policy;
use yp_schema::schema::Schema;

/// What earlier lines set: the schema, and the policy of access control.
#[derive(Drop)]
pub struct Setting {
    pub schema: Schema,
    pub policy: Policy,
}

impl Setting {
    /// With a schema without nodes, and the policy before any is given.
    pub fn new(alloc: Global) -> OrFault<Setting> {
        let schema = or_bad(Schema::read(alloc, &[]))?;
        let policy = Policy::opening(alloc);
        Ok(Setting { schema, policy })
    }

    /// Sets what a line without an answer sets: a schema by its parts, under the policy before any is given, or a
    /// policy. False where the line is a case.
    pub fn set(&mut self, alloc: Global, line: &Json) -> OrFault<bool> {
        if line.get("gives").is_some() {
            return Ok(false);
        }
        Ok(self.set_schema(alloc, line)? || self.set_policy(alloc, line)?)
    }

    fn set_schema(&mut self, alloc: Global, line: &Json) -> OrFault<bool> {
        match line.get("schema") {
            Some(parts) => {
                self.schema = or_bad(Schema::read(alloc, items(parts)?))?;
                self.policy = Policy::opening(alloc);
                Ok(true)
            }
            None => Ok(false),
        }
    }

    fn set_policy(&mut self, alloc: Global, line: &Json) -> OrFault<bool> {
        match line.get("policy") {
            Some(json) => {
                self.policy = or_bad(read_policy(alloc, &self.schema, json))?;
                Ok(true)
            }
            None => Ok(false),
        }
    }
}

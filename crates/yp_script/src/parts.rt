//! Parts of a schema that a reader gathers.
ghost use Rattle.std.specs.Prelude.{◌≡◌, ◌++◌, ◌∷◌, [], map, Ok, OnOk, OnErr, IfErr, IsSome, vec_len};
ghost use Rattle.std.specs.Option.{ForSome};
ghost use Rattle.serde_json.specs.View.{view};
ghost use Rattle.yp_schema.specs.Reading.{schema_of};
ghost use Rattle.yp_command.specs.declared.fault.ScriptKind.TheVariants as kinds;
ghost use Rattle.yp_script.specs.Readings.{Gives, IsFault, at_part};

use crate::fault::ScriptFault;
use serde_json::Value as Json;
use std::alloc::Global;
use yp_base::memory::NoMemory;
use yp_cause::lines::node_cause;
use yp_command::fault::{Flaw, ScriptKind};
use yp_schema::fault::{SchemaFault, SchemaKind};
use yp_schema::schema::Schema;

/// The fault of the node at a place of a part.
fn node_flaw(alloc: Global, part: Option<&Json>, place: usize, kind: SchemaKind) -> Flaw
    ensures { result ≡ kinds.Schema }
{
    Flaw::of(ScriptKind::Schema, node_cause(alloc, part, place, kind))
}

/// The parts of a schema so far, each with the number of its line, and what they compile to, where they
/// were compiled since the last of them.
#[derive(Drop)]
pub struct Parts {
    pub numbers: Vec<u32>,
    pub parts: Vec<Json>,
    pub schema: Option<Schema>,
    ghost each: { vec_len numbers ≡ vec_len parts },
    ghost compiled: { ForSome schema (λ nodes. schema_of (map view parts.items) ≡ Ok nodes) },
}

impl Parts {
    /// No parts.
    pub fn new(alloc: Global) -> Parts
        ensures numbers { result.numbers.items ≡ [] }
        ensures parts { result.parts.items ≡ [] }
    {
        Parts {
            numbers: Vec::new(alloc),
            parts: Vec::new(alloc),
            schema: None,
        }
    }

    /// One part more, with the number of its line.
    pub fn push(&mut self, line: u32, part: Json) -> Result<(), NoMemory>
        ensures numbers { OnOk result (self.new.numbers.items ≡ self.old.numbers.items ++ line ∷ []) }
        ensures parts { OnOk result (self.new.parts.items ≡ self.old.parts.items ++ part ∷ []) }
    {
        self.schema = None;
        self.numbers.push(line)?;
        match self.parts.push(part) {
            Ok(()) => Ok(()),
            Err(_) => {
                self.numbers.pop();
                Err(NoMemory)
            }
        }
    }

    /// The schema of the parts; a fault of a part is told at its line.
    pub fn read(&self, alloc: Global) -> Result<Schema, ScriptFault>
        ensures { Gives result (at_part self.now.numbers.items (schema_of (map view self.now.parts.items))) }
    {
        match Schema::read(alloc, self.parts.as_slice()) {
            Ok(schema) => Ok(schema),
            Err(SchemaFault::At { part, place, kind }) => Err(ScriptFault::At {
                line: self.numbers[part],
                kind: node_flaw(alloc, self.parts.get(part), place, kind),
            }),
            Err(SchemaFault::Memory) => Err(ScriptFault::Memory),
        }
    }

    /// Compiles the parts, unless they were compiled since the last of them; a fault of a part is told at
    /// its line.
    pub fn compile(&mut self, alloc: Global) -> Result<(), ScriptFault>
        ensures numbers { self.new.numbers.items ≡ self.old.numbers.items }
        ensures parts { self.new.parts.items ≡ self.old.parts.items }
        ensures compiled { OnOk result (IsSome self.new.schema) }
        ensures fault { IfErr result (λ fault. IsFault fault (at_part self.old.numbers.items (schema_of (map view self.old.parts.items)))) }
    {
        if self.schema.is_none() {
            self.schema = Some(self.read(alloc)?);
        }
        Ok(())
    }

    /// The schema of parts that are compiled.
    pub fn compiled(&self) -> &Schema
        requires { IsSome self.now.schema }
        ensures { schema_of (map view self.now.parts.items) ≡ Ok result.now }
    {
        self.schema.as_ref().unwrap()
    }

    /// The schema of the parts, given on.
    pub fn into_schema(self, alloc: Global) -> Result<Schema, ScriptFault>
        ensures { Gives result (at_part self.numbers.items (schema_of (map view self.parts.items))) }
    {
        let mut parts = self;
        match parts.schema.take() {
            Some(schema) => Ok(schema),
            None => parts.read(alloc),
        }
    }
}

//! What the lines of a script say so far.
ghost use Rattle.std.specs.Prelude.{◌≡◌};
ghost use Rattle.std.specs.Option.{ForSome};
ghost use Rattle.yp_time.specs.Instants.{IsStart};
ghost use Rattle.yp_script.specs.Script.{complete_start};

use crate::cursor::Line;
use crate::fault::ScriptFault;
use crate::form::{Form, line_form, no_form};
use crate::gathered::{Gathered, empty_lanes, lanes_of, push_in};
use crate::lane::lane_command;
use crate::parts::Parts;
use crate::receiver::read_receiver;
use crate::script::Script;
use crate::stage::{Stage, is_complete, misplaced, next_stage, unfinished};
use crate::start::read_start;
use serde_json::Value as Json;
use std::alloc::Global;
use yp_base::memory::NoMemory;
use yp_command::command::{Request, read_command};
use yp_command::fault::Flaw;
use yp_command::halt::{Halt, beside};
use yp_command::receivers::Receivers;
use yp_command::words::{is_yes, whole};
use yp_journal::command::Command;
use yp_schema::schema::Schema;
use yp_time::start::Start;

/// The most lanes.
const MOST_LANES: u64 = 64;

/// What the lines so far say. The parts of the schema are compiled together, at the first command, at the
/// end or where the script stops: a part's fault is found then, and is still told at its own line.
#[derive(Drop)]
pub struct Reader {
    pub stage: Stage,
    pub parts: Parts,
    pub start: Option<Start>,
    pub receivers: Receivers,
    pub before: Gathered,
    pub lanes: Vec<Gathered>,
    pub after: Gathered,
    ghost in_range: { ForSome start IsStart },
}

impl Reader {
    ghost use Rattle.std.specs.Prelude.{◌≡◌, ◌≤◌, ℕ, List, Ok, Err, IfOk, OnOk, vec_len};
    ghost use Rattle.serde_json.specs.View.{view};
    ghost use Rattle.yp_schema.specs.WellFormed.{IsSchema};
    ghost use Rattle.yp_schema.specs.declared.schema.SchemaNode.{SchemaNode};
    ghost use Rattle.yp_time.specs.Instants.{IsStart};
    ghost use Rattle.yp_command.specs.Commands.{IsBounded};
    ghost use Rattle.yp_command.specs.Faults.{said_map};
    ghost use Rattle.yp_command.specs.Readings.{Tells};
    ghost use Rattle.yp_command.specs.Requests.{seen_request, command_said};
    ghost use Rattle.yp_script.specs.Commands.{HasBounds};
    ghost use Rattle.yp_script.specs.Cursor.{seen_line};
    ghost use Rattle.yp_script.specs.Forms.{seen_form};
    ghost use Rattle.yp_script.specs.Order.{next_stage};
    ghost use Rattle.yp_script.specs.Readers.{progress_with, schema_in, progress_in, progress_by, script_by, Adds, Takes, Goes, Steps};
    ghost use Rattle.yp_script.specs.Readings.{Gives, IsFault};
    ghost use Rattle.yp_script.specs.Script.{Progress, no_progress, with_command, with_laned, taken, at_stage, form_taken, line_taken};
    ghost use Rattle.yp_script.specs.declared.form.Form.TheVariants as forms;

    /// At a stage, where nothing is said.
    pub fn at_stage(alloc: Global, stage: Stage) -> Reader
        ensures { progress_in result ≡ Ok (record no_progress { stage = stage }) }
    {
        Reader {
            stage,
            parts: Parts::new(alloc),
            start: None,
            receivers: Receivers::new(alloc),
            before: Gathered::new(alloc),
            lanes: Vec::new(alloc),
            after: Gathered::new(alloc),
        }
    }

    /// Before the first line.
    pub fn new(alloc: Global) -> Reader
        ensures { progress_in result ≡ Ok no_progress }
    {
        Reader::at_stage(alloc, Stage::Opening)
    }

    /// Takes the start.
    fn take_start(&mut self, alloc: Global, json: &Json) -> Result<(), Halt>
        ensures { Adds result self.old self.new (forms.Start (view json.now)) }
    {
        self.start = Some(read_start(alloc, json)?);
        Ok(())
    }

    /// Takes a part of the schema, which is judged with the others.
    fn take_part(&mut self, line: u32, json: &Json) -> Result<(), Halt>
        ensures { Takes result self.old self.new line (forms.Schema (view json.now)) }
    {
        self.parts.push(line, json.clone()?)?;
        Ok(())
    }

    /// Takes a receiver.
    fn take_receiver(&mut self, alloc: Global, json: &Json) -> Result<(), Halt>
        ensures { Adds result self.old self.new (forms.Receiver (view json.now)) }
    {
        let receiver = read_receiver(alloc, &self.receivers, json)?;
        self.receivers.push(alloc, receiver)?;
        Ok(())
    }

    /// Puts a command after those before the lanes, or where these have ended after those behind them.
    fn put_command(&mut self, command: Command) -> Result<(), NoMemory>
        requires bounds { IsBounded command }
        ensures parts { self.new.parts ≡ self.old.parts }
        ensures put { OnOk result ((nodes : List SchemaNode) → progress_with self.new nodes ≡ with_command (progress_with self.old nodes) command) }
    {
        match self.stage {
            Stage::After => self.after.push(command),
            _ => self.before.push(command),
        }
    }

    /// The command that a line asks for, by the schema of the parts so far, which are compiled where they
    /// aren't yet. Where a part has a fault, the script stops with it, whatever is answered here.
    fn read_asked(&mut self, alloc: Global, request: Request<&Json>) -> Result<Command, Halt>
        ensures said { (nodes : List SchemaNode) → schema_in self.old ≡ Ok nodes → Tells result (command_said nodes self.old.start self.old.receivers (seen_request request.entry)) }
        ensures schema { schema_in self.new ≡ schema_in self.old }
        ensures same { (nodes : List SchemaNode) → progress_with self.new nodes ≡ progress_with self.old nodes }
        ensures bounds { IfOk result IsBounded }
    {
        self.parts.compile(alloc)?;
        let schema = self.parts.compiled();
        read_command(alloc, schema, self.start, &self.receivers, request)
    }

    /// Takes a command outside the lanes.
    fn take_command(&mut self, alloc: Global, request: Request<&Json>) -> Result<(), Halt>
        ensures { Adds result self.old self.new (forms.Command (seen_request request.entry)) }
    {
        let command = self.read_asked(alloc, request)?;
        self.put_command(command)?;
        Ok(())
    }

    /// Takes the beginning of the lanes.
    fn take_lanes(&mut self, alloc: Global, json: &Json) -> Result<(), Halt>
        ensures { Adds result self.old self.new (forms.Lanes (view json.now)) }
    {
        let count = whole(json, "lanes", 1, MOST_LANES)?;
        self.lanes = empty_lanes(alloc, count)?;
        Ok(())
    }

    /// Takes a command of a lane.
    fn take_laned(
        &mut self,
        alloc: Global,
        number: &Json,
        request: Request<&Json>,
    ) -> Result<(), Halt>
        ensures { Adds result self.old self.new (forms.Lane (view number.now) (seen_request request.entry)) }
    {
        let command = self.read_asked(alloc, request);
        let lane = whole(number, "lane", 1, self.lanes.len() as u64);
        let laned = lane_command(lane, command)?;
        push_in(&mut self.lanes, laned)?;
        Ok(())
    }

    /// Takes the end of the lanes.
    fn take_join(&mut self, json: &Json) -> Result<(), Halt>
        ensures { Adds result self.old self.new (forms.Join (view json.now)) }
    {
        if is_yes(json) {
            Ok(())
        } else {
            Err(Halt::Fault(Flaw::wrong("join", "is `true`")))
        }
    }

    /// Takes what a line of a form says, wherever it stands: where it may not stand, the script ends with
    /// it, and only its fault counts.
    fn take_values(&mut self, alloc: Global, line: u32, form: Form<&Json>) -> Result<(), Halt>
        ensures { Takes result self.old self.new line (seen_form form.entry) }
    {
        match form {
            Form::Start(json) => self.take_start(alloc, json),
            Form::Schema(json) => self.take_part(line, json),
            Form::Receiver(json) => self.take_receiver(alloc, json),
            Form::Command(request) => self.take_command(alloc, request),
            Form::Lanes(json) => self.take_lanes(alloc, json),
            Form::Lane(number, request) => self.take_laned(alloc, number, request),
            Form::Join(json) => self.take_join(json),
        }
    }

    /// Takes a line of a form.
    fn take_form(&mut self, alloc: Global, line: u32, form: Form<&Json>) -> Result<(), Halt>
        ensures { Goes result self.old self.new line (λ progress. form_taken progress (seen_form form.entry)) }
    {
        match next_stage(self.stage, &form) {
            Some(stage) => {
                self.take_values(alloc, line, form)?;
                self.stage = stage;
                Ok(())
            }
            None => {
                let flaw = misplaced(self.stage, &form);
                match self.take_values(alloc, line, form) {
                    Ok(()) => Err(Halt::Fault(flaw)),
                    Err(halt) => Err(beside(flaw, halt)),
                }
            }
        }
    }

    /// Takes the JSON of a line, where it is JSON.
    fn take_json(&mut self, alloc: Global, line: u32, json: Result<Json, Flaw>) -> Result<(), Halt>
        ensures { Goes result self.old self.new line (λ progress. line_taken progress (said_map view json)) }
    {
        match json {
            Ok(json) => match line_form(&json) {
                Some(form) => self.take_form(alloc, line, form),
                None => Err(Halt::Fault(no_form(alloc, &json))),
            },
            Err(flaw) => Err(Halt::Fault(flaw)),
        }
    }

    /// The fault of a script that stops at a line for this fault: that of a part of the schema
    /// comes before it.
    fn stop(&self, alloc: Global, line: u32, kind: Flaw) -> ScriptFault
        ensures { IsFault result (progress_by self.now line (λ progress. Err kind)) }
    {
        match self.parts.read(alloc) {
            Ok(_) => ScriptFault::At { line, kind },
            Err(fault) => fault,
        }
    }

    /// Takes the next line. Its fault is the first of the script, and the least of the line.
    pub fn take(&mut self, alloc: Global, line: Line) -> Result<(), ScriptFault>
        ensures { Steps result self.old self.new line.number (λ progress. line_taken progress (seen_line line).json) }
    {
        let Line { number, json } = line;
        match self.take_json(alloc, number, json) {
            Ok(()) => Ok(()),
            Err(Halt::Fault(flaw)) => Err(self.stop(alloc, number, flaw)),
            Err(Halt::Memory) => Err(ScriptFault::Memory),
        }
    }

    /// The schema of the lines so far, given on.
    pub fn into_schema(self, alloc: Global) -> Result<Schema, ScriptFault>
        ensures { Gives result (schema_in self) }
    {
        let Reader { parts, .. } = self;
        parts.into_schema(alloc)
    }

    /// The script that ends here; `end` is the number of the line after the last.
    pub fn finish(self, alloc: Global, end: u32) -> Result<Script, ScriptFault>
        ensures read { Gives result (script_by end self) }
        ensures bounds { IfOk result HasBounds }
        ensures start { IfOk result (λ script. IsStart script.start) }
        ensures schema { IfOk result (λ script. IsSchema script.schema) }
    {
        let Reader {
            stage,
            parts,
            start,
            receivers,
            before,
            lanes,
            after,
            ..
        } = self;
        let schema = parts.into_schema(alloc)?;
        schema.stands();
        match complete_start(stage, start) {
            Some(start) => Ok(Script {
                start,
                schema,
                receivers,
                before: before.into_commands(),
                lanes: lanes_of(alloc, lanes)?,
                after: after.into_commands(),
            }),
            None => Err(ScriptFault::At {
                line: end,
                kind: unfinished(stage),
            }),
        }
    }
}

/// The start of a script, where it may end at a stage.
fn complete_start(stage: Stage, start: Option<Start>) -> Option<Start>
    requires { ForSome start IsStart }
    ensures start { result ≡ complete_start stage start }
    ensures in_range { ForSome result IsStart }
{
    if is_complete(stage) { start } else { None }
}

//! Saved streams: the lines of a schema, and behind them the notification lines of one receiver.
ghost use Rattle.std.specs.Prelude.{◌≡◌, ◌<◌, ◌≤◌, ◌+◌, length, IfOk, IfErr, OnOk, IsSome, option_map};
ghost use Rattle.serde_json.specs.View.{view};
ghost use Rattle.yp_schema.specs.WellFormed.{IsSchema};
ghost use Rattle.yp_command.specs.Faults.{said_map};
ghost use Rattle.yp_script.specs.Cursor.{texts_left, last_number, seen_text};
ghost use Rattle.yp_script.specs.Forms.{line_form};
ghost use Rattle.yp_script.specs.Lines.{byte_limit};
ghost use Rattle.yp_script.specs.Readings.{Gives, IsFault};
ghost use Rattle.yp_script.specs.Stream.{is_part_form, part_said, stream_from, stream_of, stream_in};
ghost use Rattle.yp_script.specs.Streams.{FindsPart, Opens, stream_by, stream_behind};

pub use crate::cursor::TextLine;
use crate::cursor::{BYTE_LIMIT, LINE_LIMIT, Line, Lines};
use crate::fault::ScriptFault;
use crate::form::{Form, line_form};
use crate::lines::{json_limited, json_within, past_bytes, read_json};
use crate::reader::Reader;
use crate::stage::{Stage, unfinished};
use serde_json::Value as Json;
use std::alloc::Global;
use std::marker::Model;
use yp_base::memory::NoMemory;
use yp_command::fault::Flaw;
use yp_schema::schema::Schema;

/// The notification lines of a stream that are left. Contracts see the list of them.
#[derive(Drop)]
pub struct StreamLines<'a> {
    place: Lines<'a>,
}

impl<'a> Model for StreamLines<'a> {
    ghost use Rattle.std.specs.Prelude.{List};
    ghost use Rattle.yp_script.specs.Cursor.{texts_left};
    ghost use Rattle.yp_script.specs.Lines.{TextLine};

    ghost Value = { List TextLine };

    ghost view = { λ lines. texts_left lines.place };
}

impl<'a> StreamLines<'a> {
    ghost use Rattle.yp_script.specs.Cursor.{FindsText};

    /// The next line that says something, without its line feed: its number, and its text as it stands, or
    /// `Limit` for the line in which the first byte past the limit lies. It reads nothing of the text, and
    /// takes no memory.
    pub fn next(&mut self) -> Option<TextLine<'a>>
        ensures { FindsText result self.old self.new }
    {
        self.place.next_text()
    }
}

/// A saved stream: the schema of its first lines, and the notification lines behind them.
#[derive(Drop)]
pub struct Stream<'a> {
    pub schema: Schema,
    pub lines: StreamLines<'a>,
}

/// Whether the JSON of a line is a part of the schema.
fn is_part(json: &Json) -> bool
    ensures { result ≡ is_part_form (line_form (view json.now)) }
{
    matches!(line_form(json), Some(Form::Schema(_)))
}

/// The JSON of a line with a script's limits, where the line is a part of the schema.
fn read_part(alloc: Global, line: &TextLine) -> Result<Option<Result<Json, Flaw>>, NoMemory>
    ensures { IfOk result (λ part. option_map (said_map view) part ≡ part_said (seen_text line.now)) }
{
    match line.text {
        Ok(text) => match read_json(alloc, text)? {
            Ok(json) => {
                if is_part(&json) {
                    let within = line.number <= LINE_LIMIT;
                    Ok(Some(json_limited(line.number, within, text, json)))
                } else {
                    Ok(None)
                }
            }
            Err(_) => Ok(None),
        },
        Err(_) => Ok(None),
    }
}

/// The next line, where it is a part of the schema; the place is behind it then, and stays otherwise.
#[tactic(auto, using(crate::proofs::StreamLaws::finds_part, crate::proofs::StreamLaws::finds_none, crate::proofs::StreamLaws::finds_nothing))]
fn next_part(alloc: Global, lines: &mut Lines) -> Result<Option<Line>, NoMemory>
    ensures found { IfOk result (λ part. FindsPart part (texts_left lines.old) (texts_left lines.new)) }
    ensures shorter { IfOk result (λ part. IsSome part → length lines.new.rest.now < length lines.old.rest.now) }
{
    let mut behind = *lines;
    match behind.next_text() {
        Some(line) => match read_part(alloc, &line)? {
            Some(json) => {
                *lines = behind;
                Ok(Some(Line {
                    number: line.number,
                    json,
                }))
            }
            None => Ok(None),
        },
        None => Ok(None),
    }
}

/// The first line with a script's limits, and the fault of a stream without one.
fn first_part(alloc: Global, lines: &mut Lines) -> Result<Line, ScriptFault>
    ensures { Opens result (last_number lines.old + 1) (texts_left lines.old) (texts_left lines.new) }
{
    match lines.next_text() {
        Some(line) => {
            let json = match line.text {
                Ok(text) => { json_within(alloc, line.number, line.number <= LINE_LIMIT, text)? }
                Err(kind) => Err(past_bytes(kind)),
            };
            Ok(Line {
                number: line.number,
                json,
            })
        }
        None => Err(ScriptFault::At {
            line: lines.number + 1,
            kind: unfinished(Stage::Started),
        }),
    }
}

/// Takes the first line, which may only be a part of the schema.
fn open(alloc: Global, lines: &mut Lines) -> Result<Reader, ScriptFault>
    ensures read { IfOk result (λ reader. stream_by reader (texts_left lines.new) ≡ stream_from (last_number lines.old + 1) (texts_left lines.old)) }
    ensures fault { IfErr result (λ fault. IsFault fault (stream_from (last_number lines.old + 1) (texts_left lines.old))) }
{
    let line = first_part(alloc, lines)?;
    let mut reader = Reader::at_stage(alloc, Stage::Started);
    reader.take(alloc, line)?;
    Ok(reader)
}

/// Takes the other lines of the schema.
#[tactic(auto, using(crate::proofs::StreamLaws::part_taken, crate::proofs::StreamLaws::part_fails, crate::proofs::StreamLaws::parts_end))]
fn take_parts(alloc: Global, reader: &mut Reader, lines: &mut Lines) -> Result<(), ScriptFault>
    ensures read { OnOk result (stream_behind reader.new (texts_left lines.new) ≡ stream_by reader.old (texts_left lines.old)) }
    ensures fault { IfErr result (λ fault. IsFault fault (stream_by reader.old (texts_left lines.old))) }
{
    while let Some(line) = next_part(alloc, lines)? {
        reader.take(alloc, line)?;
    }
    Ok(())
}

/// Reads the stream of a text.
#[tactic(auto, using(crate::proofs::StreamLaws::schema_found, crate::proofs::StreamLaws::schema_fails))]
fn read_text<'a>(alloc: Global, text: &'a [u8]) -> Result<Stream<'a>, ScriptFault>
    requires { length text.now ≤ byte_limit + 1 }
    ensures read { Gives result (stream_of text.now) }
    ensures schema { IfOk result (λ stream. IsSchema stream.schema) }
{
    let mut place = Lines::of_text(text);
    let mut reader = open(alloc, &mut place)?;
    take_parts(alloc, &mut reader, &mut place)?;
    let schema = reader.into_schema(alloc)?;
    schema.stands();
    Ok(Stream {
        schema,
        lines: StreamLines { place },
    })
}

/// Reads the schema of a saved stream. The first line that says something is a schema line, and so is each
/// one behind it up to the first that isn't an object of the one member `schema`. All others are
/// notification lines, whatever they hold.
///
/// The fault is that of the first schema line that has one, with the limits and the least fault that it
/// would have in a script; without a line, the line after the last has `Order`. Notification lines have no
/// limit but that of the bytes.
pub fn read_stream<'a>(alloc: Global, bytes: &'a [u8]) -> Result<Stream<'a>, ScriptFault>
    ensures read { Gives result (stream_in bytes.now) }
    ensures schema { IfOk result (λ stream. IsSchema stream.schema) }
{
    let (text, _) = bytes.split_at(bytes.len().min(BYTE_LIMIT + 1));
    read_text(alloc, text)
}

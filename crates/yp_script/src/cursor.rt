//! The lines of a script, one after another.
ghost use Rattle.std.specs.Prelude.{◌≡◌, ◌+◌, ◌-◌, ◌^◌, ◌<◌, ◌≤◌, length};

use crate::lines::{first_line, is_blank_line, json_within, text_within};
use serde_json::Value as Json;
use std::alloc::Global;
use yp_base::memory::NoMemory;
use yp_command::fault::{Flaw, ScriptKind};

/// The most lines of a script.
pub const LINE_LIMIT: u32 = 100_000;

/// The most bytes of a script.
pub const BYTE_LIMIT: usize = 67_108_864;

/// A line that says something: its number, and its JSON or the fault for which it has none.
#[derive(Drop)]
pub struct Line {
    pub number: u32,
    pub json: Result<Json, Flaw>,
}

/// A line as it stands: its number, and its text without its line feed, or `Limit` where it is the line in
/// which the first byte past the limit of bytes lies.
#[derive(Clone, Copy)]
pub struct TextLine<'a> {
    pub number: u32,
    pub text: Result<&'a [u8], ScriptKind>,
}

/// A place between two lines of a text.
#[derive(Clone, Copy)]
pub struct Lines<'a> {
    /// what stands behind the place
    pub rest: &'a [u8],
    /// how many lines stand before it
    pub number: u32,
    /// how many bytes stand before it
    pub at: usize,
    ghost in_range: { number ≤ at },
    ghost short: { at + length rest.now < 2 ^ 32 - 1 },
}

impl<'a> Lines<'a> {
    ghost use Rattle.std.specs.Prelude.{◌≡◌, ◌+◌, ◌-◌, ◌^◌, ◌<◌, ◌≤◌, ◌∷◌, length, take, [], IfOk, OnOk, IsSome, IsNone};
    ghost use Rattle.yp_script.specs.Lines.{is_in_script, lines_from, texts_from, pieces_of, without_feed};
    ghost use Rattle.yp_script.specs.Cursor.{lines_left, texts_left, last_number, Finds, FindsText};

    /// The place before the first line.
    pub fn of_text(text: &'a [u8]) -> Lines<'a>
        requires { length text.now < 2 ^ 32 - 1 }
        ensures left { lines_left result ≡ lines_from 0 0 (pieces_of text.now) }
        ensures texts { texts_left result ≡ texts_from 0 0 (pieces_of text.now) }
        ensures last { last_number result ≡ length (pieces_of text.now) }
    {
        Lines {
            rest: text,
            number: 0,
            at: 0,
        }
    }

    /// The next line, without its line feed; the place is behind it then.
    fn pass(&mut self) -> &'a [u8]
        requires { 0 < length self.old.rest.now }
        ensures pieces { pieces_of self.old.rest.now ≡ take (length self.old.rest.now - length self.new.rest.now) self.old.rest.now ∷ pieces_of self.new.rest.now }
        ensures line { result.now ≡ without_feed (take (length self.old.rest.now - length self.new.rest.now) self.old.rest.now) }
        ensures shorter { length self.new.rest.now < length self.old.rest.now }
        ensures number { self.new.number ≡ self.old.number + 1 }
        ensures at { self.new.at ≡ self.old.at + (length self.old.rest.now - length self.new.rest.now) }
    {
        let (text, rest) = first_line(self.rest);
        self.at += self.rest.len() - rest.len();
        self.number += 1;
        self.rest = rest;
        text
    }

    /// The next line that says something; the place is behind it then.
    pub fn next(&mut self, alloc: Global) -> Result<Option<Line>, NoMemory>
        ensures found { IfOk result (λ line. Finds line (lines_left self.old) (lines_left self.new)) }
        ensures last { OnOk result (last_number self.new ≡ last_number self.old) }
        ensures shorter { IfOk result (λ line. IsSome line → length self.new.rest.now < length self.old.rest.now) }
        ensures end { IfOk result (λ line. IsNone line → self.new.rest.now ≡ []) }
    {
        while !self.rest.is_empty() {
            let text = self.pass();
            let within = self.number <= LINE_LIMIT && self.at <= BYTE_LIMIT;
            if !(within && is_blank_line(text)) {
                return Ok(Some(Line {
                    number: self.number,
                    json: json_within(alloc, self.number, within, text)?,
                }));
            }
        }
        Ok(None)
    }

    /// The next line that says something, or in which the first byte past the limit of bytes lies, as it
    /// stands; the place is behind it then. It takes no memory.
    pub fn next_text(&mut self) -> Option<TextLine<'a>>
        ensures found { FindsText result (texts_left self.old) (texts_left self.new) }
        ensures last { last_number self.new ≡ last_number self.old }
        ensures shorter { IsSome result → length self.new.rest.now < length self.old.rest.now }
        ensures end { IsNone result → self.new.rest.now ≡ [] }
    {
        while !self.rest.is_empty() {
            let text = self.pass();
            let within = self.at <= BYTE_LIMIT;
            if !(within && is_blank_line(text)) {
                return Some(TextLine {
                    number: self.number,
                    text: text_within(within, text),
                });
            }
        }
        None
    }
}

//! The values of leaves as texts and as JSON, and JSON that waits for its turn.
//!
//! `text` reads and writes the text of a value of a type, in its canonical form (RFC 7950 section 9), and
//! `json` its JSON (RFC 7951 section 6). What is written is read again as the same value. A
//! `enumeration` puts the names of an enumeration into order. `payload::Payload` is a JSON value that is handed on and read later. `members` finds members of JSON objects.
//! Contracts see a text as the list of its bytes, and a payload as its data. What a text or JSON of a type
//! is stands in `specs/Texts.antt` and `specs/Json.antt`.
#![tactic(auto)]

pub mod enumeration;
pub mod json;
pub mod members;
mod nesting;
mod number;
pub mod payload;
pub mod text;

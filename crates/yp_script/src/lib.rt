//! Scripts: what is asked of the publisher, in lines of JSON.
//!
//! `reading::read_script` reads a script from bytes, or answers its first line with a fault and the least
//! of that line's faults, with its cause in words. Contracts see a script as its start in seconds, its
//! schema as a list of nodes, its receivers as the list of them in declared order, and its commands as
//! lists. What a script is stands in `specs/Script.antt`, as a fold of its lines; the forms of lines in
//! `specs/Forms.antt`, what each says in `specs/Values.antt`, and the order of lines in
//! `specs/Order.antt`. What a command in a line says is told by `yp_command`. Lines are JSON texts (RFC
//! 8259).
//!
//! `stream::read_stream` reads the schema that a saved stream begins with, and gives the notification lines
//! behind it as they stand, one after another (`specs/Stream.antt`).
#![tactic(auto)]

mod cursor;
pub mod fault;
mod form;
mod gathered;
mod lane;
mod lines;
mod parts;
mod reader;
pub mod reading;
mod receiver;
pub mod script;
mod stage;
mod start;
pub mod stream;

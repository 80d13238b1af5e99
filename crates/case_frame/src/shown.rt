//! Answers of cases, in JSON without spaces.
use crate::fault::{CaseFault, OrFault};
use serde_json::Value as Json;
use std::alloc::{AllocError, Global};
use yp_base::atom::Atom;
use yp_base::keys::Keys;
use yp_base::leaf_type::{LeafType, Names};
use yp_base::path::{Path, Seg};
use yp_base::row::{Rows, Value};
use yp_base::txt::Txt;

/// What is shown of a call's answer, if the call is there.
pub type Answer = OrFault<Option<String>>;

/// A text that is being written. Where memory runs out for a part of it, `done` says so.
#[derive(Drop)]
pub struct Told {
    alloc: Global,
    text: String,
    is_whole: bool,
}

impl Told {
    /// With no text yet.
    pub fn new(alloc: Global) -> Told {
        Told {
            alloc,
            text: String::new(alloc),
            is_whole: true,
        }
    }

    /// The text, where there was memory for all of it.
    pub fn done(self) -> OrFault<String> {
        if self.is_whole {
            Ok(self.text)
        } else {
            Err(CaseFault::Memory)
        }
    }

    /// Appends a text as it is.
    pub fn push(&mut self, text: &str) {
        if self.text.push_str(text).is_err() {
            self.is_whole = false;
        }
    }

    /// Appends a text that was just made.
    pub fn put(&mut self, made: Result<String, AllocError>) {
        match made {
            Ok(text) => self.push(text.as_str()),
            Err(_) => self.is_whole = false,
        }
    }

    /// Appends a text in quotes.
    pub fn quoted(&mut self, text: &str) {
        match quoted(self.alloc, text) {
            Ok(text) => self.push(text.as_str()),
            Err(_) => self.is_whole = false,
        }
    }

    /// Appends what another one tells, in quotes.
    pub fn quoted_told(&mut self, other: Told) {
        self.is_whole = self.is_whole && other.is_whole;
        self.quoted(other.text.as_str());
    }

    /// Appends a comma, unless a list has just begun.
    pub fn comma(&mut self) {
        if !self.text.as_str().ends_with('[') {
            self.push(",");
        }
    }

    /// Appends texts, each as one more item of a list.
    pub fn texts(&mut self, texts: &[Txt]) {
        for text in texts {
            self.comma();
            self.quoted(text.as_str());
        }
    }

    /// Appends an atom: `true`, `7`, `"lo"`, `{"int":-7}` or `{"dec":[-50,2]}`.
    pub fn atom(&mut self, atom: &Atom) {
        let alloc = self.alloc;
        match atom {
            Atom::Bool(truth) => self.push(truth_word(*truth)),
            Atom::Int(number) => self.put(format!(in alloc; "{{\"int\":{number}}}")),
            Atom::Uint(number) => self.put(format!(in alloc; "{number}")),
            Atom::Dec { units, places } => {
                self.put(format!(in alloc; "{{\"dec\":[{units},{places}]}}"));
            }
            Atom::Text(text) => self.quoted(text.as_str()),
        }
    }

    /// Appends an atom without its type: `true`, `7`, `lo`, `-7` or `-50/2`.
    pub fn plain_atom(&mut self, atom: &Atom) {
        let alloc = self.alloc;
        match atom {
            Atom::Bool(truth) => self.push(truth_word(*truth)),
            Atom::Int(number) => self.put(format!(in alloc; "{number}")),
            Atom::Uint(number) => self.put(format!(in alloc; "{number}")),
            Atom::Dec { units, places } => self.put(format!(in alloc; "{units}/{places}")),
            Atom::Text(text) => self.push(text.as_str()),
        }
    }

    /// Appends keys, each as one more item of a list.
    pub fn keys(&mut self, keys: &Keys) {
        for key in keys.items() {
            self.comma();
            self.atom(key);
        }
    }

    /// Appends a segment: the number of its node, and its keys.
    pub fn segment(&mut self, segment: &Seg) {
        let alloc = self.alloc;
        let node = segment.node;
        self.put(format!(in alloc; "[{node}"));
        self.keys(&segment.keys);
        self.push("]");
    }

    /// Appends a path: its segments.
    pub fn path(&mut self, path: &Path) {
        self.push("[");
        for segment in path.items() {
            self.comma();
            self.segment(segment);
        }
        self.push("]");
    }

    /// Appends what a row holds: an atom, `["member"]`, `["empty"]` or `["present"]`.
    pub fn value(&mut self, value: &Value) {
        match value {
            Value::Atom(atom) => self.atom(atom),
            Value::Member => self.push("[\"member\"]"),
            Value::Empty => self.push("[\"empty\"]"),
            Value::Present => self.push("[\"present\"]"),
        }
    }

    /// Appends what a row holds: an atom without its type, `member`, `empty` or `present`.
    pub fn plain_value(&mut self, value: &Value) {
        match value {
            Value::Atom(atom) => self.plain_atom(atom),
            Value::Member => self.push("member"),
            Value::Empty => self.push("empty"),
            Value::Present => self.push("present"),
        }
    }

    /// Appends a row: its path and what it holds.
    pub fn row(&mut self, path: &Path, value: &Value) {
        self.push("[");
        self.path(path);
        self.push(",");
        self.value(value);
        self.push("]");
    }

    /// Appends rows.
    pub fn rows(&mut self, rows: &Rows) {
        self.push("[");
        for row in rows.items() {
            self.comma();
            self.row(&row.path, &row.value);
        }
        self.push("]");
    }

    fn names(&mut self, names: &Names) {
        self.push("[\"names\"");
        self.texts(names.items());
        self.push("]");
    }

    /// Appends a type: `"bool"`, `["int",8]`, `["dec",2]` or `["names","down","up"]`.
    pub fn leaf_type(&mut self, ty: &LeafType) {
        let alloc = self.alloc;
        match ty {
            LeafType::Bool => self.quoted("bool"),
            LeafType::Int { bits } => self.put(format!(in alloc; "[\"int\",{bits}]")),
            LeafType::Uint { bits } => self.put(format!(in alloc; "[\"uint\",{bits}]")),
            LeafType::Dec { places } => self.put(format!(in alloc; "[\"dec\",{places}]")),
            LeafType::Text => self.quoted("text"),
            LeafType::Names(names) => self.names(names),
            LeafType::Empty => self.quoted("empty"),
        }
    }
}

/// A text as it is.
pub fn plain(alloc: Global, text: &str) -> OrFault<String> {
    Ok(String::from_str(alloc, text)?)
}

/// A text in quotes.
pub fn quoted(alloc: Global, text: &str) -> OrFault<String> {
    let json = Json::String(String::from_str(alloc, text)?);
    Ok(json.to_string(alloc)?)
}

fn truth_word(truth: bool) -> &'static str {
    if truth { "true" } else { "false" }
}

/// Whether something is so.
pub fn truth(alloc: Global, truth: bool) -> OrFault<String> {
    plain(alloc, truth_word(truth))
}

/// An atom.
pub fn atom(alloc: Global, atom: &Atom) -> OrFault<String> {
    let mut told = Told::new(alloc);
    told.atom(atom);
    told.done()
}

/// A path.
pub fn path(alloc: Global, path: &Path) -> OrFault<String> {
    let mut told = Told::new(alloc);
    told.path(path);
    told.done()
}

/// What a row holds.
pub fn value(alloc: Global, value: &Value) -> OrFault<String> {
    let mut told = Told::new(alloc);
    told.value(value);
    told.done()
}

/// Rows.
pub fn rows(alloc: Global, rows: &Rows) -> OrFault<String> {
    let mut told = Told::new(alloc);
    told.rows(rows);
    told.done()
}

/// A type.
pub fn leaf_type(alloc: Global, ty: &LeafType) -> OrFault<String> {
    let mut told = Told::new(alloc);
    told.leaf_type(ty);
    told.done()
}

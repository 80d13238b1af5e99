//! Texts of lines that causes tell.
use std::alloc::Global;
use std::fmt;
use yp_base::memory::NoMemory;

/// A text of a line, or `...` where there was no memory for it.
#[derive(Drop)]
pub struct Excerpt {
    text: Option<String>,
}

impl Excerpt {
    /// No text.
    pub fn none() -> Excerpt {
        Excerpt { text: None }
    }

    /// This text.
    pub fn of(alloc: Global, text: &str) -> Excerpt {
        Excerpt {
            text: String::from_str(alloc, text).ok(),
        }
    }

    /// The text that was made of it, where there was memory for it.
    pub fn made(text: Result<String, NoMemory>) -> Excerpt {
        Excerpt { text: text.ok() }
    }

    /// The text.
    pub fn as_str(&self) -> &str {
        match &self.text {
            Some(text) => text.as_str(),
            None => "...",
        }
    }
}

impl fmt::Display for Excerpt {
    fn fmt<W: fmt::Write>(&self, f: &mut fmt::Formatter<W>) -> fmt::Result {
        write!(f, "{}", self.as_str())
    }
}

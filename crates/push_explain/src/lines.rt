//! The lines of a script, of which some are replaced.
use serde_json::Value as Json;
use std::alloc::Global;
use yp_base::memory::NoMemory;

/// The lines of a script, each without its line feed.
#[derive(Drop)]
pub struct Lines<'a> {
    pub texts: Vec<&'a [u8]>,
}

impl<'a> Lines<'a> {
    /// The lines of a text.
    pub fn of_text(alloc: Global, text: &'a [u8]) -> Result<Lines<'a>, NoMemory> {
        let mut texts = Vec::new(alloc);
        for line in text.split(|byte| *byte == b'\n') {
            texts.push(line)?;
        }
        Ok(Lines { texts })
    }

    /// The text of the lines.
    pub fn text(&self, alloc: Global) -> Result<Vec<u8>, NoMemory> {
        self.text_before(alloc, u32::MAX)
    }

    /// The text of the lines before the one of a number.
    pub fn text_before(&self, alloc: Global, number: u32) -> Result<Vec<u8>, NoMemory> {
        let mut text = Vec::new(alloc);
        let mut left = number.saturating_sub(1);
        let mut is_first = true;
        for line in self.texts.as_slice() {
            if left == 0 {
                break;
            }
            left -= 1;
            if !is_first {
                text.push(b'\n')?;
            }
            text.extend_from_slice(line)?;
            is_first = false;
        }
        Ok(text)
    }

    /// The line of a number, from 1 on, where it is there.
    pub fn get(&self, number: u32) -> Option<&'a [u8]> {
        self.texts.get((number as usize).checked_sub(1)?).copied()
    }

    /// Puts a text in place of a line.
    pub fn replace(&mut self, number: u32, text: &'a [u8]) {
        if let Some(place) = (number as usize).checked_sub(1) {
            if let Some(line) = self.texts.get_mut(place) {
                *line = text;
            }
        }
    }
}

/// The JSON of a line, where it is JSON.
pub fn json_of(alloc: Global, text: &[u8]) -> Result<Option<Json>, NoMemory> {
    match std::str::from_utf8(text) {
        Ok(text) => match Json::from_str(alloc, text) {
            Ok(json) => Ok(Some(json)),
            Err(error) => {
                if error.is_memory() {
                    Err(NoMemory)
                } else {
                    Ok(None)
                }
            }
        },
        Err(_) => Ok(None),
    }
}

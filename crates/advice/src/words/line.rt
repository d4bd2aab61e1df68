//! A line that is written piece by piece.

use listings::printed_names::push_printed;
use std::alloc::{AllocError, Global};

/// So many bytes of a name are told at most.
const MOST_OF_A_NAME: usize = 200;

/// A line without its end.
#[derive(Drop)]
pub struct Line {
    alloc: Global,
    bytes: Vec<u8>,
}

impl Line {
    /// The empty line.
    pub fn new(alloc: Global) -> Line {
        Line {
            alloc,
            bytes: Vec::new(alloc),
        }
    }

    /// What allocates it.
    pub(crate) fn alloc(&self) -> Global {
        self.alloc
    }

    /// Adds words.
    pub fn say(&mut self, words: &str) -> Result<(), AllocError> {
        Ok(self.bytes.extend_from_slice(words.as_bytes())?)
    }

    /// Adds a name, so that no control character of it stands in the line.
    pub fn name(&mut self, name: &[u8]) -> Result<(), AllocError> {
        push_printed(&mut self.bytes, name)
    }

    /// Adds a name as it stands; of one that is very long the begin, and dots.
    pub(crate) fn raw(&mut self, name: &[u8]) -> Result<(), AllocError> {
        match name.get(..MOST_OF_A_NAME) {
            Some(begin) if begin.len() < name.len() => {
                self.bytes.extend_from_slice(begin)?;
                self.say("..")
            }
            _ => Ok(self.bytes.extend_from_slice(name)?),
        }
    }

    /// Adds a number.
    pub fn number(&mut self, number: usize) -> Result<(), AllocError> {
        let digits = format!(in self.alloc; "{number}")?;
        self.say(digits.as_str())
    }

    /// Adds a byte as two hexadecimal digits.
    pub fn byte(&mut self, byte: u8) -> Result<(), AllocError> {
        let digits = format!(in self.alloc; "{byte:02x}")?;
        self.say(digits.as_str())
    }

    /// The bytes of the line.
    pub fn into_bytes(self) -> Vec<u8> {
        self.bytes
    }
}

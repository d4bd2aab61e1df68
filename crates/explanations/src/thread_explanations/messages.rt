//! What the exception that ended a thread tells: its class, its message and its causes (the API of Throwable).

use crate::thread_explanations::lines::Facts;
use machine_state::method_selection::class_of_kind;
use machine_state::raised_exceptions::{CAUSE, MESSAGE};
use schedule::report::push_text;
use std::alloc::{AllocError, Global};
use traces::push_words;

/// How many causes are told at most: an exception may be its own cause.
const MOST_CAUSES: usize = 16;

/// A name with dots for slashes.
fn push_dotted(line: &mut Vec<u8>, name: &[u8]) -> Result<(), AllocError> {
    for byte in name {
        line.push(if *byte == b'/' { b'.' } else { *byte })?;
    }
    Ok(())
}

/// The units of a String, by its words.
fn units_of(alloc: Global, words: &[u32]) -> Result<Vec<u16>, AllocError> {
    let mut units = Vec::with_capacity(alloc, words.len())?;
    for word in words {
        units.push(u16::try_from(*word).unwrap_or(0))?;
    }
    Ok(units)
}

impl Facts<'_> {
    /// The message of an exception, if it has one: `: not enough`.
    fn push_message(&self, line: &mut Vec<u8>, exception: u32) -> Result<(), AllocError> {
        let heap = &self.shared.heap;
        let Some(message) = heap.get_field(exception, MESSAGE).checked_sub(1) else {
            return Ok(());
        };
        push_words(line, ": ")?;
        push_text(line, &units_of(self.alloc, heap.words(message))?)
    }

    /// Behind words the class of an exception, with dots, and its message: `java.lang.Error: not enough`.
    fn push_told(
        &self,
        lines: &mut Vec<Vec<u8>>,
        words: &str,
        exception: u32,
    ) -> Result<(), AllocError> {
        let mut line = Vec::new(self.alloc);
        push_words(&mut line, words)?;
        if let Some(kind) = self.shared.heap.class_of(exception) {
            push_dotted(&mut line, self.names.class_name(class_of_kind(kind)))?;
        }
        self.push_message(&mut line, exception)?;
        lines.push(line)?;
        Ok(())
    }

    /// A line for an exception, and one for each of its causes, as far as they are told.
    pub(crate) fn push_exception(
        &self,
        lines: &mut Vec<Vec<u8>>,
        exception: u32,
    ) -> Result<(), AllocError> {
        self.push_told(lines, "", exception)?;
        let mut last = exception;
        for _ in 0..MOST_CAUSES {
            let Some(cause) = self.shared.heap.get_field(last, CAUSE).checked_sub(1) else {
                return Ok(());
            };
            self.push_told(lines, "caused by ", cause)?;
            last = cause;
        }
        Ok(())
    }
}

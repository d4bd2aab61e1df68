//! What is told to a person behind a report or a complaint.

ghost use Rattle.std.specs.Prelude.{◌≡◌, ◌⊎◌, [], ◌++◌};

use crate::status::Status;
use std::alloc::{AllocError, Global};
use std::io;
use std::marker::Model;

/// How many events are done again, at the most, for what the words don't ask for.
const MOST_EVENTS: u64 = 100_000_000;

/// How many times they are done where an exception ended a thread, at the most.
const MOST_TIMES: u64 = 3;

/// What is told to a person: as lines, each ended. It is wanted where the words ask for it, and it may be wanted
/// anyway. Contracts see the lines.
#[derive(Drop)]
pub struct Explanation {
    is_wanted: bool,
    text: Vec<u8>,
    /// The file that couldn't be written, and the system's reason.
    unwritten: Option<String>,
}

impl Model for Explanation {
    ghost use Rattle.std.specs.Prelude.{ℕ, List};

    ghost Value = { List ℕ };

    ghost view = { λ e. e.text.items };
}

impl Explanation {
    /// One without a line.
    pub fn new(alloc: Global, is_wanted: bool) -> Explanation {
        Explanation {
            is_wanted,
            text: Vec::new(alloc),
            unwritten: None,
        }
    }

    /// Its lines.
    pub fn text(&self) -> &[u8] {
        self.text.as_slice()
    }

    /// Whether a file that was asked for couldn't be written.
    pub fn is_file_lost(&self) -> bool {
        self.unwritten.is_some()
    }

    /// Whether it is wanted where the words don't ask for it.
    pub(crate) fn is_wanted(&self) -> bool {
        self.is_wanted
    }

    /// The file that couldn't be written, and the system's reason, if there is one.
    pub(crate) fn unwritten(&self) -> Option<&str> {
        self.unwritten.as_deref()
    }

    /// Keeps that the file at a path couldn't be written, and the system's reason.
    pub(crate) fn keep_unwritten(&mut self, alloc: Global, path: &str, error: &io::Error) {
        self.unwritten = format!(in alloc; "{path}: {error}").ok();
    }

    /// How many events may be done again to tell why a run ended with this status, if that is to be told.
    pub(crate) fn most_events(
        &self,
        status: Status,
        is_asked: bool,
        is_quiet: bool,
    ) -> Option<u64> {
        if is_quiet || status == Status::Returned || !(is_asked || self.is_wanted) {
            return None;
        }
        match status {
            _ if is_asked => Some(u64::MAX),
            Status::Threw => Some(MOST_EVENTS / MOST_TIMES),
            _ => Some(MOST_EVENTS),
        }
    }

    /// Tells these lines, if there are some.
    pub(crate) fn tell(&mut self, lines: Option<Vec<u8>>) {
        if let Some(lines) = lines {
            self.text = lines;
        }
    }

    /// Tells this line, too, if there is one, and memory for it.
    pub(crate) fn tell_more(&mut self, line: Result<String, AllocError>) {
        if let Ok(line) = line {
            let _ = self.text.extend_from_slice(line.as_bytes());
        }
    }

    /// Tells these lines, too, behind those that are; or not, where there is no memory for them.
    pub(crate) fn add(&mut self, lines: Vec<u8>)
        ensures { (self.new ≡ self.old) ⊎ (self.new ≡ self.old ++ lines.items) }
    {
        let _ = self.text.extend_from_slice(&lines);
    }
}

//! What an object of JSON tells of what an event did, for programs to read, beside its words.

ghost use Rattle.std.specs.Prelude.{◌≡◌, ◌++◌, OnOk};
ghost use Rattle.traces.specs.Lines.{deed_members, number_if, text_if};

use crate::json::{push_number_member, push_text_member};
use std::alloc::AllocError;

/// What was done. An empty text is not told.
#[derive(Clone, Copy)]
pub(crate) struct DeedMembers<'a> {
    /// A word for what was done: `reads`, `enters`, `starts` ..
    pub(crate) op: &'a [u8],
    /// The object whose monitor was entered or left.
    pub(crate) monitor: &'a [u8],
    /// How often the thread has entered it since.
    pub(crate) count: Option<u32>,
    /// How many UTF-16 code units are printed since, all together, where some were.
    pub(crate) printed: Option<usize>,
    /// The number of the thread that was started.
    pub(crate) started: Option<u16>,
    /// Its Thread object.
    pub(crate) object: &'a [u8],
}

/// A member whose value is a text, if there is one.
fn push_text_if(text: &mut Vec<u8>, key: &str, words: &[u8]) -> Result<(), AllocError>
    ensures { OnOk result (text.new.items ≡ text.old.items ++ text_if key.now words.now) }
{
    if words.is_empty() {
        return Ok(());
    }
    push_text_member(text, key, words)
}

/// A member whose value is a number, if there is one.
fn push_number_if(text: &mut Vec<u8>, key: &str, number: Option<u64>) -> Result<(), AllocError>
    ensures { OnOk result (text.new.items ≡ text.old.items ++ number_if key.now number) }
{
    match number {
        Some(number) => push_number_member(text, key, number),
        None => Ok(()),
    }
}

/// The number of a count, if there is one.
fn count_of(count: Option<u32>) -> Option<u64>
    ensures { result ≡ count }
{
    match count {
        Some(count) => Some(u64::from(count)),
        None => None,
    }
}

/// The number of how much there is, if it is told.
fn length_of(length: Option<usize>) -> Option<u64>
    ensures { result ≡ length }
{
    match length {
        Some(length) => Some(length as u64),
        None => None,
    }
}

/// The number of a thread, if there is one.
fn thread_of(thread: Option<u16>) -> Option<u64>
    ensures { result ≡ thread }
{
    match thread {
        Some(thread) => Some(u64::from(thread)),
        None => None,
    }
}

/// Writes what was done behind the members of an object.
pub(crate) fn push_deed_members(text: &mut Vec<u8>, told: DeedMembers<'_>) -> Result<(), AllocError>
    ensures { OnOk result (text.new.items ≡ text.old.items ++ deed_members told.entry) }
{
    push_text_if(text, "op", told.op)?;
    push_text_if(text, "monitor", told.monitor)?;
    push_number_if(text, "count", count_of(told.count))?;
    push_number_if(text, "printed", length_of(told.printed))?;
    push_number_if(text, "started", thread_of(told.started))?;
    push_text_if(text, "object", told.object)
}

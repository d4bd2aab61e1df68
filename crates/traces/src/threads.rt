//! Threads as a trace writes them.

ghost use Rattle.std.specs.Prelude.{◌≡◌, ◌++◌, OnOk};
ghost use Rattle.traces.specs.Lines.{thread_words};

use crate::names::ProgramNames;
use crate::numbers::{push_number, push_words};
use machine_state::Shared;
use std::alloc::AllocError;

/// Writes a thread by its number behind a text: `thread 1`.
pub fn push_thread(text: &mut Vec<u8>, thread: u16) -> Result<(), AllocError>
    ensures { OnOk result (text.new.items ≡ text.old.items ++ thread_words thread) }
{
    push_words(text, "thread ")?;
    push_number(text, u64::from(thread))
}

/// The thread of a Thread object, or the object, where its thread was not started.
pub(crate) fn push_thread_of(
    text: &mut Vec<u8>,
    names: &ProgramNames<'_>,
    shared: &Shared,
    object: u32,
) -> Result<(), AllocError> {
    match shared.threads.number(object) {
        Some(thread) => push_thread(text, thread),
        None => names.push_object(text, &shared.heap, object),
    }
}

/// `thread 1`, `threads 1, 2`, or `no thread`.
pub(crate) fn push_threads(text: &mut Vec<u8>, threads: &[u16]) -> Result<(), AllocError> {
    match threads {
        [] => push_words(text, "no thread"),
        [thread] => push_thread(text, *thread),
        [first, others @ ..] => {
            push_words(text, "threads ")?;
            push_number(text, u64::from(*first))?;
            for other in others {
                push_words(text, ", ")?;
                push_number(text, u64::from(*other))?;
            }
            Ok(())
        }
    }
}

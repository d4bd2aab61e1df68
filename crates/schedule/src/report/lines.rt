//! The lines of a report.

ghost use Rattle.std.specs.Prelude.{◌≡◌, ◌++◌, OnOk, codes, map};
ghost use Rattle.model.specs.Report.{end_state_of, end_words, line, number, on_one_line, thread_line, thread_lines, thread_word};

use model::{End, EndState};
use std::alloc::{AllocError, Global};

/// A line of these words.
pub fn push_line(text: &mut Vec<u8>, words: &[u8]) -> Result<(), AllocError>
    ensures { OnOk result (text.new.items ≡ text.old.items ++ line words.now) }
{
    text.extend_from_slice(words)?;
    text.push(b'\n')?;
    Ok(())
}

/// A name on one line: a line feed in it is a backslash and an `n`.
fn push_on_one_line(text: &mut Vec<u8>, name: &[u8]) -> Result<(), AllocError>
    ensures { OnOk result (text.new.items ≡ text.old.items ++ on_one_line name.now) }
{
    for byte in name {
        if *byte == b'\n' {
            text.extend_from_slice(b"\\n")?;
        } else {
            text.push(*byte)?;
        }
    }
    Ok(())
}

/// How a thread stands, up to the end of its line.
fn push_state(text: &mut Vec<u8>, state: &EndState) -> Result<(), AllocError>
    ensures { OnOk result (text.new.items ≡ text.old.items ++ line (thread_word (end_state_of state.now))) }
{
    match state {
        EndState::Ended => push_line(text, b"ended"),
        EndState::Threw(name) => {
            text.extend_from_slice(b"threw ")?;
            push_on_one_line(text, name)?;
            text.push(b'\n')?;
            Ok(())
        }
        EndState::Blocked => push_line(text, b"blocked"),
        EndState::Waiting => push_line(text, b"waiting"),
        EndState::Joining => push_line(text, b"joining"),
        EndState::Initialising => push_line(text, b"initialising"),
        EndState::Runnable => push_line(text, b"runnable"),
    }
}

/// Writes the line of a thread of a report behind a text, by its number and how it stands.
pub fn push_thread(
    alloc: Global,
    text: &mut Vec<u8>,
    thread: usize,
    state: &EndState,
) -> Result<(), AllocError>
    ensures { OnOk result (text.new.items ≡ text.old.items ++ thread_line thread (end_state_of state.now)) }
{
    let head = format!(in alloc; "thread {thread} ")?;
    text.extend_from_slice(head.as_bytes())?;
    push_state(text, state)
}

/// A line for each thread.
pub fn push_threads(
    alloc: Global,
    text: &mut Vec<u8>,
    threads: &[EndState],
) -> Result<(), AllocError>
    ensures { OnOk result (text.new.items ≡ text.old.items ++ thread_lines 0 (map end_state_of threads.now)) }
{
    for (thread, state) in threads.iter().enumerate() {
        push_thread(alloc, text, thread, state)?;
    }
    Ok(())
}

/// How many events were done, and why no more were.
pub(crate) fn push_end(
    alloc: Global,
    text: &mut Vec<u8>,
    events: u64,
    end: &End,
) -> Result<(), AllocError>
    ensures { OnOk result (text.new.items ≡ text.old.items
        ++ (line (codes "events " ++ number events) ++ line (codes "end " ++ end_words end.now))) }
{
    push_line(text, format!(in alloc; "events {events}")?.as_bytes())?;
    push_line(text, format!(in alloc; "end {end}")?.as_bytes())
}

//! Threads with their stacks, as rows of words.

ghost use Rattle.std.specs.Prelude.{◌≡◌, ◌<◌, ◌++◌, ◌∷◌, [], length, OnOk, IfOk};
ghost use Rattle.heap.specs.java_threads.Table.{thread_at, with_thread};
ghost use Rattle.kept_parts.specs.Threads.{thread_of, thread_row, IsThreadPushed, IsThreadRead};

use crate::reader::Reader;
use crate::rows::{flag_code, push, push_option, read_flag, read_option};
use crate::stack_rows::{push_stack, read_stack};
use crate::status_rows::{push_status, read_status};
use heap::java_threads::{ThreadStatus, Threads};
use std::alloc::{AllocError, Global};
use thread_stacks::ThreadStack;

/// The row of a thread: what it is about, its object, whether it has begun and is interrupted, the exception that is
/// pending, and its stack.
pub fn push_thread(
    row: &mut Vec<u32>,
    threads: &Threads,
    stack: &ThreadStack,
    thread: u16,
) -> Result<(), AllocError>
    ensures { OnOk result (IsThreadPushed row.old.items row.new.items
        (thread_at threads.now.threads thread) stack.now) }
{
    push_status(row, threads.status(thread))?;
    push(row, threads.object(thread))?;
    push(row, flag_code(threads.begun(thread)))?;
    push(row, flag_code(threads.interrupted(thread)))?;
    push_option(row, threads.pending(thread))?;
    push_stack(row, stack)
}

/// A thread but for its stack.
#[derive(Clone, Copy)]
pub struct Fields {
    pub object: u32,
    pub begun: bool,
    pub pending: Option<u32>,
    pub interrupted: bool,
    pub status: ThreadStatus,
}

/// A thread but for its stack, by the next words.
fn read_fields(reader: &mut Reader<'_>) -> Result<Fields, AllocError>
    ensures { IfOk result (λ fields. reader.old.rest.now ≡ thread_row (thread_of fields) ++ reader.new.rest.now) }
{
    let status = read_status(reader)?;
    let object = reader.next_word()?;
    let begun = read_flag(reader)?;
    let interrupted = read_flag(reader)?;
    let pending = read_option(reader)?;
    Ok(Fields {
        object,
        begun,
        pending,
        interrupted,
        status,
    })
}

/// Sets all of a thread but its object.
fn set_fields(threads: &mut Threads, thread: u16, fields: Fields)
    requires there { thread < length threads.old.threads }
    requires object { (thread_at threads.old.threads thread).object ≡ fields.object }
    ensures { threads.new ≡ with_thread threads.old thread (thread_of fields) }
{
    threads.set_begun(thread, fields.begun);
    threads.set_pending(thread, fields.pending);
    threads.set_interrupted(thread, fields.interrupted);
    threads.set_status(thread, fields.status);
}

/// Adds a thread to a table.
fn add_thread(threads: &mut Threads, fields: Fields) -> Result<(), AllocError>
    ensures { OnOk result (threads.new
        ≡ record threads.old { threads = threads.old.threads ++ thread_of fields ∷ [] }) }
{
    let thread = threads.len() as u16;
    match threads.add(fields.object) {
        Ok(()) => {
            set_fields(threads, thread, fields);
            Ok(())
        }
        Err(_) => Err(AllocError),
    }
}

/// A table with the thread of a row, which is main's, and its stack.
pub fn read_main(
    alloc: Global,
    row: &[u32],
    limit: u32,
) -> Result<(Threads, ThreadStack), AllocError>
    ensures { IfOk result (λ r. IsThreadRead row.now (record { threads = []; limit = limit }) r.0 r.1) }
{
    let mut reader = Reader::new(row);
    let fields = read_fields(&mut reader)?;
    if limit == 0 || limit > 32_767 {
        return Err(AllocError);
    }
    let mut threads = Threads::new(alloc, limit, fields.object)?;
    set_fields(&mut threads, 0, fields);
    let stack = read_stack(alloc, &mut reader)?;
    Ok((threads, stack))
}

/// Adds the thread of a row to a table. Answers its stack.
pub fn read_thread(
    alloc: Global,
    row: &[u32],
    threads: &mut Threads,
) -> Result<ThreadStack, AllocError>
    ensures { IfOk result (IsThreadRead row.now threads.old threads.new) }
{
    let mut reader = Reader::new(row);
    let fields = read_fields(&mut reader)?;
    add_thread(threads, fields)?;
    read_stack(alloc, &mut reader)
}

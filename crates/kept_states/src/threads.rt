//! Threads with their stacks, by numbers.

ghost use Rattle.std.specs.Prelude.{◌≡◌, [], ◌∷◌, length, slice_get, slice_index_or, IfSome, IfOk, OnOk};
ghost use Rattle.kept_states.specs.Kept.{IsNumbered, IsThreadSame};
ghost use Rattle.kept_states.specs.States.{AreThreads, AreThreadsBehind, AreThreadsPushed, IsThreadAdded};
ghost use Rattle.kept_states.specs.States.{IsThreadWritten};

use crate::numbered::Numbered;
use crate::reading::part;
use heap::java_threads::Threads;
use kept_parts::rows::push;
use kept_parts::same::{is_same_stack, is_same_thread};
use kept_parts::thread_rows::{push_thread, read_main, read_thread};
use machine_state::Shared;
use std::alloc::{AllocError, Global};
use thread_stacks::ThreadStack;
use word_table::WordTable;

/// The stack of a thread, if there is one.
#[tactic(auto, using(crate::proofs::Written::stack_read))]
fn stack_at(stacks: &[ThreadStack], thread: u16) -> Option<&ThreadStack>
    ensures { IfSome result (λ stack. slice_index_or stacks.now thread [] ≡ stack.now) }
{
    stacks.get(usize::from(thread))
}

/// The number of this place, if there is one.
fn number_at(numbers: &[u32], place: u16) -> Option<u32>
    ensures { result ≡ slice_get numbers.now place }
{
    numbers.get(usize::from(place)).copied()
}

/// The number of a thread in the state before, if the thread is the same there.
fn thread_before(shared: &Shared, thread: u16, before: &Numbered) -> Option<u32>
    ensures { IfSome result (λ number. IsThreadSame shared.now thread before.now number) }
{
    let number = number_at(before.threads.as_slice(), thread)?;
    let one = stack_at(before.shared.stacks.as_slice(), thread)?;
    let other = stack_at(shared.stacks.as_slice(), thread)?;
    if usize::from(thread) >= before.shared.threads.len() {
        return None;
    }
    if is_same_stack(one, other)
        && is_same_thread(&before.shared.threads, &shared.threads, thread)
    {
        Some(number)
    } else {
        None
    }
}

/// Writes the row of a thread.
#[tactic(auto, using(crate::proofs::Written::thread_written))]
fn written_number(
    parts: &mut WordTable,
    row: &mut Vec<u32>,
    shared: &Shared,
    thread: u16,
) -> Result<u32, AllocError>
    ensures { IfOk result (λ number. IsThreadWritten shared.now thread number parts.old parts.new) }
{
    let Some(stack) = stack_at(shared.stacks.as_slice(), thread) else {
        return Err(AllocError);
    };
    row.clear();
    push_thread(row, &shared.threads, stack, thread)?;
    parts.write(row.as_slice())
}

/// The number of a thread with its stack. What is the same in the state before keeps its number.
#[tactic(auto, using(crate::proofs::Written::same_thread))]
pub(crate) fn thread_number(
    parts: &mut WordTable,
    row: &mut Vec<u32>,
    shared: &Shared,
    thread: u16,
    before: Option<&Numbered>,
) -> Result<u32, AllocError>
    requires { IfSome before (λ b. IsNumbered parts.old b.now) }
    ensures { IfOk result (λ number. IsThreadWritten shared.now thread number parts.old parts.new) }
{
    if let Some(before) = before {
        if let Some(number) = thread_before(shared, thread, before) {
            return Ok(number);
        }
    }
    written_number(parts, row, shared, thread)
}

/// Puts the numbers of all threads behind other words.
#[tactic(auto, using(crate::proofs::Written::none_pushed, crate::proofs::Written::one_pushed))]
pub(crate) fn push_threads(
    parts: &mut WordTable,
    row: &mut Vec<u32>,
    state: &mut Vec<u32>,
    shared: &Shared,
    before: Option<&Numbered>,
) -> Result<(), AllocError>
    requires { IfSome before (λ b. IsNumbered parts.old b.now) }
    ensures pushed { OnOk result (AreThreadsPushed shared.now (length shared.now.threads.threads)
        state.old.items state.new.items parts.old parts.new) }
    ensures stacks { OnOk result (length shared.now.stacks.items ≡ length shared.now.threads.threads) }
{
    if shared.stacks.len() != shared.threads.len() {
        return Err(AllocError);
    }
    'threads: for thread in 0..shared.threads.len() {
        let number = thread_number(parts, row, shared, thread as u16, before)?;
        push(state, number)?;
    }
    Ok(())
}

/// The thread of a number, with its stack, behind the others.
fn read_one(
    alloc: Global,
    parts: &WordTable,
    number: u32,
    threads: &mut Threads,
    stacks: &mut Vec<ThreadStack>,
) -> Result<(), AllocError>
    ensures { OnOk result (IsThreadAdded parts.now number threads.old stacks.old.items threads.new stacks.new.items) }
{
    let row = part(parts, number)?;
    let stack = read_thread(alloc, row, threads)?;
    stacks.push(stack)?;
    Ok(())
}

/// The threads of these numbers, with their stacks, behind the others.
#[tactic(auto, using(crate::proofs::Written::none_behind, crate::proofs::Written::one_added))]
fn read_others(
    alloc: Global,
    parts: &WordTable,
    others: &[u32],
    threads: &mut Threads,
    stacks: &mut Vec<ThreadStack>,
) -> Result<(), AllocError>
    ensures threads { OnOk result (AreThreadsBehind parts.now others.now threads.old.threads stacks.old.items
        threads.new.threads stacks.new.items) }
    ensures limit { OnOk result (threads.new.limit ≡ threads.old.limit) }
{
    'others: for number in others {
        read_one(alloc, parts, *number, threads, stacks)?;
    }
    Ok(())
}

/// The first of these numbers, and the others. An error where there is none.
fn first_of(numbers: &[u32]) -> Result<(u32, &[u32]), AllocError>
    ensures { IfOk result (λ r. numbers.now ≡ r.0 ∷ r.1.now) }
{
    match numbers.split_first() {
        Some((first, others)) => Ok((*first, others)),
        None => Err(AllocError),
    }
}

/// The threads of these numbers, with their stacks.
pub(crate) fn read_threads(
    alloc: Global,
    parts: &WordTable,
    limit: u32,
    numbers: &[u32],
) -> Result<(Threads, Vec<ThreadStack>), AllocError>
    ensures threads { IfOk result (λ r. AreThreads parts.now numbers.now r.0.threads r.1.items) }
    ensures limit { IfOk result (λ r. r.0.limit ≡ limit) }
{
    let (main, others) = first_of(numbers)?;
    let row = part(parts, main)?;
    let (mut threads, stack) = read_main(alloc, row, limit)?;
    let mut stacks = Vec::with_capacity(alloc, numbers.len())?;
    stacks.push(stack)?;
    read_others(alloc, parts, others, &mut threads, &mut stacks)?;
    Ok((threads, stacks))
}

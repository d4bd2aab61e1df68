//! Deadlocks in words: each cycle of threads of which each waits for the next one.

ghost use Rattle.std.specs.Prelude.{◌≡◌, ◌++◌, [], if◌then◌else◌, OnOk, codes, map, vec_items};
ghost use Rattle.std.specs.List.{flat_map, list_any};
ghost use Rattle.machine.specs.machine_reports.Told.{is_runnable};
ghost use Rattle.model.specs.Report.{end_state_of, line};
ghost use Rattle.explanations.specs.thread_explanations.Deadlocks as words;

use crate::thread_explanations::awaited::Awaited;
use crate::thread_explanations::cycles::next_of;
use crate::thread_explanations::waits::Wait;
use model::EndState;
use std::alloc::AllocError;
use traces::{push_thread, push_words};

fn is_end(awaited: Awaited) -> bool
    ensures { result ≡ words.is_end awaited }
{
    matches!(awaited, Awaited::End(_))
}

/// Whether a thread waits in a call of `Thread.join`, which an interrupt ends (JLS 17.2.3).
fn joins(waits: &[Wait], thread: u16) -> bool
    ensures { result ≡ words.joins waits.now thread }
{
    match waits.get(usize::from(thread)) {
        Some(wait) => is_end(wait.awaited),
        None => false,
    }
}

/// Whether one of these threads does.
fn any_joins(waits: &[Wait], cycle: &[u16]) -> bool
    ensures { result ≡ list_any (words.joins waits.now) cycle.now }
{
    cycle.iter().any(|thread| joins(waits, *thread))
}

/// Whether a thread that stands so goes on.
fn goes_on(end: &EndState) -> bool
    ensures { result ≡ is_runnable (end_state_of end.now) }
{
    matches!(end, EndState::Runnable)
}

/// Whether one of these does.
fn any_goes_on(ends: &[EndState]) -> bool
    ensures { result ≡ list_any (λ end. is_runnable (end_state_of end)) ends.now }
{
    ends.iter().any(goes_on)
}

/// Whether a thread that goes on could end a wait of the cycle by an interrupt.
fn may_be_ended(waits: &[Wait], ends: &[EndState], cycle: &[u16]) -> bool
    ensures { result ≡ words.may_be_ended waits.now ends.now cycle.now }
{
    any_joins(waits, cycle) && any_goes_on(ends)
}

/// `thread 2`, or `itself`.
fn push_next(line: &mut Vec<u8>, thread: u16, next: Option<u16>) -> Result<(), AllocError>
    ensures { OnOk result (line.new.items ≡ line.old.items ++ words.next_words thread next) }
{
    match next {
        None => Ok(()),
        Some(next) => {
            if next == thread {
                push_words(line, "itself")
            } else {
                push_thread(line, next)
            }
        }
    }
}

/// `thread 1 waits for thread 2`.
fn push_wait(line: &mut Vec<u8>, waits: &[Wait], thread: u16) -> Result<(), AllocError>
    ensures { OnOk result (line.new.items ≡ line.old.items ++ words.wait_words waits.now thread) }
{
    push_thread(line, thread)?;
    push_words(line, " waits for ")?;
    push_next(line, thread, next_of(waits, thread))
}

/// `, thread 1 waits for thread 2`.
fn push_other(line: &mut Vec<u8>, waits: &[Wait], thread: u16) -> Result<(), AllocError>
    ensures { OnOk result (line.new.items ≡ line.old.items ++ (codes ", " ++ words.wait_words waits.now thread)) }
{
    push_words(line, ", ")?;
    push_wait(line, waits, thread)
}

/// For whom each of these threads waits, each behind a comma.
fn push_others(line: &mut Vec<u8>, waits: &[Wait], threads: &[u16]) -> Result<(), AllocError>
    ensures { OnOk result (line.new.items ≡ line.old.items
        ++ flat_map (λ thread. codes ", " ++ words.wait_words waits.now thread) threads.now) }
{
    for thread in threads {
        push_other(line, waits, *thread)?;
    }
    Ok(())
}

/// `thread 1 waits for thread 2, thread 2 waits for thread 1`.
fn push_cycle(line: &mut Vec<u8>, waits: &[Wait], cycle: &[u16]) -> Result<(), AllocError>
    ensures { OnOk result (line.new.items ≡ line.old.items ++ words.cycle_words waits.now cycle.now) }
{
    match cycle {
        [] => Ok(()),
        [first, others @ ..] => {
            push_wait(line, waits, *first)?;
            push_others(line, waits, others)
        }
    }
}

/// ` that an interrupt may end`, where it may.
fn push_end(line: &mut Vec<u8>, may_be_ended: bool) -> Result<(), AllocError>
    ensures { OnOk result (line.new.items
        ≡ line.old.items ++ (if may_be_ended then codes " that an interrupt may end" else [])) }
{
    if may_be_ended {
        push_words(line, " that an interrupt may end")?;
    }
    Ok(())
}

/// The line of a deadlock: a cycle of threads that wait for each other.
fn push_deadlock(
    text: &mut Vec<u8>,
    waits: &[Wait],
    ends: &[EndState],
    cycle: &[u16],
) -> Result<(), AllocError>
    ensures { OnOk result (text.new.items
        ≡ text.old.items ++ line (words.deadlock_words waits.now ends.now cycle.now)) }
{
    push_words(text, "deadlock")?;
    push_end(text, may_be_ended(waits, ends, cycle))?;
    push_words(text, ": ")?;
    push_cycle(text, waits, cycle)?;
    push_words(text, "\n")
}

/// The lines of these cycles.
pub(crate) fn push_deadlocks(
    text: &mut Vec<u8>,
    waits: &[Wait],
    ends: &[EndState],
    cycles: &[Vec<u16>],
) -> Result<(), AllocError>
    ensures { OnOk result (text.new.items ≡ text.old.items
        ++ flat_map (λ cycle. line (words.deadlock_words waits.now ends.now cycle)) (map vec_items cycles.now)) }
{
    for cycle in cycles {
        push_deadlock(text, waits, ends, cycle)?;
    }
    Ok(())
}

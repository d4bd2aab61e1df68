//! The end of a thread, and whom that wakes (JLS 17.2, 17.4.4).
//!
//! # Proved
//!
//! - `waiters_on`: the threads in the wait set of an object, in the order in which they joined, memory aside.
//! - `push_end`: behind the actions that are told already, memory aside, the last ones of a thread that has ended: by
//!   whatever names, those of the definitions (`end_actions`), where the event ended the waits of the wait set that is
//!   handed in, and of no other thread.
//!
//! # Not proved
//!
//! - That an event ends those waits alone is a theorem of `event_changes`.

ghost use Rattle.std.specs.Prelude.{◌≡◌, ◌++◌, [], ◌∷◌, OnOk, length, map};
ghost use Rattle.std.specs.List.{list_any};
ghost use Rattle.model.specs.Monitors.{monitor_at};
ghost use Rattle.data_races.specs.EventActions.{only_if};
ghost use Rattle.state_actions.specs.wait_ends.Ends.{TellsEnd, is_listed, listed_below, threads_of};

use heap::Heap;
use heap::java_threads::Threads;
use race_places::run_actions::Action;
use std::alloc::AllocError;
use table_actions::findings::has_ended;

/// Puts the threads in the wait set of an object in the place of those in a list, in the order in which they joined. Of
/// an object that isn't there nobody waits.
pub fn waiters_on(waiting: &mut Vec<u16>, heap: &Heap, object: u32) -> Result<(), AllocError>
    ensures { OnOk result (waiting.new.items ≡ threads_of (monitor_at heap.now.locks.monitors object).waiters) }
{
    waiting.clear();
    if object >= heap.len() {
        return Ok(());
    }
    'waiters: for pick in 0..heap.waiter_count(object) {
        let Some(waiter) = heap.waiter(object, pick) else {
            unreachable!();
        };
        waiting.push(waiter.thread)?;
    }
    Ok(())
}

/// Puts the wake-up of a thread behind other actions, if it is listed.
fn push_wake(actions: &mut Vec<Action>, waiting: &[u16], thread: u16) -> Result<(), AllocError>
    ensures { OnOk result (actions.new.items
        ≡ actions.old.items ++ only_if (is_listed waiting.now thread) (Action.Wake thread ∷ [])) }
{
    if waiting.contains(&thread) {
        actions.push(Action::Wake(thread))?;
    }
    Ok(())
}

/// Puts the wake-ups of all threads that are listed behind other actions, in the order of the threads.
fn push_wakes(
    actions: &mut Vec<Action>,
    threads: &Threads,
    waiting: &[u16],
) -> Result<(), AllocError>
    ensures { OnOk result (actions.new.items
        ≡ actions.old.items ++ map Action.Wake (listed_below waiting.now (length threads.now.threads))) }
{
    'threads: for thread in 0..threads.len() {
        push_wake(actions, waiting, thread as u16)?;
    }
    Ok(())
}

/// Puts the last actions of a thread behind other ones, if it has ended: those by which it wakes the threads that are
/// listed, and its end. The only error is a want of memory.
pub fn push_end(
    actions: &mut Vec<Action>,
    threads: &Threads,
    thread: u16,
    waiting: &[u16],
) -> Result<(), AllocError>
    ensures { OnOk result (TellsEnd thread waiting.now threads.now.threads actions.old.items actions.new.items) }
{
    if !has_ended(threads, thread) {
        return Ok(());
    }
    push_wakes(actions, threads, waiting)?;
    actions.push(Action::Finish(thread))?;
    Ok(())
}

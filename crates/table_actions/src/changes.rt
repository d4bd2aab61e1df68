//! What an event changed of monitors and threads, told by their tables after it and what was kept before it.
//!
//! # Proved
//!
//! - `locked`, `unlocked`: where an event of a thread changes of no other monitor whether the thread owns it, they tell
//!   the locks and the unlocks of the definitions (`besides` of `owned_from`), by whatever names.
//! - `started`: where at most one thread was started, the starts of the definitions (`started`).
//! - `cleared`: whether the thread's interrupt was cleared (`clear_actions`).
//!
//! # Not proved
//!
//! - That an event changes no other monitor's owner, and starts no more than a thread, is for whoever calls.
//!
//! # Wrong bodies
//!
//! - `changes-lock-of-an-owner`: an entry of its owner is told as a lock; refused by `locked`.
//! - `changes-unlock-stays-out`: no unlock is told; refused by `unlock_by`.
//! - `changes-start-of-the-last`: the thread before the started one is told; refused by `started`.
//! - `changes-clear-of-none`: a status that was clear is told as cleared; refused by `cleared`.

ghost use Rattle.std.specs.Prelude.{◌≡◌, List, length, map};
ghost use Rattle.model.specs.State.{Monitor, World};
ghost use Rattle.model.specs.Worlds as worlds;
ghost use Rattle.race_places.specs.named_actions.Names.{Names, named_action};
ghost use Rattle.data_races.specs.Actions as named;
ghost use Rattle.data_races.specs.EventActions.{clear_actions, started};
ghost use Rattle.table_actions.specs.tables.Owners.{OwnsTheRest, TellsLocks, TellsUnlocks, WasOwner, change_by};
ghost use Rattle.table_actions.specs.tables.Told.{MayStartOne, listed};

use crate::findings::is_owner;
use heap::Heap;
use heap::java_threads::Threads;
use race_places::run_actions::Action;

/// Whether a thread owns the monitor of an object, if one is meant.
pub fn owns(heap: &Heap, thread: u16, object: Option<u32>) -> bool
    ensures { WasOwner thread object heap.now.locks.monitors result }
{
    match object {
        Some(object) => is_owner(heap, thread, object),
        None => false,
    }
}

fn lock_by(object: Option<u32>, before: bool, after: bool) -> Option<Action>
    ensures { result ≡ change_by Action.Lock object before after }
{
    let object = object?;
    if before {
        None
    } else if after {
        Some(Action::Lock(object))
    } else {
        None
    }
}

fn unlock_by(object: Option<u32>, before: bool, after: bool) -> Option<Action>
    ensures { result ≡ change_by Action.Unlock object before after }
{
    let object = object?;
    if before {
        None
    } else if after {
        Some(Action::Unlock(object))
    } else {
        None
    }
}

/// The lock that an event of a thread did, by whether the thread owned the monitor of the object that is meant before.
pub fn locked(heap: &Heap, thread: u16, object: Option<u32>, was_owner: bool) -> Option<Action>
    ensures { (old : List Monitor) → OwnsTheRest thread object old heap.now.locks.monitors
        → WasOwner thread object old was_owner → TellsLocks thread old heap.now.locks.monitors result }
{
    lock_by(object, was_owner, owns(heap, thread, object))
}

/// The unlock that it did.
pub fn unlocked(heap: &Heap, thread: u16, object: Option<u32>, was_owner: bool) -> Option<Action>
    ensures { (old : List Monitor) → OwnsTheRest thread object old heap.now.locks.monitors
        → WasOwner thread object old was_owner → TellsUnlocks thread old heap.now.locks.monitors result }
{
    unlock_by(object, owns(heap, thread, object), was_owner)
}

/// The start of a thread that an event did, by how many there were before.
pub fn started(threads: &Threads, before: usize) -> Option<Action>
    ensures { (names : Names) (old new : World) → before ≡ length old.threads → threads.now.threads ≡ new.threads
        → MayStartOne old new → map (named_action names) (listed result) ≡ map named.Start (started old new) }
{
    if threads.len() > before {
        Some(Action::Start(before as u16))
    } else {
        None
    }
}

/// Whether an event cleared the interrupt of its thread, by whether that was interrupted before.
pub fn cleared(threads: &Threads, thread: u16, was_interrupted: bool) -> Option<Action>
    ensures { (names : Names) (old new : World) → was_interrupted ≡ (worlds.thread_at old thread).interrupted
        → threads.now.threads ≡ new.threads
        → map (named_action names) (listed result) ≡ clear_actions thread old new }
{
    if !was_interrupted {
        return None;
    }
    if threads.interrupted(thread) {
        None
    } else {
        Some(Action::ClearInterrupt(thread))
    }
}

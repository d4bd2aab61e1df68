//! What an event finds of threads, and whom it interrupts, by the built-in method that it runs.
//!
//! # Proved
//!
//! - `findings_on`, `interrupt_on`: of the tables of threads and monitors before an event that runs a built-in method
//!   on an object, the actions by which it finds threads, in their order, and the one by which it interrupts another;
//!   by whatever names, they are those of the definitions (`found_on`, `interrupts_on`).
//! - `has_ended`: whether a thread has ended.
//!
//! # Not proved
//!
//! - That an event runs this method, and on this object, is for whoever calls.
//!
//! # Wrong bodies
//!
//! - `findings-join-of-a-live-thread`: a join that returns as its thread was interrupted finds no thread; refused by
//!   `join_findings`.
//! - `findings-alive-has-ended`: `isAlive` that answers 1 finds the end; refused by `findings_of`.
//! - `findings-own-status-for-the-others`: `isInterrupted` finds the status of its own thread; refused by
//!   `findings_of`.
//! - `findings-wait-of-no-owner`: a `wait` that throws as its thread isn't the owner finds an interrupt; refused by
//!   `wait_findings`.

ghost use Rattle.std.specs.Prelude.{◌≡◌, [], ◌∷◌};
ghost use Rattle.linked_code.specs.Methods.{built_in_of};
ghost use Rattle.heap.specs.java_threads.Table.{thread_at};
ghost use Rattle.model.specs.Worlds as worlds;
ghost use Rattle.model.specs.Monitors.{monitor_at, owns};
ghost use Rattle.data_races.specs.EventActions.{found_alive, found_by_join, found_on, found_own, found_status};
ghost use Rattle.data_races.specs.EventActions.{interrupts_on};
ghost use Rattle.table_actions.specs.tables.Told.{Tells, all_found, found_of, interrupt_of, listed};

use heap::Heap;
use heap::java_threads::{ThreadStatus, Threads};
use linked_code::BuiltInMethod;
use race_places::run_actions::Action;

/// What an event finds of threads: first what it finds of its own thread, and then what it finds of another one.
#[derive(Clone, Copy, PartialEq, Eq)]
pub struct Findings {
    pub own: Option<Action>,
    pub other: Option<Action>,
}

/// Whether a thread has ended.
pub fn has_ended(threads: &Threads, thread: u16) -> bool
    ensures { result ≡ worlds.has_ended (thread_at threads.now.threads thread).status }
{
    match threads.status(thread) {
        ThreadStatus::Ended(_) => true,
        ThreadStatus::Running | ThreadStatus::Waiting { .. } | ThreadStatus::Relock { .. } => false,
    }
}

/// A thread that was started is found: it has ended, or it is alive.
fn life_found(heap: &Heap, threads: &Threads, other: u16) -> Action
    ensures { Tells heap.now threads.now (result ∷ []) (λ world. found_alive world other) }
{
    if has_ended(threads, other) {
        Action::FindFinished(other)
    } else {
        Action::FindStarted(other)
    }
}

/// Whether a thread that was started is interrupted is found.
fn status_found(heap: &Heap, threads: &Threads, other: u16) -> Action
    ensures { Tells heap.now threads.now (result ∷ []) (λ world. found_status world other) }
{
    if threads.interrupted(other) {
        Action::FindInterrupted(other)
    } else {
        Action::FindNotInterrupted(other)
    }
}

/// A thread that was interrupted finds that.
fn interrupt_found(heap: &Heap, threads: &Threads, thread: u16) -> Option<Action>
    ensures { Tells heap.now threads.now (listed result) (λ world. found_own world thread) }
{
    if threads.interrupted(thread) {
        Some(Action::FindInterrupted(thread))
    } else {
        None
    }
}

/// A join returns, or throws where the thread that joins was interrupted.
fn join_findings(heap: &Heap, threads: &Threads, thread: u16, other: u16) -> Findings
    ensures { Tells heap.now threads.now (all_found result) (λ world. found_by_join world thread other) }
{
    if has_ended(threads, other) {
        return of_other(Action::FindFinished(other));
    }
    Findings {
        own: interrupt_found(heap, threads, thread),
        other: Some(Action::FindStarted(other)),
    }
}

/// Whether a thread owns the monitor of an object.
pub fn is_owner(heap: &Heap, thread: u16, object: u32) -> bool
    ensures { result ≡ owns thread (monitor_at heap.now.locks.monitors object).owner }
{
    if object >= heap.len() {
        return false;
    }
    match heap.owner(object) {
        Some(owner) => owner == thread,
        None => false,
    }
}

/// A `wait` of the owner of a monitor finds whether its thread was interrupted.
fn wait_findings(heap: &Heap, threads: &Threads, thread: u16, object: u32) -> Findings
    ensures { Tells heap.now threads.now (all_found result)
        (λ world. found_on world thread object (built_in_of BuiltInMethod.ObjectWait)) }
{
    if is_owner(heap, thread, object) {
        of_own(interrupt_found(heap, threads, thread))
    } else {
        of_own(None)
    }
}

fn of_own(own: Option<Action>) -> Findings
    ensures { all_found result ≡ listed own }
{
    Findings { own, other: None }
}

fn of_other(other: Action) -> Findings
    ensures { all_found result ≡ other ∷ [] }
{
    Findings {
        own: None,
        other: Some(other),
    }
}

/// What an event finds of another thread, which was started, by the built-in method that it runs on the Thread object
/// of that.
fn findings_of(
    heap: &Heap,
    threads: &Threads,
    thread: u16,
    other: u16,
    built_in: BuiltInMethod,
) -> Findings
    ensures { Tells heap.now threads.now (all_found result)
        (λ world. found_of world thread other (built_in_of built_in)) }
{
    match built_in {
        BuiltInMethod::ThreadStart => of_other(Action::FindStarted(other)),
        BuiltInMethod::ThreadInterrupt => of_other(life_found(heap, threads, other)),
        BuiltInMethod::ThreadIsAlive => of_other(life_found(heap, threads, other)),
        BuiltInMethod::ThreadIsInterrupted => of_other(status_found(heap, threads, other)),
        BuiltInMethod::ThreadJoin => join_findings(heap, threads, thread, other),
        _ => of_own(None),
    }
}

/// What an event of a thread finds by the built-in method that it runs on an object. Of a static method no object
/// counts.
pub fn findings_on(
    heap: &Heap,
    threads: &Threads,
    thread: u16,
    object: u32,
    built_in: BuiltInMethod,
) -> Findings
    ensures { Tells heap.now threads.now (all_found result)
        (λ world. found_on world thread object (built_in_of built_in)) }
{
    match built_in {
        BuiltInMethod::ObjectWait => wait_findings(heap, threads, thread, object),
        BuiltInMethod::ThreadInterrupted => of_own(interrupt_found(heap, threads, thread)),
        _ => match threads.number(object) {
            Some(other) => findings_of(heap, threads, thread, other, built_in),
            None => of_own(None),
        },
    }
}

/// The interrupt of a thread that is alive.
fn interrupt_of(heap: &Heap, threads: &Threads, other: u16) -> Option<Action>
    ensures { Tells heap.now threads.now (listed result) (λ world. interrupt_of world other) }
{
    if has_ended(threads, other) {
        None
    } else {
        Some(Action::Interrupt(other))
    }
}

/// Whom an event interrupts by the built-in method that it runs on an object.
pub fn interrupt_on(
    heap: &Heap,
    threads: &Threads,
    object: u32,
    built_in: BuiltInMethod,
) -> Option<Action>
    ensures { Tells heap.now threads.now (listed result)
        (λ world. interrupts_on world object (built_in_of built_in)) }
{
    match built_in {
        BuiltInMethod::ThreadInterrupt => match threads.number(object) {
            Some(other) => interrupt_of(heap, threads, other),
            None => None,
        },
        _ => None,
    }
}

//! What an event changes of classes and threads: each function here is a theorem, and does nothing.
//!
//! # Proved
//!
//! Of all files and states, typed or not, over values and over words:
//!
//! - An event keeps which classes there are, and ends the initialisation of the class on top of its thread's stack at
//!   most (`classes_are_kept`; JVMS 5.5).
//! - It starts at most one thread (`threads_are_added`).
//! - Where its thread has ended after it, those threads wait no more that were in the wait set of the Thread object
//!   before it, and all others wait as before (`ends_wake_waiters`).

ghost use Rattle.event_laws.specs.event_changes.Changes.{AreClassesKept, AreThreadsAdded, DoEndsWake};

/// An event ends the initialisation of no class but the one on top.
pub fn classes_are_kept()
    ensures holds { AreClassesKept }
{}

/// An event starts at most one thread.
pub fn threads_are_added()
    ensures holds { AreThreadsAdded }
{}

/// The end of a thread wakes those that wait on its Thread object, and no others.
pub fn ends_wake_waiters()
    ensures holds { DoEndsWake }
{}

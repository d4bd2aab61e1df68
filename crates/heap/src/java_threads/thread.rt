//! What the table of threads has of one thread.

ghost use Rattle.std.specs.Prelude.{◌≡◌};
ghost use Rattle.model.specs.State.{new_thread};
ghost use Rattle.heap.specs.java_threads.Statuses.{status_of};

use crate::java_threads::status::ThreadStatus;
use std::marker::Model;

/// A thread but for its stack: its Thread object, whether it has begun, the exception that is pending, whether it is
/// interrupted, and what it is about.
#[derive(Clone, Copy)]
pub struct Thread {
    pub object: u32,
    pub begun: bool,
    pub pending: Option<u32>,
    pub interrupted: bool,
    pub status: ThreadStatus,
}

impl Model for Thread {
    ghost use Rattle.model.specs.State.{Thread as Shown};

    ghost Value = { Shown };

    ghost use Rattle.heap.specs.java_threads.Statuses.{thread_shown, thread_named};

    ghost view = { thread_shown };

    ghost inverse = { thread_named };
}

impl Thread {
    /// A thread that has not begun.
    pub fn new(object: u32) -> Thread
        ensures { result ≡ new_thread object }
    {
        Thread {
            object,
            begun: false,
            pending: None,
            interrupted: false,
            status: ThreadStatus::Running,
        }
    }
}

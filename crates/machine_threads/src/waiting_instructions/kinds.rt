//! The ways in which a thread stands.

/// How a thread stands.
#[derive(Clone, Copy)]
pub enum Standing {
    Ended,
    /// The thread ended with an exception of the class of this number.
    Threw(u32),
    /// The thread waits for a monitor.
    Blocked,
    /// The thread is in a wait set.
    Waiting,
    /// The thread waits for the end of another thread.
    Joining,
    /// The thread waits for a class that another thread initialises.
    Initialising,
    /// The thread has an event that is enabled.
    Runnable,
}

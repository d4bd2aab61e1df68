//! What a thread is about.

/// Why a thread left a wait set (JLS 17.2).
#[derive(Clone, Copy, PartialEq, Eq)]
pub enum WakeCause {
    Notified,
    Interrupted,
}

/// What a thread is about. Objects and exceptions are named by their references.
#[derive(Clone, Copy, PartialEq, Eq)]
pub enum ThreadStatus {
    Running,
    /// The thread is in the wait set of an object, whose monitor it had entered so many times.
    Waiting {
        object: u32,
        count: u32,
    },
    /// The thread left the wait set of an object, and is to enter the monitor again as often as before.
    Relock {
        object: u32,
        count: u32,
        cause: WakeCause,
    },
    /// The thread has ended, with an exception or without.
    Ended(Option<u32>),
}

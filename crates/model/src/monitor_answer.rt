//! What a call of monitors answers.

/// What the monitor of an object answers to a thread (JLS 17.1, 17.2).
#[derive(Clone, Copy, PartialEq, Eq)]
pub enum MonitorAnswer {
    Done,
    /// Another thread owns the monitor.
    Held,
    /// The thread doesn't own the monitor.
    NotOwner,
}

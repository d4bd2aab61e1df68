//! What a run showed.

/// How a thread stands when the run has ended.
#[derive(Drop, PartialEq, Eq)]
pub enum EndState {
    /// The thread returned.
    Ended,
    /// The thread ended with an exception of the class with this name, in the form of a class file (`java/lang/Error`).
    Threw(Vec<u8>),
    /// The thread needs, for its next step, a monitor that another thread owns.
    Blocked,
    /// The thread is in a wait set.
    Waiting,
    /// The thread is in a call of `Thread.join`.
    Joining,
    /// The thread needs, for its next step, a class that another thread initialises.
    Initialising,
    /// The thread has a step that it can do.
    Runnable,
}

/// The UTF-16 units that were printed, in order, the state of each thread by its number, and how many events were
/// done.
#[derive(Drop, PartialEq, Eq)]
pub struct Report {
    pub printed: Vec<u16>,
    pub threads: Vec<EndState>,
    pub events: u64,
}

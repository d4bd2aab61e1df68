//! The steps of a run, by numbers: which thread did which action, in which event. What orders them and which of them
//! conflict is said in `specs/run_steps` (JLS 17.4).

/// An action of a thread (JLS 17.4.2). A place is a number for what synchronizes: a monitor, a volatile variable, the
/// start of a thread, its end, its interrupts, .. (17.4.4).
#[derive(Clone, Copy, PartialEq, Eq)]
pub enum Action {
    /// A read of a variable that is not volatile.
    Read(usize),
    /// A write of one.
    Write(usize),
    /// Finds what the releases of a place left there.
    Acquire(usize),
    /// Leaves something at a place.
    Release(usize),
    /// Is a release of the place `left`, and takes away what releases left at the place `taken` before: a thread's
    /// status that was interrupted is cleared.
    Clear { taken: usize, left: usize },
}

/// A step of a run: its thread, the event of which its action is one, and the action.
#[derive(Clone, Copy, PartialEq, Eq)]
pub struct Step {
    pub thread: usize,
    pub event: u64,
    pub action: Action,
}

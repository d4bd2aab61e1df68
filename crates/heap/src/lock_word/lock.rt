//! What a lock says, and what it answers.

/// The lock of an object (JLS 17.1).
#[derive(Clone, Copy, PartialEq, Eq)]
pub enum Lock {
    /// No thread owns it.
    Unlocked,
    /// The thread that owns it, and how often that thread entered it: 1 to 256 times.
    Thin { owner: u16, entries: u16 },
    /// Owner and entries stand with the monitor of this number.
    Fat(u32),
}

/// What a lock answers to a thread that is to enter.
#[derive(Clone, Copy, PartialEq, Eq)]
pub enum TryEnter {
    Entered,
    /// Another thread owns the lock.
    Held,
    /// The thread has entered 256 times, and the lock can't count one more.
    Full,
    /// The monitor of this number decides.
    Fat(u32),
}

/// What a lock answers to a thread that is to leave once.
#[derive(Clone, Copy, PartialEq, Eq)]
pub enum TryExit {
    Left,
    NotOwner,
    /// The monitor of this number decides.
    Fat(u32),
}

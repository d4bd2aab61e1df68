//! The actions of a run (JLS 17.4.2), by the numbers that a machine has. What orders them and which of them conflict is
//! said in `specs/run_actions` (17.4).

/// A variable that threads share (JLS 17.4.1).
#[derive(Clone, Copy, PartialEq, Eq)]
pub enum Variable {
    /// A field of an object, by the class that declares it and its place among the fields of that class.
    InstanceField { object: u32, class: u16, field: u16 },
    /// A static field, by class and place.
    StaticField { class: u16, field: u16 },
    /// An element of an array.
    Element { array: u32, index: u32 },
}

/// An action of a thread (JLS 17.4.2). Objects, threads and classes are meant by their numbers.
#[derive(Clone, Copy, PartialEq, Eq)]
pub enum Action {
    /// A read of a variable; whether its field is volatile.
    Read {
        variable: Variable,
        is_volatile: bool,
    },
    /// A write of one.
    Write {
        variable: Variable,
        is_volatile: bool,
    },
    /// A thread enters the monitor of an object (17.1) that it didn't own.
    Lock(u32),
    /// Its owner doesn't own it any more.
    Unlock(u32),
    /// The first action of a thread.
    Begin(u16),
    /// Its last action.
    Finish(u16),
    /// A thread is started.
    Start(u16),
    /// A thread is interrupted.
    Interrupt(u16),
    /// The status of a thread that was interrupted is cleared (17.2.3).
    ClearInterrupt(u16),
    /// The end of the thread wakes another one, which waits on its Thread object.
    Wake(u16),
    /// A class is initialised or erroneous from here on (12.4.2).
    FinishInitialisation(u16),
    /// A thread is found to be started.
    FindStarted(u16),
    /// A thread is found to have ended.
    FindFinished(u16),
    /// A thread is found to be interrupted.
    FindInterrupted(u16),
    /// The status of a thread is found cleared.
    FindNotInterrupted(u16),
    /// A thread finds that it was woken.
    FindWoken(u16),
    /// A class is found initialised or erroneous.
    FindInitialised(u16),
}

/// An action of a run: its thread, the number of its event, counted from 0, and what it is.
#[derive(Clone, Copy, PartialEq, Eq)]
pub struct RunAction {
    pub thread: u16,
    pub event: u64,
    pub action: Action,
}

/// What is numbered: a variable, or a place where an action leaves something that later ones find (17.4.4). It has a
/// kind, and up to three numbers.
#[derive(Clone, Copy, PartialEq, Eq, Hash)]
pub struct Key {
    pub(crate) kind: u32,
    pub(crate) first: u32,
    pub(crate) second: u32,
    pub(crate) third: u32,
}

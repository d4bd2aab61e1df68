//! What instructions and events answer.

/// An exception that the machine makes itself (JVMS 2.10), but the one in the place of an initialiser's.
#[derive(Clone, Copy)]
pub enum MachineException {
    NullPointer,
    Arithmetic,
    ArrayIndexOutOfBounds,
    StringIndexOutOfBounds,
    NegativeArraySize,
    CloneNotSupported,
    ArrayStore,
    ClassCast,
    IllegalMonitorState,
    IllegalThreadState,
    InterruptedWait,
    IncompatibleClassChange,
    AbstractMethod,
    StackOverflow,
    NoClassDefFound,
}

/// What an instruction came to. Only where it is done has it changed something.
#[derive(Clone, Copy)]
pub enum Effect {
    Done,
    /// The instruction raises an exception that the machine makes.
    Raises(MachineException),
    /// The instruction throws the object of a reference (JVMS 6.5 athrow).
    Throws(u32),
    /// The instruction throws an InterruptedException, and clears the interrupt status (JLS 17.2.1, 17.2.3).
    Interrupts,
    /// The event of the instruction is not enabled now.
    NotEnabled,
}

/// What an event came to. One that is not enabled has changed nothing.
#[derive(Clone, Copy)]
pub enum Answer {
    Done,
    NotEnabled,
}

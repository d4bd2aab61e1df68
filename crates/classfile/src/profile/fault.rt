//! What is wrong with a class file, and where.

/// Why a class file is refused: it is outside of the profile, or it is malformed, with the cause Code.
#[derive(Clone, Copy)]
pub enum Flaw {
    OutsideProfile,
    MalformedCode,
}

/// A field of an entry of an exception table (JVMS 4.7.3).
#[derive(Clone, Copy)]
pub enum ExceptionField {
    StartPc,
    EndPc,
    HandlerPc,
}

/// A place in a method.
#[derive(Clone, Copy)]
pub enum Spot {
    /// The descriptor of a method, or its flags.
    Declaration,
    /// The max_locals of its Code.
    MaxLocals,
    /// The instruction at an offset of its code.
    Instruction { pc: usize },
    /// A field of an entry of its exception table; entries count from 0.
    Exception { entry: usize, field: ExceptionField },
}

/// A place in a class file. Fields and methods count from 0.
#[derive(Clone, Copy)]
pub enum Place {
    Field { field: usize },
    Method { method: usize, spot: Spot },
}

/// What is wrong, and where.
#[derive(Clone, Copy)]
pub struct Fault {
    pub flaw: Flaw,
    pub place: Place,
}

/// What is wrong with a method, and where in it.
#[derive(Clone, Copy)]
pub(crate) struct MethodFault {
    pub flaw: Flaw,
    pub spot: Spot,
}

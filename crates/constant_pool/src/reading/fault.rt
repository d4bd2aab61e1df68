//! Why bytes are no class file.

ghost use Rattle.std.specs.Prelude.{◌≡◌};
ghost use Rattle.constant_pool.specs.declared.reading.fault.Stop.TheVariants.{Memory, Fault};
ghost use Rattle.constant_pool.specs.reading.Reading.{inner_stop, moved_stop, malformed_of};

use std::alloc::{AllocError, AllocFailed};
use std::fmt;

/// What is wrong. Its number is that of its place, counted from 1.
#[derive(Clone, Copy, Debug, PartialEq, Eq)]
pub enum Cause {
    /// The bytes end within a field.
    Truncated = 1,
    /// The first four bytes are not those of a class file.
    Magic,
    /// The class file has another version than 49.0.
    Version,
    /// No entry of a constant pool begins with this tag.
    Tag,
    /// An index names no entry of the kind that it has to name.
    Index,
    /// A byte cannot stand in a `Utf8`.
    Utf8,
    /// A name is none (JVMS 4.2).
    Name,
    /// A descriptor is none (JVMS 4.3).
    Descriptor,
    /// An attribute does not fit, or stands where it cannot or misses where it has to stand.
    Attribute,
    /// Bytes stand behind the last field.
    Trailing,
    /// Two fields, or two methods, have one name and one descriptor.
    Duplicate,
    /// There was no memory for the answer. The offset is 0.
    OutOfMemory,
    /// The code of a method is none (JVMS 4.9).
    Code,
}

/// The name of the cause, as `Truncated`.
impl fmt::Display for Cause {
    ghost use Rattle.std.specs.Prelude.{Some};
    ghost use Rattle.constant_pool.specs.reading.Names.{cause_name};

    ghost output = { λ cause. Some (cause_name cause) };

    fn fmt<W: fmt::Write>(&self, f: &mut fmt::Formatter<W>) -> fmt::Result {
        match self {
            Cause::Truncated => f.write_str("Truncated"),
            Cause::Magic => f.write_str("Magic"),
            Cause::Version => f.write_str("Version"),
            Cause::Tag => f.write_str("Tag"),
            Cause::Index => f.write_str("Index"),
            Cause::Utf8 => f.write_str("Utf8"),
            Cause::Name => f.write_str("Name"),
            Cause::Descriptor => f.write_str("Descriptor"),
            Cause::Attribute => f.write_str("Attribute"),
            Cause::Trailing => f.write_str("Trailing"),
            Cause::Duplicate => f.write_str("Duplicate"),
            Cause::OutOfMemory => f.write_str("OutOfMemory"),
            Cause::Code => f.write_str("Code"),
        }
    }
}

/// What is wrong, and the offset in bytes where the faulty field begins.
#[derive(Clone, Copy)]
pub struct Malformed {
    pub cause: Cause,
    pub offset: usize,
}

/// Why a field could not be read.
#[derive(Drop)]
pub enum Stop {
    Memory,
    Fault(Malformed),
}

impl Stop {
    /// What passes the end of an attribute does not fit.
    pub fn inside(self) -> Stop
        ensures { result ≡ inner_stop self }
    {
        match self {
            Stop::Fault(
                Malformed {
                    cause: Cause::Truncated,
                    offset,
                },
            ) => Stop::Fault(Malformed {
                cause: Cause::Attribute,
                offset,
            }),
            other => other,
        }
    }

    /// What is answered: where memory ran out, `OutOfMemory` at 0.
    pub fn malformed(self) -> Malformed
        ensures { result ≡ malformed_of self }
    {
        match self {
            Stop::Memory => Malformed {
                cause: Cause::OutOfMemory,
                offset: 0,
            },
            Stop::Fault(fault) => fault,
        }
    }

    /// The fault at this offset, wherever it was met.
    pub fn moved(self, offset: usize) -> Stop
        ensures { result ≡ moved_stop offset self }
    {
        match self {
            Stop::Memory => Stop::Memory,
            Stop::Fault(fault) => Stop::Fault(Malformed { offset, ..fault }),
        }
    }
}

impl From<Malformed> for Stop {
    ghost from_gives = { λ f e. e ≡ Fault f };

    fn from(fault: Malformed) -> Stop {
        Stop::Fault(fault)
    }
}

impl From<AllocError> for Stop {
    ghost from_gives = { λ _ e. e ≡ Memory };

    fn from(_e: AllocError) -> Stop {
        Stop::Memory
    }
}

impl<T: Drop> From<AllocFailed<T>> for Stop {
    ghost from_gives = { λ _ e. e ≡ Memory };

    fn from(_e: AllocFailed<T>) -> Stop {
        Stop::Memory
    }
}

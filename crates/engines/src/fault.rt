//! What keeps the program from a report.

ghost use Rattle.std.specs.Prelude.{◌≡◌, OnOk};
ghost use Rattle.std.specs.Io.KnownBytes.{Appends};
ghost use Rattle.engines.specs.declared.fault.Fault.TheVariants.{Memory, Refusal, Schedule, Text};
ghost use Rattle.engines.specs.Devices.{either_fault, fault_of};
ghost use Rattle.engines.specs.Failures.{IsOfKind};
ghost use Rattle.engines.specs.Complaints.{fault_line};

use crate::place_schedules::MissingPlace;
use model::DeviceFault;
use schedule::ScheduleFault;
use schedule::schedule_text::{EitherFault, TextFault};
use std::alloc::{AllocError, AllocFailed};
use std::io;
use std::io::{ErrorKind, Write};

/// Why an engine has no status.
#[derive(Drop)]
pub enum Fault {
    /// A reader or a writer failed.
    Device,
    /// Memory was wanted where nothing is read, linked or verified.
    Memory,
    /// The class files are refused.
    Refusal(link_conditions::refusal::Refusal),
    /// The schedule file is refused.
    Schedule(ScheduleFault),
    /// The text of the schedule is refused.
    Text(TextFault),
    /// A place of the schedule isn't there.
    Place(MissingPlace),
}

impl Fault {
    /// Writes the line for the standard error, without its end.
    pub fn write_line<W: Write>(&self, to: &mut W) -> io::Result<()>
        ensures { OnOk result (Appends (W.contents to.old) (W.contents to.new) (fault_line self.now)) }
    {
        match self {
            Fault::Device => to.write_all(b"device"),
            Fault::Memory => to.write_all(b"run refused Memory"),
            Fault::Refusal(refusal) => refusal.write_line(to),
            Fault::Schedule(fault) => write!(to, "schedule refused {fault}"),
            Fault::Text(fault) => write!(to, "schedule refused {fault}"),
            Fault::Place(missing) => {
                let fault = missing.fault;
                let line = missing.line;
                write!(to, "schedule refused {fault} line {line}")
            }
        }
    }
}

impl From<link_conditions::refusal::Refusal> for Fault {
    ghost from_gives = { λ refusal fault. fault ≡ Refusal refusal };

    fn from(refusal: link_conditions::refusal::Refusal) -> Fault {
        Fault::Refusal(refusal)
    }
}

impl From<ScheduleFault> for Fault {
    ghost from_gives = { λ refusal fault. fault ≡ Schedule refusal };

    fn from(refusal: ScheduleFault) -> Fault {
        Fault::Schedule(refusal)
    }
}

impl From<TextFault> for Fault {
    ghost from_gives = { λ refusal fault. fault ≡ Text refusal };

    fn from(refusal: TextFault) -> Fault {
        Fault::Text(refusal)
    }
}

impl From<EitherFault> for Fault {
    ghost from_gives = { λ either fault. fault ≡ either_fault either };

    fn from(fault: EitherFault) -> Fault {
        match fault {
            EitherFault::File(refusal) => Fault::Schedule(refusal),
            EitherFault::Text(refusal) => Fault::Text(refusal),
        }
    }
}

impl From<DeviceFault> for Fault {
    ghost from_gives = { λ device fault. fault ≡ fault_of device };

    fn from(fault: DeviceFault) -> Fault {
        match fault {
            DeviceFault::Device => Fault::Device,
            DeviceFault::Memory => Fault::Memory,
        }
    }
}

impl From<AllocError> for Fault {
    ghost from_gives = { λ _ fault. fault ≡ Memory };

    fn from(_error: AllocError) -> Fault {
        Fault::Memory
    }
}

impl<T: Drop> From<AllocFailed<T>> for Fault {
    ghost from_gives = { λ _ fault. fault ≡ Memory };

    fn from(_error: AllocFailed<T>) -> Fault {
        Fault::Memory
    }
}

/// What the system's reason comes to: a want of memory, or a failure.
pub(crate) fn device_fault(error: &io::Error) -> DeviceFault
    ensures { IsOfKind error.now result }
{
    match error.kind() {
        ErrorKind::OutOfMemory => DeviceFault::Memory,
        _ => DeviceFault::Device,
    }
}

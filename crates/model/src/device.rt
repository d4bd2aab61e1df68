//! Devices: what bytes are read from and written to, as files are. Each counts its failures, so that who is told
//! of a failure can be promised that there was one.

ghost use Rattle.std.specs.Prelude.{◌≡◌, ℕ, List, Option, IfOk, IfSome, OnOk, OnErr};
ghost use Rattle.std.specs.Io.KnownBytes.{Appends, IsAtEnd};
ghost use Rattle.model.specs.declared.device.DeviceFault.TheVariants.{Memory};
ghost use Rattle.model.specs.Devices.{Counts, LosesFront, AppendsFront};

use std::alloc::{AllocError, AllocFailed, Global};

/// Why a device didn't do what it was asked for.
#[derive(Clone, Copy, PartialEq, Eq)]
pub enum DeviceFault {
    /// The device failed, and counted that.
    Device,
    /// There was no memory for the bytes, or for the count.
    Memory,
}

impl From<AllocError> for DeviceFault {
    ghost from_gives = { λ _ fault. fault ≡ Memory };

    fn from(_error: AllocError) -> DeviceFault {
        DeviceFault::Memory
    }
}

impl<T: Drop> From<AllocFailed<T>> for DeviceFault {
    ghost from_gives = { λ _ fault. fault ≡ Memory };

    fn from(_error: AllocFailed<T>) -> DeviceFault {
        DeviceFault::Memory
    }
}

/// A reader that counts its failures.
pub trait Source {
    /// The bytes that are left to read, where they are known. Of a file they aren't.
    ghost remaining: { Self → Option (List ℕ) };

    /// How often it failed.
    ghost failures: { Self → ℕ };

    /// Reads all the bytes that are left. After an error some of them may be lost.
    fn read_all(&mut self, alloc: Global) -> Result<Vec<u8>, DeviceFault>
        ensures read { IfOk result (λ bytes. IfSome (remaining self.old) (λ left. bytes.items ≡ left)) }
        ensures end { OnOk result (IsAtEnd (remaining self.new)) }
        ensures lost { OnErr result (LosesFront (remaining self.old) (remaining self.new)) }
        ensures counted { Counts result (failures self.old) (failures self.new) };
}

/// A writer that counts its failures.
pub trait Sink {
    /// The bytes that it holds, where they are known. Of a terminal they aren't.
    ghost contents: { Self → Option (List ℕ) };

    /// How often it failed.
    ghost failures: { Self → ℕ };

    /// Writes all these bytes behind what it holds, and before an error a beginning of them.
    fn write_all(&mut self, bytes: &[u8]) -> Result<(), DeviceFault>
        ensures written { OnOk result (Appends (contents self.old) (contents self.new) bytes.now) }
        ensures part { OnErr result (AppendsFront (contents self.old) (contents self.new) bytes.now) }
        ensures counted { Counts result (failures self.old) (failures self.new) };
}

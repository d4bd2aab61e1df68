//! Why a call was not done.

use std::alloc::AllocError;

/// Why a call of `Monitors` was not done. Nothing has changed then.
#[derive(Clone, Copy, PartialEq, Eq)]
pub enum MonitorRefusal {
    /// The lock would become fat, and as many are as may be.
    Monitors,
    /// The owner has entered 4,294,967,295 times.
    LockCount,
    /// There was no memory.
    Memory,
}

impl From<AllocError> for MonitorRefusal {
    ghost use Rattle.std.specs.Prelude.{◌≡◌};
    ghost use Rattle.heap.specs.declared.monitor.refusal.MonitorRefusal.{MonitorRefusal};

    ghost from_gives = { λ _ refusal. refusal ≡ MonitorRefusal.Memory };

    fn from(_: AllocError) -> MonitorRefusal {
        MonitorRefusal::Memory
    }
}

//! Why an enabled event is refused.

ghost use Rattle.std.specs.Prelude.{◌≡◌};
ghost use Rattle.machine_state.specs.Refusals.{cause_of};

use heap::AllocRefusal;
use heap::java_threads::ThreadRefusal;
use heap::monitor::MonitorRefusal;
use model::RunCause;
use std::alloc::AllocError;

/// Why an enabled event is refused: a limit, or a want of memory. Nothing has changed then.
#[derive(Clone, Copy)]
pub enum EventRefusal {
    /// As many objects as may be were made since the opening.
    Objects,
    /// There would be more fields and elements than may be.
    Cells,
    /// A lock would become fat, and as many are as may be.
    Monitors,
    /// As many threads were started as may be.
    Threads,
    /// An owner has entered a monitor 4,294,967,295 times.
    LockCount,
    /// There was no memory.
    Memory,
}

impl EventRefusal {
    /// The cause that a report names.
    pub fn cause(self) -> RunCause
        ensures { result ≡ cause_of self }
    {
        match self {
            EventRefusal::Objects => RunCause::Objects,
            EventRefusal::Cells => RunCause::Cells,
            EventRefusal::Monitors => RunCause::Monitors,
            EventRefusal::Threads => RunCause::Threads,
            EventRefusal::LockCount => RunCause::LockCount,
            EventRefusal::Memory => RunCause::Memory,
        }
    }
}

impl From<AllocRefusal> for EventRefusal {
    ghost use Rattle.std.specs.Prelude.{◌≡◌};
    ghost use Rattle.machine_state.specs.Refusals.{of_heap};

    ghost from_gives = { λ given refusal. refusal ≡ of_heap given };

    fn from(given: AllocRefusal) -> EventRefusal {
        match given {
            AllocRefusal::Objects => EventRefusal::Objects,
            AllocRefusal::Cells => EventRefusal::Cells,
            AllocRefusal::Memory => EventRefusal::Memory,
        }
    }
}

impl From<MonitorRefusal> for EventRefusal {
    ghost use Rattle.std.specs.Prelude.{◌≡◌};
    ghost use Rattle.machine_state.specs.Refusals.{of_monitors};

    ghost from_gives = { λ given refusal. refusal ≡ of_monitors given };

    fn from(given: MonitorRefusal) -> EventRefusal {
        match given {
            MonitorRefusal::Monitors => EventRefusal::Monitors,
            MonitorRefusal::LockCount => EventRefusal::LockCount,
            MonitorRefusal::Memory => EventRefusal::Memory,
        }
    }
}

impl From<ThreadRefusal> for EventRefusal {
    ghost use Rattle.std.specs.Prelude.{◌≡◌};
    ghost use Rattle.machine_state.specs.Refusals.{of_threads};

    ghost from_gives = { λ given refusal. refusal ≡ of_threads given };

    fn from(given: ThreadRefusal) -> EventRefusal {
        match given {
            ThreadRefusal::Threads => EventRefusal::Threads,
            ThreadRefusal::Memory => EventRefusal::Memory,
        }
    }
}

impl From<AllocError> for EventRefusal {
    ghost use Rattle.std.specs.Prelude.{◌≡◌};
    ghost use Rattle.machine_state.specs.declared.refusals.EventRefusal.{EventRefusal};

    ghost from_gives = { λ _ refusal. refusal ≡ EventRefusal.Memory };

    fn from(_: AllocError) -> EventRefusal {
        EventRefusal::Memory
    }
}

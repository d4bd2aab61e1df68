//! Why a thread was not added.

use std::alloc::AllocError;

/// Why a thread was not added to the table. Nothing has changed then.
#[derive(Clone, Copy, PartialEq, Eq)]
pub enum ThreadRefusal {
    /// As many threads have been started as may be.
    Threads,
    /// There was no memory.
    Memory,
}

impl From<AllocError> for ThreadRefusal {
    ghost use Rattle.std.specs.Prelude.{◌≡◌};
    ghost use Rattle.heap.specs.declared.java_threads.refusal.ThreadRefusal.{ThreadRefusal};

    ghost from_gives = { λ _ refusal. refusal ≡ ThreadRefusal.Memory };

    fn from(_: AllocError) -> ThreadRefusal {
        ThreadRefusal::Memory
    }
}

//! Why no object was allocated.

use std::alloc::AllocError;

/// Why no object was allocated. Nothing has changed then.
#[derive(Clone, Copy, Debug, PartialEq, Eq)]
pub enum AllocRefusal {
    /// As many objects as may be were allocated since the opening.
    Objects,
    /// Since the opening there would be more cells, fields and elements together, than may be.
    Cells,
    /// There was no memory.
    Memory,
}

impl From<AllocError> for AllocRefusal {
    ghost use Rattle.std.specs.Prelude.{◌≡◌};
    ghost use Rattle.heap.specs.declared.refusal.AllocRefusal.{AllocRefusal};

    ghost from_gives = { λ _ refusal. refusal ≡ AllocRefusal.Memory };

    fn from(_: AllocError) -> AllocRefusal {
        AllocRefusal::Memory
    }
}

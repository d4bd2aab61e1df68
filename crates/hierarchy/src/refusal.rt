//! Why files are no set of classes.

ghost use Rattle.std.specs.Prelude.{◌≡◌};
ghost use Rattle.hierarchy.specs.declared.refusal.SetRefusal.TheVariants as refusals;

use std::alloc::{AllocError, AllocFailed};

/// Why files are no set of classes.
#[derive(Clone, Copy)]
pub enum SetRefusal {
    /// The class of this file has the name of a built-in class, or of a file before it (JVMS 5.3). Files are counted
    /// from 0.
    DuplicateClass { file: usize },
    OutOfMemory,
}

impl From<AllocError> for SetRefusal {
    ghost from_gives = { λ _ refusal. refusal ≡ refusals.OutOfMemory };

    fn from(_: AllocError) -> SetRefusal {
        SetRefusal::OutOfMemory
    }
}

impl From<AllocFailed<Vec<u8>>> for SetRefusal {
    ghost from_gives = { λ _ refusal. refusal ≡ refusals.OutOfMemory };

    fn from(_: AllocFailed<Vec<u8>>) -> SetRefusal {
        SetRefusal::OutOfMemory
    }
}

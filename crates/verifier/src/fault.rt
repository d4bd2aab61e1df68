//! Why a method is not verified.

ghost use Rattle.std.specs.Prelude.{◌≡◌};
ghost use Rattle.verifier.specs.declared.fault.MethodFault.TheVariants as faults;

use std::alloc::AllocError;

/// Why a method is not verified.
#[derive(Clone, Copy)]
pub(crate) enum MethodFault {
    /// The instruction at this offset must not find what is found there; or frame types can't be merged there, or the
    /// code runs off its end behind it (JVMS 4.10.2.2).
    Unverified { offset: usize },
    /// The search needs more steps than are left.
    TooLong,
    OutOfMemory,
}

impl From<AllocError> for MethodFault {
    ghost from_gives = { λ _ fault. fault ≡ faults.OutOfMemory };

    fn from(_: AllocError) -> MethodFault {
        MethodFault::OutOfMemory
    }
}

//! What the stack of a thread over numbers is of the model's stack over words. Each function here is a theorem, and
//! does nothing.
//!
//! # Proved
//!
//! - Of a stack over numbers that shows one of the model's over words (`ShowsStack`: methods and classes by their
//!   numbers, places by the offsets of linked code): it has as many frames (`frames_are_counted`); `called` shows the
//!   callee's new frame over the caller, which waits at its call (`calls_are_shown`, `begins_are_shown`); `returned`
//!   shows the model's, where the place is that of the next instruction (`returns_are_shown`); a frame at a handler
//!   (`catches_are_shown`), a class that begins to be initialised and one in another phase
//!   (`initialisations_are_shown`, `phases_are_shown`) are shown.
//! - A frame that goes on at a place is the model's at the offset of that place (`moves_are_shown`).
//!
//! # Not proved
//!
//! - Not shown: that linked methods begin at place 0 with the model's count of local variables, which the laws on calls
//!   ask of a callee; that the place after an instruction is that of the next offset.

ghost use Rattle.machine_state.specs.shown_stacks.Shown.{AreCounted, IsBeginShown, IsCallShown, IsMoveShown, IsReturnShown, IsCatchShown, IsInitialisationShown, IsPhaseShown};

/// A stack that shows one of the model has as many frames.
pub fn frames_are_counted()
    ensures holds { AreCounted }
{}

/// A frame that begins is the model's.
pub fn begins_are_shown()
    ensures holds { IsBeginShown }
{}

/// A call makes of a stack what the model does.
pub fn calls_are_shown()
    ensures holds { IsCallShown }
{}

/// A frame that goes on at a place is the model's.
pub fn moves_are_shown()
    ensures holds { IsMoveShown }
{}

/// A return makes of a stack what the model does.
pub fn returns_are_shown()
    ensures holds { IsReturnShown }
{}

/// A frame that goes on at a handler is the model's.
pub fn catches_are_shown()
    ensures holds { IsCatchShown }
{}

/// A class that begins to be initialised is the model's.
pub fn initialisations_are_shown()
    ensures holds { IsInitialisationShown }
{}

/// A class that goes on to another phase of its initialisation is the model's.
pub fn phases_are_shown()
    ensures holds { IsPhaseShown }
{}

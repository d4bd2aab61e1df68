//! Exceptions that the machine makes itself (JVMS 2.10).
//!
//! # Proved
//!
//! - The classes of the exceptions that the machine makes have the same numbers in each program, and their objects have
//!   the fields of Throwable alone (`exceptions_are_numbered`).
//! - In each world that is shown, and over each stack of the thread: `raise` is `raised`, where it is handed the word of
//!   the message; `raise_interrupt` is `raised_by_interrupt` with the interrupt status cleared; `raise_in_initialiser`
//!   is `raised` of an ExceptionInInitializerError whose cause is the exception that is handed in. Or they are refused at
//!   the limit that stands or for want of memory, and then nothing has changed (`Becomes`). `apply` makes of what an instruction came to what becomes of
//!   its event (`Applies`), whatever the event is.
//!
//! # Wrong bodies
//!
//! - Planted by `rt plant`: 3 functions, 1 untried; 22 bodies judged, 8 not judged, 0 not run; none proves.

mod effects;
mod raising;

ghost use Rattle.machine_state.specs.raised_exceptions.Raised.{AreNumbered};

pub use effects::apply;
pub use raising::{CAUSE, MESSAGE, raise, raise_in_initialiser, raise_interrupt, word_of};

/// The classes of these exceptions have the same numbers in each program, and their objects have the fields of
/// Throwable alone.
pub fn exceptions_are_numbered()
    ensures holds { AreNumbered }
{}

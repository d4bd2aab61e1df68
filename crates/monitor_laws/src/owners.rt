//! Owners of monitors, before an event and after it: the function here is a theorem, and does nothing.
//!
//! # Proved
//!
//! - An event changes the owner of one monitor at most (`owners_are_kept`), of all files and states, typed or not, over
//!   values and over words. It is that of the object on top of the operands of a monitor instruction, the object that
//!   a thread waits on or whose monitor it enters again, the one that the invocation on top entered where that ends,
//!   or the one that an invocation enters that the event begins (JLS 17.1, 17.2; JVMS 2.11.10).

ghost use Rattle.monitor_laws.specs.owners.Owners.{AreOwnersKept};

/// An event changes the owner of no monitor but one.
pub fn owners_are_kept()
    ensures holds { AreOwnersKept }
{}

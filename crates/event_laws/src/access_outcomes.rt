//! Reads and writes of instructions that go on or throw: the function here is a theorem, and does nothing.
//!
//! # Proved
//!
//! - An instruction whose class is there does the accesses that it names, and those of a method without code that it
//!   runs (`accesses_of`), exactly where no exception is pending after its event (`accesses_go_on`; JLS 17.4.2). Of all
//!   files and states in which its thread is there and runs with no exception pending.

ghost use Rattle.event_laws.specs.access_outcomes.Accesses.{DoAccessesGoOn};

/// An instruction does the accesses that it names where it throws nothing.
pub fn accesses_go_on()
    ensures holds { DoAccessesGoOn }
{}

//! When two machines are in the same state: they keep the same objects, monitors, static fields, classes, threads and
//! stacks, have printed the same, have interned the same Strings and count Threads without a name alike.
//!
//! # Proved
//!
//! - Two states of a machine of which all of that is the same (`AreAlike`) show the same words, whichever locks are
//!   inflated (`words_are_told`).

ghost use Rattle.machine_state.specs.same_states.Same.{AreWordsTold};

/// What is kept of two states tells whether their words are the same: how the locks are inflated does not matter.
pub fn words_are_told()
    ensures holds { AreWordsTold }
{}

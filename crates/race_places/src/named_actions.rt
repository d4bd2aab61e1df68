//! The actions of a run with the names of classes and fields: the function here is a theorem, and does nothing.
//!
//! # Proved
//!
//! - Actions by numbers race exactly where they do by names (`names_race_alike`): where each number is of a class or a
//!   field, no two of one name, and each read and write tells whether its field is volatile.

ghost use Rattle.race_places.specs.named_actions.Names.{AreNamedAlike};

/// Actions race where they do with the names of classes and fields.
pub fn names_race_alike()
    ensures holds { AreNamedAlike }
{}

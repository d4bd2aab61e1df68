//! How many objects a run has, and that references to them are words of 32 bits: each function here is a theorem, and
//! does nothing.
//!
//! The lemmas in `proofs/` are there for a crate above to cite.
//!
//! # Proved
//!
//! - Of all files and states, typed or not, over values and over words: after an event there is one object more where
//!   what it takes is `Makes`, and else as many as before (`objects_are_counted`).
//! - Of files that link: their opening state has at most 294,967,295 objects, over values and over words
//!   (`opening_objects_fit`); a run within limits of at most 4,000,000,000 objects made has fewer than 2^32 objects,
//!   those of the opening state included (`objects_fit`). What is of a type of references is null or a reference to an
//!   object that is there (`references_are_objects`), and its word is in such a run one of 32 bits (`references_fit`).

ghost use Rattle.run_laws.specs.object_counts.Bounds.{AreObjectsCounted, AreObjectsInRange, AreOpeningsInRange, AreReferencesInRange, AreReferencesThere};

/// What an event takes says how many objects it makes, over values and over words.
pub fn objects_are_counted()
    ensures holds { AreObjectsCounted }
{}

/// The opening state of files that link has at most 294,967,295 objects, over values and over words.
pub fn opening_objects_fit()
    ensures holds { AreOpeningsInRange }
{}

/// Within limits of at most 4,000,000,000 objects made, a run of files that link has fewer than 2^32 objects.
pub fn objects_fit()
    ensures holds { AreObjectsInRange }
{}

/// What is of a type of references is null, or a reference to an object that is there.
pub fn references_are_objects()
    ensures holds { AreReferencesThere }
{}

/// In such a run the word of what is of a type of references is one of 32 bits.
pub fn references_fit()
    ensures holds { AreReferencesInRange }
{}

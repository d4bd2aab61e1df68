//! A new object on the heap of a machine is a new object of the world that it shows. Each function here is a theorem,
//! and does nothing.
//!
//! # Proved
//!
//! - Of a machine whose words show a world: an object that its heap allocates is one that an event makes of that world,
//!   with the next reference, whose word fits 32 bits, and no limit stood (`objects_are_made`). The heap counts as many
//!   cells of it as the object has by the definitions. So is a String whose words are the units of a text, all of which
//!   count (`texts_are_made`). Where the heap refuses, it tells the limit that stands, objects before cells, or memory
//!   was missing, and nothing has changed (`allocations_are_refused`).
//! - So is an object with words of its own, as a copy of another (`copies_are_made`). Where a String that has no text yet gets
//!   one, by a heap that puts its units there, the words show the world in which the String has the text, and all units
//!   count as cells (`texts_are_filled`); a refusal tells the limit on cells, or that memory was missing
//!   (`fills_are_refused`).

ghost use Rattle.machine_state.specs.allocations.Allocated.{AreMade, AreRefused, AreTextsMade};
ghost use Rattle.machine_state.specs.allocations.Filled.{AreCopiesMade, AreFilled, AreFillsRefused};

/// An object that the heap allocates is one that an event makes, and no limit stood.
pub fn objects_are_made()
    ensures holds { AreMade }
{}

/// A String that the heap takes up with the units of its text is one that an event makes, and no limit stood.
pub fn texts_are_made()
    ensures holds { AreTextsMade }
{}

/// Where the heap refuses to allocate, the event is refused at that limit, or for want of memory.
pub fn allocations_are_refused()
    ensures holds { AreRefused }
{}

/// An object with words of its own is one that an event makes, and no limit stood.
pub fn copies_are_made()
    ensures holds { AreCopiesMade }
{}

/// A String that gets its text has it in the world that is shown then, and no limit stood.
pub fn texts_are_filled()
    ensures holds { AreFilled }
{}

/// Where the heap refuses a text, the event is refused at the limit on cells, or for want of memory.
pub fn fills_are_refused()
    ensures holds { AreFillsRefused }
{}

//! Objects and static fields of a state, by the words of a heap and of slots. Each function here is a theorem, and
//! does nothing.
//!
//! # Proved
//!
//! - Defined: `ShowsObjects` says when the objects of a heap show those of a state over words, one by one: an instance
//!   has the number of its class, and its fields are those that its class has, in the order of their slots; a String
//!   has the units of its text in their place, each of 16 bits; an array of references has the number of what it holds
//!   in a table of types. `ShowsStatics` says so of static fields.
//! - Where that holds: references are the same (`objects_are_counted`); one more object is shown by one more
//!   (`objects_are_added`); a field of an instance is the word in its slot, and a put of the word there shows the put
//!   of the field (`fields_are_slots`; `statics_are_slots` of static fields); the elements of an array are its words,
//!   and it keeps of a stored word what one of its kind keeps (`elements_are_words`). After a put there are as many
//!   cells as before.
//!
//! # Not proved
//!
//! - Not shown here, but by `machine_opening`: that a run begins with such objects.

ghost use Rattle.machine_state.specs.shown_objects.Laws.{AreAdded, AreCounted, AreElements, AreFields, AreStatics};

/// Objects that are shown have the references of what shows them.
pub fn objects_are_counted()
    ensures holds { AreCounted }
{}

/// One more object is shown by one more.
pub fn objects_are_added()
    ensures holds { AreAdded }
{}

/// A field of an instance is the word in its slot, read and written.
pub fn fields_are_slots()
    ensures holds { AreFields }
{}

/// The elements of an array are its words, and it keeps what one of its kind keeps.
pub fn elements_are_words()
    ensures holds { AreElements }
{}

/// A static field is the word in its slot, read and written.
pub fn statics_are_slots()
    ensures holds { AreStatics }
{}

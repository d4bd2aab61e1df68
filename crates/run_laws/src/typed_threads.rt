//! What threads and objects are at the words of a well-typed state: each function here is a theorem, and does nothing.
//!
//! A machine of many threads over words rests on it: what it keeps beside the stacks of its threads are numbers without
//! a kind. None of it depends on how many threads or objects there are. The lemmas in `proofs/` are there for a crate
//! above to cite.
//!
//! # Proved
//!
//! Of the words of a well-typed state, however many threads and objects there are:
//!
//! - The exception that is pending in a thread that has not ended is there and is an instance of Throwable or of a
//!   class below it (`pending_exceptions_are_throwable`); the Thread object of each thread is there and is an instance
//!   of Thread or of a class below it (`thread_objects_are_threads`); a thread in a wait set, or one that is to enter a
//!   monitor again, has no exception pending, and the object is there (`waits_are_for_objects`); there are as many
//!   monitors as objects and as many stacks as threads (`tables_are_counted`); each object of the opening heap is there
//!   with its type, among them the Class object of each class, the String of each text and the
//!   streams of System (`opening_objects_are_there`); what an object keeps as the text of a StringBuilder is null, or a
//!   String that is there (`texts_are_strings`), and so is what it keeps as the name of a Thread
//!   (`names_are_strings`).
//! - Of accepted files: an event at such words takes no object away and leaves each with its type
//!   (`a_step_keeps_objects`). Where each exception with which a thread has ended is there and is such an instance of
//!   Throwable, that is so after the event (`a_step_keeps_ends`); in the opening state no thread has ended
//!   (`no_thread_has_ended_at_the_opening`).
//!
//! # Not proved
//!
//! - Not said: that the count of a member of a wait set is the one in the status of its thread.

ghost use Rattle.run_laws.specs.typed_threads.Ends.{AreEndsKept, AreOpeningEnds};
ghost use Rattle.run_laws.specs.typed_threads.Objects.{AreObjectsKept, AreOpeningObjectsThere, AreNamesStrings, AreTextsStrings};
ghost use Rattle.run_laws.specs.typed_threads.Threads.{ArePendingThrowable, AreTablesCounted, AreThreadObjects, AreWaitsForObjects};

/// The exception that is pending in a thread that has not ended is there, and is an instance of Throwable or of a class
/// below it.
pub fn pending_exceptions_are_throwable()
    ensures holds { ArePendingThrowable }
{}

/// The Thread object of each thread is there, and is an instance of Thread or of a class below it.
pub fn thread_objects_are_threads()
    ensures holds { AreThreadObjects }
{}

/// A thread that waits, or is to enter a monitor again, has no exception pending, and the object of that monitor is
/// there.
pub fn waits_are_for_objects()
    ensures holds { AreWaitsForObjects }
{}

/// There are as many monitors as objects, and as many stacks as threads.
pub fn tables_are_counted()
    ensures holds { AreTablesCounted }
{}

/// The objects of the opening heap are there, each with its type.
pub fn opening_objects_are_there()
    ensures holds { AreOpeningObjectsThere }
{}

/// What each object keeps as the text of a StringBuilder is null, or a String that is there.
pub fn texts_are_strings()
    ensures holds { AreTextsStrings }
{}

/// What each object keeps as the name of a Thread is null, or a String that is there.
pub fn names_are_strings()
    ensures holds { AreNamesStrings }
{}

/// An event takes no object away, and leaves each with its type.
pub fn a_step_keeps_objects()
    ensures holds { AreObjectsKept }
{}

/// In the opening state no thread has ended.
pub fn no_thread_has_ended_at_the_opening()
    ensures holds { AreOpeningEnds }
{}

/// Where each exception with which a thread has ended is there, and is an instance of Throwable or of a class below it,
/// that is so after an event.
pub fn a_step_keeps_ends()
    ensures holds { AreEndsKept }
{}

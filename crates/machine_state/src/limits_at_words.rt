//! Limits, fat locks and references over words: each function here is a theorem, and does nothing.
//!
//! The lemmas in `proofs/` are there for a crate above to cite.
//!
//! # Proved
//!
//! - The limit that an event would pass, read over any carrier (`limit_by`), is over values the one of the definitions,
//!   and over the words of a state and of its answer the same; the opening states have as many objects
//!   (`limits_are_the_same`). In files that link it is so of an event at words of a well-typed state
//!   (`limits_are_carried`), and after the events of a run that leads to the state it is the limit that stands
//!   (`limits_stand_at_words`). One more event there leads to words of the next state of the run, with what it takes
//!   and so inflates (`runs_go_on_at_words`).
//! - A list of flags for the objects, of which as many are set as locks are inflated, goes on with what an event takes
//!   (`flags_are_kept`; that the object of the event has a flag is asked for). Where counts are right and the flags are
//!   those of `monitor`'s locks, an `enter` that is done and a `wait` of the owner set flags as the event does, and
//!   would be refused, memory aside, just at the limit of the event; what a call of `monitor` answers tells that limit:
//!   none where it is done or refused for want of memory, and else the cause. A `relock` of a thread that is to enter
//!   again is one that may be called, if the object is there and the thread's number is below 32,767
//!   (`calls_are_as_taken`). At words of a well-typed state the object is there (`relocks_may_be_called`).
//! - Of a well-typed state with fewer than 2^32 objects: each reference r in a field, an element or a static field, in
//!   a local variable or on the operand stack of a frame where its typing has a type that may be used, each Thread
//!   object, each pending exception of a thread that has not ended, and the object for which a thread waits, or whose
//!   monitor it is to enter again, is the number of an object that is there, and r + 1 is below 2^32
//!   (`references_have_room`); the last three of words of such a state, too (`threads_have_room`). Of a local variable
//!   that may not be read nothing is said, nor of the operand stack of a frame where an exception is pending.

ghost use Rattle.machine_state.specs.limits_at_words.FatLocks.{AreCallsAsTaken, AreFlagsKept, AreRelocksAtWordsAllowed};
ghost use Rattle.machine_state.specs.limits_at_words.Limits.{AreLimitsCarried, AreLimitsSame, AreLimitsStanding, AreRunsLongerAtWords};
ghost use Rattle.machine_state.specs.limits_at_words.Room.{AreReferencesFitting, AreThreadsFitting};

/// The limit that an event would pass is, over values and over their words, the one of the definitions.
pub fn limits_are_the_same()
    ensures holds { AreLimitsSame }
{}

/// At words of a well-typed state of linked files the limit at an event is the one at the state.
pub fn limits_are_carried()
    ensures holds { AreLimitsCarried }
{}

/// After the events of a run the limit that stands at such words is the one that stands at the state.
pub fn limits_stand_at_words()
    ensures holds { AreLimitsStanding }
{}

/// One more event at words of the state of a run leads to words of the next state, and the run goes on by what it
/// takes.
pub fn runs_go_on_at_words()
    ensures holds { AreRunsLongerAtWords }
{}

/// A flag for each object says which locks the events inflated, and goes on with each event by what it takes.
pub fn flags_are_kept()
    ensures holds { AreFlagsKept }
{}

/// Where counts of monitors are right, the calls of `monitor` set flags as events do by what they take, and are
/// refused at their limits; a thread that is to enter a monitor again may.
pub fn calls_are_as_taken()
    ensures holds { AreCallsAsTaken }
{}

/// At words of a well-typed state where counts are right, `relock` may be called for each thread that has left a wait
/// set.
pub fn relocks_may_be_called()
    ensures holds { AreRelocksAtWordsAllowed }
{}

/// In a well-typed state with fewer than 2^32 objects the word of each reference is one of 32 bits.
pub fn references_have_room()
    ensures holds { AreReferencesFitting }
{}

/// At words of a well-typed state with fewer than 2^32 objects so are those that a thread keeps beside its stack.
pub fn threads_have_room()
    ensures holds { AreThreadsFitting }
{}

//! Events that are alone: what the other threads can still do does not depend on them, so they may as well come first.
//! Each function here is a theorem, and does nothing.
//!
//! The next event of a thread is alone in a state (`IsAlone`) where, behind each run of other threads' events, it is
//! enabled, it is the thread's only event, done first it leads to the same, and it is in conflict with no other
//! thread. It is a persistent set of one thread (Godefroid), and it stays one. What "the same" is, and what a
//! conflict is, is left open: a bisimulation (`IsBisimulation`), and any relation of threads in a state that it keeps.
//! The theorems take well-typed states with the same words for the same, and any test of threads that words tell for
//! the conflict; a test that never passes leaves conflicts out.
//!
//! # Proved
//!
//! Of accepted files:
//!
//! - Well-typed states with the same words are bisimilar: an event leads from both to such states, with the same
//!   threads that may step and the same outcome so far (`states_with_the_same_words_are_bisimilar`). What is alone in a
//!   state is alone behind each event of another thread (`what_is_alone_stays`).
//! - Where no other thread has an event, as where all others wait for one, its event is alone whatever it does, if it
//!   has a single one and is in no conflict (`sole_events_are_alone`).
//! - Each event leaves each object there, each array as many elements as it had (`arrays_keep_their_lengths`), and each
//!   String its text, but for one that the run made and that is empty, which its constructor may give one
//!   (`strings_keep_their_texts`). So in each state of a run the String of a constant has the text of the constant
//!   (`constants_keep_their_texts`).
//!   Fields that the instruction of the thread doesn't put keep their values, and elements do where it stores none; a
//!   call by the descriptor of `String.getChars` counts as a store.
//!   Left out are hidden fields (`is_hidden`), which methods without code put: what a Thread keeps, the text of a
//!   StringBuilder, and what a Throwable keeps; and static fields of a class whose initialisation hasn't begun
//!   (`variables_that_are_not_written_are_kept`).
//! - An event is its thread's own (`IsOwnEvent`) where it changes the thread's stack alone, to the same one wherever
//!   the thread stands as here, may use the classes that it may use here, and finds as here the variables of the kinds
//!   that nothing may write. In a state of a run, where each event of others, behind each run of theirs, writes what may
//!   be written at most, an own event that is in no conflict is alone, and leaves it to each other thread whether it
//!   may step (`own_events_are_alone`).
//! - What each instruction of the program writes at most, the others write at most, in any state
//!   (`others_write_what_the_program_writes`): so a field that no instruction puts, no other thread can still put.
//! - A local event is its thread's own (`local_events_are_own`). So are the call of a method that is not synchronized,
//!   the return from a method that is not, a cast that passes, a test of a type, and the length of an array. So are the
//!   get of a field that nothing may put, static or not, and the load of an element where nothing may store one. What
//!   is static is of a class that the thread may use, and hidden fields are left out (`own_steps_are_own`).
//! - Where the stack of a thread tells that its event called a method, whose frame entered no monitor, or returned from
//!   one that had entered none, that event is alone (`calls_and_returns_are_alone`).
//! - A monitorexit of a monitor that the thread owns, a monitorenter of one, and the return from a synchronized method
//!   whose monitor it owns, but for its first method, are alone (`events_on_owned_monitors_are_alone`).
//! - An event by which a thread leaves a monitor that it owned is alone, where the thread runs on, with no exception
//!   pending and no more entries on its stack (`events_that_leave_monitors_are_alone`).
//!
//! # Not proved
//!
//! - Not said: which other events are alone, as exceptions that are caught, or puts of fields that the others can
//!   neither get nor put; what of the program the others can still reach.

ghost use Rattle.search_laws.specs.Alone.{AreSameWordsBisimilar, AreSoleEventsAlone, DoesAloneStay};
ghost use Rattle.search_laws.specs.Lengths.{AreLengthsKept};
ghost use Rattle.search_laws.specs.Moves.{AreMovesAlone};
ghost use Rattle.search_laws.specs.OwnEvents.{AreLocalEventsOwn, AreOwnEventsAlone};
ghost use Rattle.search_laws.specs.OwnSteps.{AreOwnStepsOwn};
ghost use Rattle.search_laws.specs.OwnedMonitors.{AreOwnedMonitorsAlone};
ghost use Rattle.search_laws.specs.Releases.{AreReleasesAlone};
ghost use Rattle.search_laws.specs.Texts.{AreTextsKept, HaveConstantsTexts};
ghost use Rattle.search_laws.specs.Writes.{AreVariablesKept, AreWritesOfProgramKept};

use monitor_laws::owners::owners_are_kept;

/// Well-typed states with the same words do the same.
pub fn states_with_the_same_words_are_bisimilar()
    ensures holds { AreSameWordsBisimilar }
{}

/// What is alone stays alone behind each event of another thread.
pub fn what_is_alone_stays()
    ensures holds { DoesAloneStay }
{}

/// Where no other thread has an event, the only event of a thread is alone.
pub fn sole_events_are_alone()
    ensures holds { AreSoleEventsAlone }
{}

/// Each event leaves each object there, and each array as many elements as it had.
pub fn arrays_keep_their_lengths()
    ensures holds { AreLengthsKept }
{}

/// Each event leaves each String its text, but for one that the run made and that is empty.
pub fn strings_keep_their_texts()
    ensures holds { AreTextsKept }
{}

/// In each state of a run, the String of a constant has the text of the constant.
pub fn constants_keep_their_texts()
    ensures holds { HaveConstantsTexts }
{}

/// Each event leaves the fields that its instruction doesn't put, and the elements where it stores none.
pub fn variables_that_are_not_written_are_kept()
    ensures holds { AreVariablesKept }
{}

/// The others write what some instruction of the program writes.
pub fn others_write_what_the_program_writes()
    ensures holds { AreWritesOfProgramKept }
{}

/// Where the others write no more than may be written, a thread's own event is alone, and leaves it to them whether
/// they may step.
pub fn own_events_are_alone()
    ensures holds { AreOwnEventsAlone }
{}

/// A local event is its thread's own.
pub fn local_events_are_own()
    ensures holds { AreLocalEventsOwn }
{}

/// The call of a method, the return from a method, neither synchronized, a cast that passes, a test of a type, the
/// length of an array, and the gets and loads of what nothing may write are their thread's own.
pub fn own_steps_are_own()
    ensures holds { AreOwnStepsOwn }
{}

/// A call or a return that enters and leaves no monitor, as the stack of its thread tells, is alone.
pub fn calls_and_returns_are_alone()
    ensures holds { AreMovesAlone }
{}

/// An event by which a thread leaves a monitor that it owns, or enters it again, is alone.
pub fn events_on_owned_monitors_are_alone()
    ensures holds { AreOwnedMonitorsAlone }
{}

/// An event by which a thread leaves a monitor, and runs on, is alone.
pub fn events_that_leave_monitors_are_alone()
    ensures holds { AreReleasesAlone }
{
    owners_are_kept();
}

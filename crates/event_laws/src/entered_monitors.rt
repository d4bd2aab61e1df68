//! Monitors that invocations enter: the function here is a theorem, and does nothing.
//!
//! # Proved
//!
//! - Where an event begins an invocation that enters a monitor, its thread owned the monitor before exactly where it
//!   has entered it more than once now (`entries_tell_owners`), of all files and states whose counts are right
//!   (`AreMonitorsCounted`), over values and over words (JVMS 2.11.10).

ghost use Rattle.event_laws.specs.entered_monitors.Entries.{DoEntriesTell};

/// The count of a monitor that an invocation entered tells whether its thread owned it before.
pub fn entries_tell_owners()
    ensures holds { DoEntriesTell }
{}

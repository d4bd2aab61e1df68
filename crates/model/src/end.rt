//! Why a run did no more events.

use std::fmt;

/// Why an enabled event was refused.
#[derive(Clone, Copy, Debug, PartialEq, Eq)]
pub enum RunCause {
    /// The event would give waiters or many entries to one monitor more than the limits allow.
    Monitors,
    /// The event would enter a monitor that has 4,294,967,295 entries once more.
    LockCount,
    /// There was no memory for it.
    Memory,
    /// The event would make one object more than the limits allow.
    Objects,
    /// The event would make more cells than the limits allow.
    Cells,
    /// The event would start one thread more than the limits allow.
    Threads,
}

/// The word of a report.
impl fmt::Display for RunCause {
    ghost use Rattle.std.specs.Prelude.{Some};
    ghost use Rattle.model.specs.Report.{cause_word};

    ghost output = { λ c. Some (cause_word c) };

    fn fmt<W: fmt::Write>(&self, f: &mut fmt::Formatter<W>) -> fmt::Result {
        f.write_str(match self {
            RunCause::Monitors => "monitors",
            RunCause::LockCount => "lockcount",
            RunCause::Memory => "memory",
            RunCause::Objects => "objects",
            RunCause::Cells => "cells",
            RunCause::Threads => "threads",
        })
    }
}

/// Why no more events were done. A number is that of the events that were done.
#[derive(Clone, Copy, Debug, PartialEq, Eq)]
pub enum End {
    /// The schedule has no more events, and some thread has a step that it can do.
    Schedule,
    /// The next event of the schedule is one that its thread cannot do now.
    NotEnabled(u64),
    /// The next event could be done, but was refused.
    Refused(u64, RunCause),
    /// No thread has a step that it can do.
    Quiet,
    /// As many events were done as were allowed, and some thread has a step that it can do.
    Budget,
}

/// The words of a report.
impl fmt::Display for End {
    ghost use Rattle.std.specs.Prelude.{Some};
    ghost use Rattle.model.specs.Report.{end_words};

    ghost output = { λ e. Some (end_words e) };

    fn fmt<W: fmt::Write>(&self, f: &mut fmt::Formatter<W>) -> fmt::Result {
        match self {
            End::Schedule => f.write_str("schedule"),
            End::NotEnabled(done) => write!(f, "not enabled {done}"),
            End::Refused(done, cause) => write!(f, "refused {done} {cause}"),
            End::Quiet => f.write_str("quiet"),
            End::Budget => f.write_str("budget"),
        }
    }
}

//! What runs show.

ghost use Rattle.std.specs.Prelude.{◌≡◌, ◌<◌, ◌^◌, ◌↔◌, IfOk, IsTrue};
ghost use Rattle.model.specs.Schedule.{events_of};
ghost use Rattle.sweeps.specs.Shown.{IsShownWanted, is_same_shown, shown_at, shown_by, shown_in, told_end};

use model::{End, Report};
use program_runs::worlds::Recorded;
use schedule::Schedule;
use search::run_outcomes::{Outcome, Wanted};
use std::alloc::{AllocError, Global};

/// What a run shows, once it has ended.
#[derive(Drop)]
pub enum Shown {
    /// No thread may go on: what was printed, and how the threads stand.
    Outcome(Outcome),
    /// Some thread may go on, and there may be no more events.
    Budget,
    /// A limit refuses an event.
    Refused,
}

impl Shown {
    /// What a run shows that came to this report and this end.
    fn of(report: Report, end: End) -> Shown
        ensures { shown_in result ≡ shown_at end (told_end report) }
    {
        match end {
            End::Quiet => Shown::Outcome(Outcome {
                printed: report.printed,
                threads: report.threads,
            }),
            End::Refused(_, _) => Shown::Refused,
            End::Budget | End::Schedule | End::NotEnabled(_) => Shown::Budget,
        }
    }

    /// Whether another run shows the same.
    pub fn is_same(&self, other: &Shown) -> bool
        ensures { result ≡ is_same_shown (shown_in self.now) (shown_in other.now) }
    {
        match (self, other) {
            (Shown::Outcome(one), Shown::Outcome(other)) => one.is_same(other),
            (Shown::Budget, Shown::Budget) => true,
            (Shown::Refused, Shown::Refused) => true,
            _ => false,
        }
    }

    /// Whether it is wanted. The only error is a want of memory.
    pub fn is_wanted(&self, alloc: Global, wanted: &Wanted) -> Result<bool, AllocError>
        ensures { IfOk result (λ b. IsTrue b ↔ IsShownWanted wanted.now (shown_in self.now)) }
    {
        match self {
            Shown::Outcome(outcome) => wanted.is(alloc, outcome),
            Shown::Budget | Shown::Refused => Ok(false),
        }
    }
}

/// A run that has ended, as far as it is told of.
#[derive(Drop)]
pub struct Ran {
    pub shown: Shown,
    pub schedule: Schedule,
    /// How many events were done.
    pub events: u64,
}

impl Ran {
    /// The run that is recorded so.
    pub fn of(recorded: Recorded) -> Ran
        ensures shown { shown_in result.shown ≡ shown_by recorded }
        ensures events { events_of result.schedule ≡ events_of recorded.schedule }
        ensures count { result.events ≡ recorded.report.events }
    {
        let Recorded {
            schedule,
            report,
            end,
            ..
        } = recorded;
        let events = report.events;
        Ran {
            shown: Shown::of(report, end),
            schedule,
            events,
        }
    }
}

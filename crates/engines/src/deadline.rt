//! How long a command may take.

ghost use Rattle.std.specs.Prelude.{ℕ, Bool, IfSome, IsTrue, is_some};

use program_runs::workers::Gate;
use schedule::recorded_events::RecordedEvents;
use search::Progress;
use sweeps::Watch;

/// Says how long a command has taken.
pub trait Deadline {
    ghost may_pass: { Self → ℕ → Bool };

    /// Whether so many seconds have passed since the command began.
    fn has_passed(&self, seconds: u32) -> bool
        ensures { IsTrue result → IsTrue (may_pass self.now seconds) };
}

/// A gate that stops a run, a search or a sweep behind so many seconds, where so many are asked for.
#[derive(Drop)]
pub(crate) struct Until<'a, G> {
    pub(crate) gate: &'a G,
    pub(crate) seconds: Option<u32>,
}

impl<G: Deadline> Until<'_, G> {
    /// Whether so many seconds are asked for, and have passed.
    fn is_late(&self) -> bool
        ensures asked { IsTrue result → IsTrue (is_some self.now.seconds) }
        ensures passed { IsTrue result → IfSome self.now.seconds (λ seconds.
            IsTrue (G.may_pass self.now.gate.now seconds)) }
    {
        match self.seconds {
            Some(seconds) => self.gate.has_passed(seconds),
            None => false,
        }
    }
}

impl<G: Gate + Deadline> Gate for Until<'_, G> {
    ghost use Rattle.std.specs.Prelude.{is_some};

    ghost may_stop = { λ u. is_some u.seconds };

    fn burst_begins(&self, thread: u16) {
        self.gate.burst_begins(thread);
    }

    fn burst_ends(&self, thread: u16) {
        self.gate.burst_ends(thread);
    }

    fn turn_ends(&self, events: u32) {
        self.gate.turn_ends(events);
    }

    fn is_watching(&self) -> bool {
        self.gate.is_watching()
    }

    fn watch_record(&self, events: &RecordedEvents) {
        self.gate.watch_record(events);
    }

    fn watch_output(&self, printed: &[u16]) {
        self.gate.watch_output(printed);
    }

    fn is_over(&self) -> bool {
        self.is_late()
    }
}

impl<G: Progress + Deadline> Progress for Until<'_, G> {
    ghost use Rattle.std.specs.Prelude.{is_some};

    ghost may_stop = { λ u. is_some u.seconds };

    fn states_met(&self, states: u32) {
        self.gate.states_met(states);
    }

    fn is_over(&self) -> bool {
        self.is_late()
    }
}

impl<G: Watch + Deadline> Watch for Until<'_, G> {
    ghost use Rattle.std.specs.Prelude.{is_some};

    ghost may_stop = { λ u. is_some u.seconds };

    fn runs_done(&self, runs: u128) {
        self.gate.runs_done(runs);
    }

    fn is_over(&self) -> bool {
        self.is_late()
    }
}

//! Runs of accepted files whose words are shown, event by event, are runs by the definitions. Each function here is a
//! theorem, and does nothing.
//!
//! # Proved
//!
//! - As theorems of accepted files: where the opening state over words is shown, a run of no events is
//!   (`runs_are_opened`). An event that is done in the words to which a run led, with no limit in its way, makes a run
//!   that is one event longer: `run` of the definitions reaches it, no limit stands at any of its events, and the locks
//!   that they inflated are the fat ones (`runs_are_longer`). What an answer says of an event in words that are shown
//!   is so of the run: done, it is one event longer; not enabled, `is_enabled` of the definitions is false; refused, it
//!   is true, and the limit that is told stands (`LimitStands`), where memory wasn't wanted (`runs_go_on`).

ghost use Rattle.machine_state.specs.shown_runs.Runs.{AreRunsOpened, AreRunsLonger, AreRunsGoingOn};

/// Where the opening state is shown, a run of no events is.
pub fn runs_are_opened()
    ensures holds { AreRunsOpened }
{}

/// An event that is done in the words to which a run led, with no limit in its way, makes a run that is one event
/// longer.
pub fn runs_are_longer()
    ensures holds { AreRunsLonger }
{}

/// What becomes of an event in the words that are shown is what becomes of it in the run: it is done, and the run is
/// one event longer, it is not enabled, or it is enabled and refused, where a limit stands or memory is wanted.
pub fn runs_go_on()
    ensures holds { AreRunsGoingOn }
{}

//! What finds the races of a run, action by action.
//!
//! # Proved
//!
//! - `watch`: of whatever actions of a run it was told (`HasWatched`): each race that is told is one of the run, with
//!   its variable and the numbers of its two accesses, and of each action that races with an earlier one a race is
//!   told with it as the second one.
//!
//! # Not proved
//!
//! - Which of several earlier actions is told that race with one.
//!
//! # Wrong bodies
//!
//! - `race_finder-writes-are-reads`: a write is told as a read; refused by `accessed`.

ghost use Rattle.std.specs.Prelude.{◌≡◌, ◌++◌, ◌∷◌, [], List, OnOk};
ghost use Rattle.race_places.specs.declared.run_actions.RunAction.{RunAction as SpecAction};
ghost use Rattle.run_races.specs.race_finder.Found.{HasWatched, accessed, told_with};

use crate::labels::access_of;
use crate::told_races::{Race, ToldRaces, numbers_of};
use race_detection::run_steps::Step;
use race_places::action_detector::ActionDetector;
use race_places::run_actions::{Action, RunAction, Variable};
use std::alloc::{AllocError, Global};

/// Finds the races of a run, of whose actions it is told one after another.
#[derive(Drop)]
pub struct RaceFinder {
    detector: ActionDetector,
    told: ToldRaces,
}

/// The variable that an action reads or writes, and whether it writes it.
pub fn accessed(action: Action) -> Option<(Variable, bool)>
    ensures { result ≡ accessed action }
{
    match action {
        Action::Read { variable, .. } => Some((variable, false)),
        Action::Write { variable, .. } => Some((variable, true)),
        _ => None,
    }
}

/// The race of a variable that an action has with an earlier one.
fn race_with(action: RunAction, earlier: Step, variable: Variable) -> Race
    ensures { result ≡ told_with earlier action variable }
{
    Race {
        variable: numbers_of(variable),
        first: access_of(earlier.thread, earlier.event),
        second: access_of(usize::from(action.thread), action.event),
    }
}

impl RaceFinder {
    /// It was told of no action.
    pub fn new(alloc: Global) -> RaceFinder
        ensures { HasWatched [] result.detector result.told.races.keys }
    {
        RaceFinder {
            detector: ActionDetector::new(alloc),
            told: ToldRaces::new(alloc),
        }
    }

    /// The races that were found.
    pub fn into_told(self) -> ToldRaces
        ensures { result ≡ self.told }
    {
        self.told
    }

    /// Is told of the next action of the run. The only error is a want of memory.
    pub fn watch(&mut self, action: RunAction) -> Result<(), AllocError>
        ensures { OnOk result ((run : List SpecAction) → HasWatched run self.old.detector self.old.told.races.keys
            → HasWatched (run ++ action ∷ []) self.new.detector self.new.told.races.keys) }
    {
        let (_, earlier) = self.detector.watch(action)?;
        let Some(earlier) = earlier else {
            return Ok(());
        };
        let Some((variable, _)) = accessed(action.action) else {
            return Ok(());
        };
        self.told.add(race_with(action, earlier, variable))?;
        Ok(())
    }
}

//! A detector of data races (JLS 17.4.5) that is told of the actions of a run as a machine has them.
//!
//! # Proved
//!
//! - Of whatever actions it was told (`WatchesActions`): to the next one `watch` answers the thread and the event of an
//!   earlier one that races with it, if there is one; it answers none exactly where no earlier action races with it.
//! - Where memory is missing it answers that, and still knows the same actions.
//!
//! # Not proved
//!
//! - Which action is told where several race. That the actions are those of a run.

ghost use Rattle.std.specs.Prelude.{◌≡◌, []};
ghost use Rattle.race_places.specs.action_detector.Watched.{ActionDetectorOf, IsWatchingActions, WatchesActions, with_step};

use crate::numbering::Numbering;
use crate::run_actions::RunAction;
use race_detection::race_detector::Detector;
use race_detection::run_steps::Step;
use std::alloc::{AllocError, Global};
use std::marker::Model;

/// Knows of the actions of a run so far what it takes to tell the races of the next one.
#[derive(Drop)]
pub struct ActionDetector {
    numbering: Numbering,
    detector: Detector,
}

impl Model for ActionDetector {
    ghost Value = { ActionDetectorOf };

    ghost view = { λ d. record { numbering = d.numbering; detector = d.detector } };
}

impl ActionDetector {
    /// A detector that was told of no action.
    pub fn new(alloc: Global) -> ActionDetector
        ensures watches { WatchesActions [] result }
    {
        ActionDetector {
            numbering: Numbering::new(alloc),
            detector: Detector::new(alloc),
        }
    }

    /// Is told of the next action. Answers its step, and that of an earlier one that races with it, if there is any.
    /// Where memory is missing, or this is action 2^64, it wasn't told.
    pub fn watch(&mut self, action: RunAction) -> Result<(Step, Option<Step>), AllocError>
        ensures watched { IsWatchingActions result action self.old self.new }
    {
        match self.numbering.step(action) {
            Ok(step) => {
                let answer = self.detector.watch(step);
                with_step(step, answer)
            }
            Err(fault) => Err(fault),
        }
    }
}

/// What was answered of a step, with the step.
fn with_step(
    step: Step,
    answer: Result<Option<Step>, AllocError>,
) -> Result<(Step, Option<Step>), AllocError>
    ensures { result ≡ with_step step answer }
{
    match answer {
        Ok(earlier) => Ok((step, earlier)),
        Err(fault) => Err(fault),
    }
}

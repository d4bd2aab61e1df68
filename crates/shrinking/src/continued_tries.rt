//! Replays that go on, as tries.

ghost use Rattle.std.specs.Prelude.{◌≡◌, ◌↔◌, IfOk, IsTrue};
ghost use Rattle.std.specs.Arc.{arc_value};
ghost use Rattle.machine.specs.Machines.{IsProgramOf};
ghost use Rattle.shrinking.specs.Shrunk.{ComesTo, EndsWanted};

use crate::tries::Tries;
use linked_code::LinkedProgram;
use model::{End, Limits, Report, RunCause};
use program_runs::continued_runs::{Continued, run_linked_on};
use schedule::Schedule;
use search::run_outcomes::{Outcome, Wanted};
use std::alloc::{AllocError, Global};
use std::marker::Model;
use std::sync::Arc;
use verifier::Verified;

/// Tries whether a run has a wanted outcome that does the events of a schedule, and goes on where it ends: the threads
/// go on in turn. It is of verified class files, under limits and with a budget of events. A schedule of more events
/// than the budget hasn't got it.
#[derive(Drop)]
pub struct ContinuedTries<'a> {
    verified: &'a Arc<Verified>,
    program: &'a Arc<LinkedProgram>,
    limits: Limits,
    budget: u32,
    wanted: &'a Wanted,
}

impl<'a> Model for ContinuedTries<'a> {
    ghost use Rattle.std.specs.Arc.{arc_value};
    ghost use Rattle.machine.specs.Machines.{IsProgramOf};
    ghost use Rattle.shrinking.specs.Shrunk.{TriesFor};

    ghost Value = { TriesFor };

    ghost view = { λ t. record {
      trees = arc_value t.verified.now;
      limits = t.limits;
      budget = t.budget;
      want = t.wanted.now;
    } };

    ghost invariant = { λ t. IsProgramOf (arc_value t.verified.now) (arc_value t.program.now) };
}

impl<'a> ContinuedTries<'a> {
    /// The tries over class files of which there is all that a run needs.
    pub fn new(
        verified: &'a Arc<Verified>,
        program: &'a Arc<LinkedProgram>,
        limits: Limits,
        budget: u32,
        wanted: &'a Wanted,
    ) -> ContinuedTries<'a>
        requires { IsProgramOf (arc_value verified.now) (arc_value program.now) }
        ensures { result
            ≡ record { trees = arc_value verified.now; limits = limits; budget = budget; want = wanted.now } }
    {
        ContinuedTries {
            verified,
            program,
            limits,
            budget,
            wanted,
        }
    }
}

/// Whether a run that came to this report and this end has a wanted outcome. The only error is a want of memory, in the
/// run, too.
fn ends_wanted(alloc: Global, wanted: &Wanted, report: Report, end: End) -> Result<bool, AllocError>
    ensures { IfOk result (λ b. IsTrue b ↔ EndsWanted wanted.now report end) }
{
    match end {
        End::Quiet => {
            let outcome = Outcome {
                printed: report.printed,
                threads: report.threads,
            };
            wanted.is(alloc, &outcome)
        }
        End::Refused(_, RunCause::Memory) => Err(AllocError),
        End::Budget | End::Refused(_, _) | End::Schedule | End::NotEnabled(_) => Ok(false),
    }
}

/// Whether a run that was to go on behind a schedule has a wanted outcome. The only error is a want of memory, in the
/// run, too.
fn comes_to(alloc: Global, wanted: &Wanted, run: Continued) -> Result<bool, AllocError>
    ensures { IfOk result (λ b. IsTrue b ↔ ComesTo wanted.now run) }
{
    match run {
        Continued::Whole(recorded) => ends_wanted(alloc, wanted, recorded.report, recorded.end),
        Continued::Part(_, _) => Ok(false),
    }
}

impl Tries for ContinuedTries<'_> {
    ghost use Rattle.shrinking.specs.Shrunk as spec;

    ghost has = { spec.Has };

    ghost lacks = { spec.Lacks };

    fn has(&self, alloc: Global, schedule: &Schedule) -> Result<bool, AllocError> {
        let verified = Arc::try_clone(self.verified)?;
        let program = Arc::try_clone(self.program)?;
        let run = run_linked_on(alloc, verified, program, schedule, self.limits, self.budget)?;
        let comes_to = comes_to(alloc, self.wanted, run)?;
        let is_within = schedule.count() <= u64::from(self.budget);
        Ok(comes_to && is_within)
    }
}

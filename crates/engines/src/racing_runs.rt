//! What is told of the races of a run, before its report.

ghost use Rattle.std.specs.Prelude.{IfOk};
ghost use Rattle.engines.specs.RacedRuns.{IsBehindRaces};
ghost use Rattle.recorded_races.specs.record_races.Told.{WasRecorded};

use crate::racing::raced_status;
use crate::running::Outcome;
use program_runs::workers::Recorded;
use recorded_races::record_races::record_races;
use std::alloc::{AllocError, Global};

/// What a run says, behind a line for each of its races where these are asked for.
pub(crate) fn behind_races(
    alloc: Global,
    recorded: &Recorded,
    is_asked: bool,
    outcome: Outcome,
) -> Result<Outcome, AllocError>
    requires { WasRecorded recorded.now }
    ensures { IfOk result (IsBehindRaces is_asked recorded.now outcome) }
{
    if !is_asked {
        return Ok(outcome);
    }
    let told = record_races(alloc, recorded)?;
    let mut text = told.lines;
    text.extend_from_slice(outcome.text.as_slice())?;
    Ok(Outcome {
        text,
        file: outcome.file,
        status: raced_status(outcome.status, told.has_race),
    })
}

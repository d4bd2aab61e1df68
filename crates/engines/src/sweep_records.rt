//! The schedules of the outcomes of a sweep, as schedule files.

ghost use Rattle.std.specs.Prelude.{◌<◌, ◌^◌, ◌++◌, ◌∷◌, [], IfOk, OnOk, length, map, vec_items};
ghost use Rattle.sweeps.specs.Tallies.{same_in};
ghost use Rattle.engines.specs.OutcomeFiles.{AreFilesOf, AreOutcomeFiles, outcomes_of};
ghost use Rattle.engines.specs.RecordForms.{recorded_as};

use crate::recording::RecordForm;
use crate::running::file_of;
use model::Limits;
use std::alloc::{AllocError, Global};
use sweeps::SameRuns;

/// Of what the runs of a sweep over class files show: the schedule files of the first runs of the outcomes, where
/// these are asked for.
pub(crate) fn outcome_files(
    alloc: Global,
    is_recorded: bool,
    files: &[Vec<u8>],
    form: RecordForm,
    limits: Limits,
    listed: &[SameRuns],
) -> Result<Vec<Vec<u8>>, AllocError>
    requires { length files.now < 2 ^ 32 }
    ensures { IfOk result (λ made. AreOutcomeFiles is_recorded (recorded_as limits form (map vec_items files.now))
        (map same_in listed.now) (map vec_items made.items)) }
{
    if is_recorded {
        files_of(alloc, files, form, limits, listed)
    } else {
        Ok(Vec::new(alloc))
    }
}

/// The same, of all outcomes.
fn files_of(
    alloc: Global,
    files: &[Vec<u8>],
    form: RecordForm,
    limits: Limits,
    listed: &[SameRuns],
) -> Result<Vec<Vec<u8>>, AllocError>
    requires { length files.now < 2 ^ 32 }
    ensures { IfOk result (λ made. AreFilesOf (recorded_as limits form (map vec_items files.now))
        (outcomes_of (map same_in listed.now)) (map vec_items made.items)) }
{
    let mut made = Vec::new(alloc);
    for same in listed {
        push_file(alloc, files, form, limits, same, &mut made)?;
    }
    Ok(made)
}

/// The schedule file of the first of the runs that show the same, where this is an outcome, behind others.
fn push_file(
    alloc: Global,
    files: &[Vec<u8>],
    form: RecordForm,
    limits: Limits,
    same: &SameRuns,
    made: &mut Vec<Vec<u8>>,
) -> Result<(), AllocError>
    requires { length files.now < 2 ^ 32 }
    ensures { OnOk result ((others : _)
        → AreFilesOf (recorded_as limits form (map vec_items files.now)) (outcomes_of others)
        (map vec_items made.old.items)
        → AreFilesOf (recorded_as limits form (map vec_items files.now)) (outcomes_of (others ++ same_in same.now ∷ []))
        (map vec_items made.new.items)) }
{
    if same.shown.is_outcome() {
        made.push(file_of(alloc, files, form, limits, &same.schedule)?)?;
    }
    Ok(())
}

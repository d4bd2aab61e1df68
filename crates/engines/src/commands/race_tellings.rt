//! What the command `races` does.

ghost use Rattle.std.specs.Prelude.{◌≡◌, IfErr, IfOk, None, map, vec_items};
ghost use Rattle.std.specs.Io.KnownBytes.{Appends};
ghost use Rattle.engines.specs.Commands.{IsRacesDone, IsRacesUndone};
ghost use Rattle.engines.specs.Files.{known};
ghost use Rattle.engines.specs.Recordings.{conditions_of};
ghost use Rattle.engines.specs.Failures.{FolderMayFail, TellsFailures};

use crate::explanation::Explanation;
use crate::fault::Fault;
use crate::named_file::{schedule_source, sources};
use crate::racing::races_engine;
use crate::recording::Conditions;
use crate::status::Status;
use crate::telling::told_schedule;
use command_line::Races;
use model::Sink;
use program_files::Folder;
use std::alloc::Global;

/// `races`.
pub(crate) fn races<F: Folder, W: Sink>(
    alloc: Global,
    folder: &F,
    files: &[Vec<u8>],
    given: usize,
    options: &Races,
    output: &mut W,
    explanation: &mut Explanation,
) -> Result<Status, Fault>
    ensures raced { IfOk result (λ status. (text : _)
        × IsRacesDone (F.held folder.now) given
        (known (map vec_items files.now)) options.now text None status
        × Appends (W.contents output.old) (W.contents output.new) text) }
    ensures faulty { IfErr result (λ fault.
        IsRacesUndone (F.held folder.now) given (known (map vec_items files.now)) options.now
        (W.contents output.old) (W.contents output.new) fault None) }
    ensures told { TellsFailures (FolderMayFail F.may_fail) result (W.failures output.old) (W.failures output.new) }
{
    let status = raced(alloc, folder, files, given, options, output)?;
    if let Some(most) = explanation.most_events(status, options.explain, options.quiet) {
        let lines = told_schedule(
            alloc,
            folder,
            &options.schedule,
            files,
            &conditions_of(options, given),
            most,
        );
        explanation.tell(lines);
    }
    Ok(status)
}

/// Tells the races of a run of the class files of a folder under its schedule.
fn raced<'a, F: Folder, W: Sink>(
    alloc: Global,
    folder: &'a F,
    files: &'a [Vec<u8>],
    given: usize,
    options: &'a Races,
    output: &mut W,
) -> Result<Status, Fault>
    ensures raced { IfOk result (λ status. (text : _)
        × IsRacesDone (F.held folder.now) given
        (known (map vec_items files.now)) options.now text None status
        × Appends (W.contents output.old) (W.contents output.new) text) }
    ensures faulty { IfErr result (λ fault.
        IsRacesUndone (F.held folder.now) given (known (map vec_items files.now)) options.now
        (W.contents output.old) (W.contents output.new) fault None) }
    ensures told { TellsFailures (FolderMayFail F.may_fail) result (W.failures output.old) (W.failures output.new) }
{
    let conditions = conditions_of(options, given);
    let mut schedule = schedule_source(alloc, folder, options.schedule.as_str());
    let mut sources = sources(alloc, folder, files)?;
    races_engine(
        alloc,
        &mut schedule,
        sources.as_mut_slice(),
        &conditions,
        output,
    )
}

/// Under what the schedule is to run.
fn conditions_of(options: &Races, given: usize) -> Conditions
    ensures { result ≡ conditions_of options.now.limits options.now.any_files given 10000000 }
{
    Conditions {
        limits: options.limits,
        any_files: options.any_files,
        given,
        budget: 10_000_000,
    }
}

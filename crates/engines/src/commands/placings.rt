//! `schedule --places`.

ghost use Rattle.std.specs.Prelude.{◌≡◌, ◌⊎◌, IfErr, IfOk, map, vec_items};
ghost use Rattle.std.specs.Io.KnownBytes.{Appends};
ghost use Rattle.engines.specs.Failures.{FolderMayFail, TellsFailures};
ghost use Rattle.engines.specs.Files.{known};
ghost use Rattle.engines.specs.Placings.{AreUsual, IsPlacesDone, IsPlacesUndone};
ghost use Rattle.engines.specs.Recordings.{conditions_of};

use crate::fault::Fault;
use crate::named_file::{schedule_source, sources};
use crate::placing::places_engine;
use crate::recording::Conditions;
use crate::status::Status;
use command_line::{LimitOptions, Places};
use model::Sink;
use program_files::Folder;
use std::alloc::Global;

/// Writes a text with places of a schedule of a folder over its class files.
pub(crate) fn places<'a, F: Folder, W: Sink>(
    alloc: Global,
    folder: &'a F,
    files: &'a [Vec<u8>],
    given: usize,
    options: &'a Places,
    output: &mut W,
) -> Result<Status, Fault>
    ensures placed { IfOk result (λ status. (text : _) × (status ≡ Status.Returned)
        × IsPlacesDone (F.held folder.now) given (known (map vec_items files.now)) options.now text
        × Appends (W.contents output.old) (W.contents output.new) text) }
    ensures faulty { IfErr result (λ fault.
        IsPlacesUndone (F.held folder.now) given (known (map vec_items files.now)) options.now
        (W.contents output.old) (W.contents output.new) fault) }
    ensures told { TellsFailures (FolderMayFail F.may_fail) result (W.failures output.old) (W.failures output.new) }
{
    let limits = usual_limits();
    let conditions = conditions_of(options, limits, given);
    let mut schedule = schedule_source(alloc, folder, options.schedule.as_str());
    let mut sources = sources(alloc, folder, files)?;
    places_engine(
        alloc,
        &mut schedule,
        sources.as_mut_slice(),
        &conditions,
        output,
    )
}

/// Under what the schedule is to run.
fn conditions_of(options: &Places, limits: LimitOptions, given: usize) -> Conditions
    ensures { result ≡ conditions_of limits options.now.any_files given 10000000 }
{
    Conditions {
        limits,
        any_files: options.any_files,
        given,
        budget: 10_000_000,
    }
}

/// No limit is asked for.
fn usual_limits() -> LimitOptions
    ensures { AreUsual result }
{
    LimitOptions {
        objects: None,
        cells: None,
        monitors: None,
        threads: None,
        frames: None,
    }
}

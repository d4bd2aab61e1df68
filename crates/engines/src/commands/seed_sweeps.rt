//! `run` over seeds.

ghost use Rattle.std.specs.Prelude.{◌≡◌, ◌⊎◌, IfErr, IfOk, None, is_some, map, vec_items};
ghost use Rattle.engines.specs.Commands.{IsSweepDone, IsSweepUndone, IsSweepUnrecorded, Leaves, LeavesAt};
ghost use Rattle.std.specs.Io.KnownBytes.{Appends};
ghost use Rattle.engines.specs.Devices.{IsUnable};
ghost use Rattle.engines.specs.Failures.{FolderMayFail, TellsFailures};
ghost use Rattle.engines.specs.Files.{known};
ghost use Rattle.engines.specs.Sweeps.{IsUnswept, SweepsOver};

use crate::commands::outcome_files::{store_outcomes, try_outcomes};
use crate::commands::wanted_outcomes::wanted_by;
use crate::deadline::{Deadline, Until};
use crate::explanation::Explanation;
use crate::fault::Fault;
use crate::named_file::sources;
use crate::status::Status;
use crate::sweep_runs::{MadeSweep, SweepTask, sweep_engine};
use command_line::{Run, SweepOptions};
use model::Sink;
use program_files::Folder;
use std::alloc::Global;
use std::sync::Wait;
use std::thread::Threads;
use sweeps::Watch;

/// Sweeps over the seeds that are asked for, and writes the schedules of the outcomes where they are, too.
pub(crate) fn sweep_files<R: Threads + Wait + Sync, G: Watch + Deadline, F: Folder, W: Sink>(
    rt: &R,
    alloc: Global,
    gate: &G,
    folder: &mut F,
    files: &[Vec<u8>],
    given: usize,
    options: &Run,
    sweep: &SweepOptions,
    output: &mut W,
    explanation: &mut Explanation,
) -> Result<Status, Fault>
    ensures done { IfOk result
        (Leaves (IsSweepDone (F.held folder.old) given (known (map vec_items files.now)) options.now sweep.now)
        (W.contents output.old) (W.contents output.new) (F.held folder.old) (F.held folder.new)) }
    ensures faulty { IfErr result (LeavesAt (λ fault written.
        (IsUnable fault × (W.contents output.new ≡ W.contents output.old) × (written ≡ None))
        ⊎ (IsSweepUndone (F.held folder.old) given (known (map vec_items files.now)) options.now sweep.now
        (W.contents output.old) (W.contents output.new) fault written
        ⊎ IsSweepUnrecorded (F.held folder.old) given (known (map vec_items files.now)) options.now sweep.now
        (W.contents output.old) (W.contents output.new) fault written))
        (F.held folder.old) (F.held folder.new)) }
    ensures told { TellsFailures (FolderMayFail F.may_fail) result (W.failures output.old) (W.failures output.new) }
{
    try_outcomes(alloc, folder, &options.record, explanation)?;
    let wanted = wanted_by(alloc, folder, &sweep.goal)?;
    let task = SweepTask {
        given,
        options,
        sweep,
        wanted: &wanted,
    };
    let swept = sweep_for(rt, alloc, gate, folder, files, task, output)?;
    let schedules = swept.schedules.as_slice();
    store_outcomes(alloc, folder, &options.record, schedules, explanation)?;
    Ok(swept.status)
}

/// Sweeps for an outcome.
fn sweep_for<R: Threads + Wait + Sync, G: Watch + Deadline, F: Folder, W: Sink>(
    rt: &R,
    alloc: Global,
    gate: &G,
    folder: &F,
    files: &[Vec<u8>],
    task: SweepTask<'_>,
    output: &mut W,
) -> Result<MadeSweep, Fault>
    ensures swept { IfOk result (λ swept. (text : _)
        × SweepsOver task.entry.given (known (map vec_items files.now)) task.entry.options.now task.entry.sweep.now
        (is_some task.entry.options.now.seconds) task.entry.wanted.now text (map vec_items swept.schedules.items) swept.status
        × Appends (W.contents output.old) (W.contents output.new) text) }
    ensures faulty { IfErr result
        (IsUnswept task.entry.given (known (map vec_items files.now)) task.entry.options.now task.entry.sweep.now
        (is_some task.entry.options.now.seconds) task.entry.wanted.now (W.contents output.old) (W.contents output.new)) }
    ensures told { TellsFailures (FolderMayFail F.may_fail) result (W.failures output.old) (W.failures output.new) }
{
    let watch = Until {
        gate,
        seconds: task.options.seconds,
    };
    let mut sources = sources(alloc, folder, files)?;
    sweep_engine(rt, alloc, &watch, sources.as_mut_slice(), task, output)
}

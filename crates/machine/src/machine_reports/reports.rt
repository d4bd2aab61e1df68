//! The report of a run.

ghost use Rattle.std.specs.Prelude.{IfOk};
ghost use Rattle.machine.specs.machine_reports.Told.{Reports};

use crate::machine_reports::ends::thread_ends;
use hierarchy::ClassSet;
use linked_code::LinkedProgram;
use machine_state::Shared;
use model::Report;
use std::alloc::{AllocError, Global};

/// The report of a run after so many events, where a stack has at most so many frames (JVMS 2.5.2, 2.10, 5.5; JLS
/// 17). The classes are those of the program's files. The only error is a want of memory.
pub fn report_of(
    alloc: Global,
    classes: &ClassSet,
    program: &LinkedProgram,
    shared: &Shared,
    frames: usize,
    events: u64,
) -> Result<Report, AllocError>
    ensures { IfOk result (Reports classes.now program.now shared.now frames events) }
{
    Ok(Report {
        printed: Vec::from_slice(alloc, &shared.printed)?,
        threads: thread_ends(alloc, classes, program, shared, frames)?,
        events,
    })
}

//! The outcomes that runs are searched for.

ghost use Rattle.std.specs.Prelude.{◌≡◌, IfErr, IfOk, Some};
ghost use Rattle.engines.specs.Devices.{IsUnable};
ghost use Rattle.engines.specs.Failures.{FolderMayFail};
ghost use Rattle.engines.specs.Goals.{IsAskedFor, IsPrinted, IsPrintedOther, IsPrintedText};
ghost use Rattle.engines.specs.declared.fault.Fault.TheVariants.{Device};

use crate::commands::outcome_texts::text_of_file;
use crate::fault::Fault;
use crate::named_file::source;
use command_line::Goal;
use model::Source;
use program_files::Folder;
use search::run_outcomes::{Wanted, printed_lines};
use std::alloc::{AllocError, Global};

/// The outcome that runs are searched for, where one is asked for.
pub(crate) fn wanted_by<F: Folder>(
    alloc: Global,
    folder: &F,
    goal: &Option<Goal>,
) -> Result<Wanted, Fault>
    ensures asked { IfOk result (IsAskedFor (F.held folder.now) goal.now) }
    ensures unable { IfErr result IsUnable }
    ensures failed { IfErr result (λ fault. fault ≡ Device → FolderMayFail F.may_fail) }
{
    match goal {
        None => Ok(Wanted::Nothing),
        Some(goal) => wanted_for(alloc, folder, goal),
    }
}

/// The outcome that is asked for.
pub(crate) fn wanted_for<F: Folder>(alloc: Global, folder: &F, goal: &Goal) -> Result<Wanted, Fault>
    ensures asked { IfOk result (IsAskedFor (F.held folder.now) (Some goal.now)) }
    ensures unable { IfErr result IsUnable }
    ensures failed { IfErr result (λ fault. fault ≡ Device → FolderMayFail F.may_fail) }
{
    match goal {
        Goal::Deadlock => Ok(Wanted::Stuck),
        Goal::Uncaught => Ok(Wanted::Uncaught),
        Goal::Output(numbers) => Ok(printed(alloc, numbers.as_slice())?),
        Goal::Text(units) => Ok(printed_text(alloc, units.as_slice())?),
        Goal::Differs(path) => printed_other(alloc, folder, path.as_str()),
    }
}

/// The outcomes of runs that print these numbers, in this order, and no others. The only error is a want of memory.
pub(crate) fn printed(alloc: Global, numbers: &[i32]) -> Result<Wanted, AllocError>
    ensures { IfOk result (IsPrinted numbers.now) }
{
    Ok(Wanted::Printed(printed_lines(alloc, numbers)?))
}

/// The outcomes of runs that print this text of UTF-16 units, and no more. The only error is a want of memory.
pub(crate) fn printed_text(alloc: Global, units: &[u16]) -> Result<Wanted, AllocError>
    ensures { IfOk result (IsPrintedText units.now) }
{
    Ok(Wanted::Printed(Vec::from_slice(alloc, units)?))
}

/// The outcomes of runs that print something else than the file with this path has.
pub(crate) fn printed_other<F: Folder>(
    alloc: Global,
    folder: &F,
    path: &str,
) -> Result<Wanted, Fault>
    ensures other { IfOk result (IsPrintedOther (F.held folder.now) path.now) }
    ensures unable { IfErr result IsUnable }
    ensures failed { IfErr result (λ fault. fault ≡ Device → FolderMayFail F.may_fail) }
{
    let bytes = source(folder, path).read_all(alloc)?;
    Ok(Wanted::PrintedOther(text_of_file(alloc, bytes.as_slice())?))
}

//! What the command `schedule` does.

ghost use Rattle.std.specs.Prelude.{◌≡◌, ◌+◌, ◌∷◌, [], IfErr, IfOk, None, Some, string_bytes};
ghost use Rattle.engines.specs.Commands.{IsScheduleDone, IsScheduleUndone, Leaves, LeavesAt};
ghost use Rattle.engines.specs.Failures.{FolderMayFail, TellsFailures};
ghost use Rattle.engines.specs.Files.{IsWith};
ghost use Rattle.engines.specs.Transcriptions.{IsUntranscribed, Transcribes};

use crate::commands::storing::store;
use crate::explanation::Explanation;
use crate::fault::Fault;
use crate::made_file::MadeFile;
use crate::named_file::source;
use crate::status::Status;
use crate::transcribing::{schedule_engine, write_schedule_engine};
use command_line::Schedule;
use model::{Sink, Source};
use program_files::Folder;
use std::alloc::Global;

/// `schedule`.
pub(crate) fn schedule<F: Folder, I: Source, W: Sink>(
    alloc: Global,
    folder: &mut F,
    options: &Schedule,
    input: &mut I,
    output: &mut W,
    explanation: &mut Explanation,
) -> Result<Status, Fault>
    ensures done { IfOk result
        (Leaves (IsScheduleDone (F.held folder.old) (I.remaining input.old) options.now options.now.write)
        (W.contents output.old) (W.contents output.new) (F.held folder.old) (F.held folder.new)) }
    ensures faulty { IfErr result (LeavesAt (IsScheduleUndone (F.held folder.old) (I.remaining input.old) options.now
        options.now.write (W.contents output.old) (W.contents output.new)) (F.held folder.old) (F.held folder.new)) }
    ensures told { TellsFailures (FolderMayFail F.may_fail) result
        (I.failures input.old + W.failures output.old) (I.failures input.new + W.failures output.new) }
{
    if options.write {
        write_schedule(alloc, folder, options, input, explanation)
    } else {
        schedule_engine(alloc, &mut source(folder, options.file.as_str()), output)
    }
}

/// `schedule --write`.
fn write_schedule<F: Folder, I: Source>(
    alloc: Global,
    folder: &mut F,
    options: &Schedule,
    input: &mut I,
    explanation: &mut Explanation,
) -> Result<Status, Fault>
    ensures done { IfOk result (λ status. (bytes : _) × Transcribes options.now.as_version (I.remaining input.old) bytes
        × (status ≡ Status.Returned)
        × IsWith (F.held folder.old) (F.held folder.new) (Some ((string_bytes options.now.file, bytes) ∷ []))) }
    ensures faulty { IfErr result (λ fault.
        ((kept : _) × (made : _) × IsUntranscribed options.now.as_version (I.remaining input.old) kept made fault)
        × IsWith (F.held folder.old) (F.held folder.new) None) }
    ensures told { TellsFailures (FolderMayFail F.may_fail) result (I.failures input.old) (I.failures input.new) }
{
    let mut file = MadeFile::new(alloc);
    let status = write_schedule_engine(alloc, input, options.as_version, &mut file)?;
    let path = options.file.as_str();
    store(alloc, folder, path, file.bytes(), explanation)?;
    Ok(status)
}

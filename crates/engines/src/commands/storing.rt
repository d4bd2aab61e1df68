//! The file that a command writes.

ghost use Rattle.std.specs.Prelude.{◌≡◌, ◌∷◌, [], IfErr, IfOk, IsTrue, None, Ok, OnErr, OnOk, Some, vec_items};
ghost use Rattle.std.specs.Option.{option_map};
ghost use Rattle.model.specs.declared.device.DeviceFault.TheVariants.{Device};
ghost use Rattle.engines.specs.Commands.{IsUnrecorded};
ghost use Rattle.engines.specs.Failures.{FolderMayFail, IsKept, TellsFailures};
ghost use Rattle.engines.specs.Files.{IsWith, written_at};

use crate::explanation::Explanation;
use crate::fault::{Fault, device_fault};
use crate::growth::Growth;
use crate::status::Status;
use model::DeviceFault;
use program_files::Folder;
use std::alloc::Global;
use std::io;

/// Tries whether the file that is asked for can be made. The system's reason why it can't is kept for the explanation.
pub(crate) fn try_record<F: Folder>(
    alloc: Global,
    folder: &F,
    path: &Option<String>,
    explanation: &mut Explanation,
) -> Result<(), DeviceFault>
    ensures failed { IfErr result (λ fault. fault ≡ Device → FolderMayFail F.may_fail) }
{
    match path {
        Some(path) => {
            let tried = folder.try_write(alloc, path.as_str());
            kept(alloc, path.as_str(), tried, explanation)
        }
        None => Ok(()),
    }
}

/// Tries whether a record can grow beside the file that is asked for, while the run goes on. The system's reason why it
/// can't is kept for the explanation.
pub(crate) fn try_growth<G: Growth, F: Folder>(
    alloc: Global,
    gate: &G,
    folder: &F,
    path: &Option<String>,
    explanation: &mut Explanation,
) -> Result<(), DeviceFault>
    ensures failed { IfErr result (λ fault. fault ≡ Device → FolderMayFail F.may_fail) }
{
    let Some(path) = path else {
        return Ok(());
    };
    if gate.can_grow(path.as_str()) {
        return Ok(());
    }
    let part = format!(in alloc; "{path}.part")?;
    let tried = folder.try_write(alloc, part.as_str());
    kept(alloc, part.as_str(), tried, explanation)
}

/// Writes the file that was made, where one is asked for, whatever came of the command, and answers that.
pub(crate) fn recorded<F: Folder>(
    alloc: Global,
    folder: &mut F,
    path: &Option<String>,
    file: &Option<Vec<u8>>,
    outcome: Result<Status, Fault>,
    explanation: &mut Explanation,
) -> Result<Status, Fault>
    ensures done { IfOk result (λ status. (outcome ≡ Ok status)
        × IsWith (F.held folder.old) (F.held folder.new) (written_at path.now (option_map vec_items file.now))) }
    ensures faulty { IfErr result (IsUnrecorded outcome (F.held folder.old) (F.held folder.new)
        (written_at path.now (option_map vec_items file.now))) }
    ensures told { (old : _) (new : _) → TellsFailures (FolderMayFail F.may_fail) outcome old new
        → TellsFailures (FolderMayFail F.may_fail) result old new }
{
    let stored = store_made(alloc, folder, path, file, explanation);
    let status = outcome?;
    stored?;
    Ok(status)
}

/// Writes the file that was made, where one is asked for.
fn store_made<F: Folder>(
    alloc: Global,
    folder: &mut F,
    path: &Option<String>,
    file: &Option<Vec<u8>>,
    explanation: &mut Explanation,
) -> Result<(), DeviceFault>
    ensures stored { OnOk result (IsWith (F.held folder.old) (F.held folder.new)
        (written_at path.now (option_map vec_items file.now))) }
    ensures same { OnErr result (IsWith (F.held folder.old) (F.held folder.new) None) }
    ensures failed { IfErr result (λ fault. fault ≡ Device → FolderMayFail F.may_fail) }
{
    match (path, file) {
        (Some(path), Some(file)) => {
            store(alloc, folder, path.as_str(), file.as_slice(), explanation)
        }
        _ => Ok(()),
    }
}

/// Writes a file. The system's reason why it can't is kept for the explanation.
pub(crate) fn store<F: Folder>(
    alloc: Global,
    folder: &mut F,
    path: &str,
    bytes: &[u8],
    explanation: &mut Explanation,
) -> Result<(), DeviceFault>
    ensures stored { OnOk result (IsWith (F.held folder.old) (F.held folder.new) (Some ((path.now, bytes.now) ∷ []))) }
    ensures same { OnErr result (IsWith (F.held folder.old) (F.held folder.new) None) }
    ensures failed { IfErr result (λ fault. fault ≡ Device → IsTrue (F.may_fail folder.old path.now)) }
{
    let written = folder.write(alloc, path, bytes);
    kept(alloc, path, written, explanation)
}

/// The answer of a folder at a path, of which the system's reason is kept.
fn kept(
    alloc: Global,
    path: &str,
    answer: io::Result<()>,
    explanation: &mut Explanation,
) -> Result<(), DeviceFault>
    ensures { IsKept answer result }
{
    match answer {
        Ok(()) => Ok(()),
        Err(error) => {
            explanation.keep_unwritten(alloc, path, &error);
            Err(device_fault(&error))
        }
    }
}

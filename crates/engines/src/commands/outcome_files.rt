//! The files of the outcomes of a sweep, in a folder.

ghost use Rattle.std.specs.Prelude.{◌≡◌, ◌∷◌, [], IfErr, IfOk, None, OnErr, OnOk, Some, map, string_bytes, take, vec_items};
ghost use Rattle.model.specs.declared.device.DeviceFault.TheVariants.{Device};
ghost use Rattle.engines.specs.Failures.{FolderMayFail};
ghost use Rattle.engines.specs.Files.{AreWith, IsWith};
ghost use Rattle.engines.specs.OutcomeFiles.{files_in, outcome_path, written_in};

use crate::commands::storing::{store, try_record};
use crate::explanation::Explanation;
use model::DeviceFault;
use program_files::Folder;
use std::alloc::{AllocError, Global};

/// The path in a folder of the schedule of the outcome with a number.
pub(crate) fn outcome_path(alloc: Global, folder: &str, number: usize) -> Result<String, AllocError>
    ensures { IfOk result (λ path. string_bytes path ≡ outcome_path folder.now number) }
{
    format!(in alloc; "{folder}/outcome-{number}.schedule")
}

/// Tries whether files of outcomes can be made in the folder that is asked for: the first one stands for all. The
/// system's reason why it can't is kept for the explanation.
pub(crate) fn try_outcomes<F: Folder>(
    alloc: Global,
    folder: &F,
    asked: &Option<String>,
    explanation: &mut Explanation,
) -> Result<(), DeviceFault>
    ensures failed { IfErr result (λ fault. fault ≡ Device → FolderMayFail F.may_fail) }
{
    match asked {
        Some(at) => {
            let first = Some(outcome_path(alloc, at.as_str(), 1)?);
            try_record(alloc, folder, &first, explanation)
        }
        None => Ok(()),
    }
}

/// Writes the schedules of the outcomes of a sweep to the folder that is asked for, one after another. The system's
/// reason why one can't be written is kept for the explanation.
pub(crate) fn store_outcomes<F: Folder>(
    alloc: Global,
    folder: &mut F,
    asked: &Option<String>,
    schedules: &[Vec<u8>],
    explanation: &mut Explanation,
) -> Result<(), DeviceFault>
    ensures stored { OnOk result (IsWith (F.held folder.old) (F.held folder.new)
        (written_in asked.now (map vec_items schedules.now))) }
    ensures front { OnErr result ((count : _) × IsWith (F.held folder.old) (F.held folder.new)
        (written_in asked.now (take count (map vec_items schedules.now)))) }
    ensures failed { IfErr result (λ fault. fault ≡ Device → FolderMayFail F.may_fail) }
{
    match asked {
        Some(at) => store_each(alloc, folder, at.as_str(), schedules, explanation),
        None => Ok(()),
    }
}

/// The same, where one is asked for.
fn store_each<F: Folder>(
    alloc: Global,
    folder: &mut F,
    at: &str,
    schedules: &[Vec<u8>],
    explanation: &mut Explanation,
) -> Result<(), DeviceFault>
    ensures stored { OnOk result (AreWith (F.held folder.old) (F.held folder.new)
        (files_in at.now 1 (map vec_items schedules.now))) }
    ensures front { OnErr result ((count : _) × AreWith (F.held folder.old) (F.held folder.new)
        (files_in at.now 1 (take count (map vec_items schedules.now)))) }
    ensures failed { IfErr result (λ fault. fault ≡ Device → FolderMayFail F.may_fail) }
{
    let mut number = 1usize;
    for bytes in schedules {
        store_outcome(alloc, folder, at, number, bytes, explanation)?;
        number += 1;
    }
    Ok(())
}

/// Writes the schedule of the outcome with a number to a folder.
fn store_outcome<F: Folder>(
    alloc: Global,
    folder: &mut F,
    at: &str,
    number: usize,
    bytes: &[u8],
    explanation: &mut Explanation,
) -> Result<(), DeviceFault>
    ensures stored { OnOk result (IsWith (F.held folder.old) (F.held folder.new)
        (Some ((outcome_path at.now number, bytes.now) ∷ []))) }
    ensures same { OnErr result (IsWith (F.held folder.old) (F.held folder.new) None) }
    ensures failed { IfErr result (λ fault. fault ≡ Device → FolderMayFail F.may_fail) }
{
    let path = outcome_path(alloc, at, number)?;
    store(alloc, folder, path.as_str(), bytes, explanation)
}

//! Which class files are others than those over which a schedule was recorded, told to a person.

use crate::handed::handed_files;
use crate::recording::{added_files, given_files};
use command_line::Command;
use explanations::refusal_explanations::explain_difference;
use library_files::LibraryClass;
use program_files::Folder;
use schedule::schedule_text::read_either;
use std::alloc::Global;

/// The line that tells which of the files at the paths it is, where they and the schedule at a path can be read again.
pub(crate) fn differing<F: Folder>(
    alloc: Global,
    folder: &F,
    command: &Command,
    library: &[LibraryClass<'_>],
    schedule: &str,
    paths: &[String],
) -> Option<Vec<u8>> {
    let bytes = folder.read(alloc, schedule).ok()?;
    let (_, recorded) = read_either(alloc, &bytes).ok()?;
    let recording = recorded?;
    let handed = handed_files(alloc, folder, command, library, paths).ok()?;
    let files = handed.files.as_slice();
    let given = given_files(files, paths.len());
    let added = added_files(files, paths.len());
    let difference = recording.difference(given, added)?;
    explain_difference(alloc, schedule, difference, paths).ok()
}

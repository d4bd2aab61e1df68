//! What is told of the threads of a run. For it the events are done a second time.

use crate::fault::Fault;
use crate::named_file::schedule_source;
use crate::place_schedules::{followed, words_of};
use crate::recording::{Conditions, limits_of};
use crate::verification::accepted;
use explanations::thread_explanations::explain_threads;
use model::{Limits, Source};
use program_files::Folder;
use program_runs::verified_programs::verified_program;
use schedule::Schedule;
use std::alloc::{AllocError, Global};
use std::sync::Arc;
use verifier::Verified;

/// What the threads are about that did not end normally, after the events of the schedule that a word is, or whose
/// path it is, if they are not too many.
pub(crate) fn told_schedule<F: Folder>(
    alloc: Global,
    folder: &F,
    word: &String,
    files: &[Vec<u8>],
    conditions: &Conditions,
    most: u64,
) -> Option<Vec<u8>> {
    let bytes = schedule_source(alloc, folder, word.as_str())
        .read_all(alloc)
        .ok()?;
    told_threads(alloc, bytes.as_slice(), files, conditions, most).ok()?
}

/// What the threads are about after the events of the schedule file that was made, if one was.
pub(crate) fn told_record(
    alloc: Global,
    file: &Option<Vec<u8>>,
    files: &[Vec<u8>],
    conditions: &Conditions,
    most: u64,
) -> Option<Vec<u8>> {
    match file {
        Some(bytes) => { told_threads(alloc, bytes.as_slice(), files, conditions, most).ok()? }
        None => None,
    }
}

/// What the threads are about after the events of a schedule of these bytes.
fn told_threads(
    alloc: Global,
    bytes: &[u8],
    files: &[Vec<u8>],
    conditions: &Conditions,
    most: u64,
) -> Result<Option<Vec<u8>>, Fault> {
    let (words, recorded) = words_of(alloc, bytes)?;
    let limits = limits_of(&recorded, files, conditions)?;
    let verified = Arc::new(alloc, accepted(alloc, files)?)?;
    let schedule = followed(alloc, words, &verified, limits, conditions.budget)?.schedule;
    if schedule.count() > most {
        return Ok(None);
    }
    Ok(Some(threads_after(alloc, &verified, &schedule, limits)?))
}

/// What the threads are about of these class files, which are accepted, with these limits.
fn threads_after(
    alloc: Global,
    verified: &Verified,
    schedule: &Schedule,
    limits: Limits,
) -> Result<Vec<u8>, AllocError> {
    let program = verified_program(alloc, verified)?;
    explain_threads(alloc, verified.linked(), &program, schedule, limits)
}

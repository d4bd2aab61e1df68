//! What a replay begins with.

ghost use Rattle.std.specs.Prelude.{◌≡◌, ◌+◌, ◌⊎◌, IfOk, IfErr, map, sum_by, vec_items};
ghost use Rattle.std.specs.Arc.{arc_value};
ghost use Rattle.model.specs.Schedule.{events_of};
ghost use Rattle.schedule.specs.schedule_text.Either.{GivesEntries, GivesEvents};
ghost use Rattle.engines.specs.Engines.{CountsFailure, Reads, ReadsEach};
ghost use Rattle.engines.specs.Opening.{IsAfterFiles, IsKeptBy, IsOfSchedule, IsOpened};
ghost use Rattle.engines.specs.Transcriptions.{IsUnprinted};

use crate::class_files::read_class_files;
use crate::fault::Fault;
use crate::place_schedules::{followed, read_words};
use crate::recording::{Conditions, limits_of};
use crate::verification::accepted;
use model::{DeviceFault, Limits, Source};
use schedule::schedule_text::read_either;
use schedule::{Recording, Schedule, ScheduleFault};
use std::alloc::Global;
use std::sync::Arc;
use verifier::Verified;

/// Class files that are accepted, and under what they are to run.
#[derive(Drop)]
pub(crate) struct Opened {
    pub(crate) schedule: Schedule,
    /// Whether the schedule gives up at a place.
    pub(crate) gives_up: bool,
    pub(crate) files: Vec<Vec<u8>>,
    pub(crate) verified: Arc<Verified>,
    pub(crate) limits: Limits,
}

/// Reads the schedule, then the class files, and then says what is wrong with them, if anything is: first whether with
/// what the schedule was recorded fits them and the options, and then whether they are accepted.
pub(crate) fn open<S: Source>(
    alloc: Global,
    schedule: &mut S,
    files: &mut [S],
    conditions: &Conditions,
) -> Result<Opened, Fault>
    ensures opened { IfOk result (λ opened. (bytes : _) × Reads (S.remaining schedule.old) bytes
        × ReadsEach (map S.remaining files.old) (map vec_items opened.files.items)
        × IsOpened bytes (map vec_items opened.files.items) conditions.now (arc_value opened.verified)
        (events_of opened.schedule) opened.limits opened.gives_up) }
    ensures kept { IfErr result (IsKeptBy (S.remaining schedule.old) (map S.remaining files.old) conditions.now) }
    ensures schedule_first { IfErr result (λ fault. IsOfSchedule fault → (files.new ≡ files.old)
        ⊎ IsAfterFiles (S.remaining schedule.old) (map S.remaining files.old) conditions.now fault) }
    ensures counted { CountsFailure result
        (S.failures schedule.old + sum_by S.failures files.old)
        (S.failures schedule.new + sum_by S.failures files.new) }
{
    let (words, recorded) = read_words(alloc, schedule)?;
    let files = read_class_files(alloc, files)?;
    let limits = limits_of(&recorded, files.as_slice(), conditions)?;
    let verified = Arc::new(alloc, accepted(alloc, files.as_slice())?)?;
    let given = followed(alloc, words, &verified, limits, conditions.budget)?;
    Ok(Opened {
        schedule: given.schedule,
        gives_up: given.gives_up,
        files,
        verified,
        limits,
    })
}

/// The schedule that is given as a file or as text, and with what it was recorded.
pub(crate) fn read_given<S: Source>(
    alloc: Global,
    file: &mut S,
) -> Result<(Schedule, Option<Recording>), Fault>
    ensures read { IfOk result (λ read. (bytes : _) × Reads (S.remaining file.old) bytes
        × GivesEvents bytes read.1 (events_of read.0) × GivesEntries bytes read.1 read.0) }
    ensures kept { IfErr result (λ fault. (lefts : _) (options : _)
        → IsKeptBy (S.remaining file.old) lefts options fault) }
    ensures unprinted { IfErr result (λ fault. (sink : _) → IsUnprinted (S.remaining file.old) sink sink fault) }
    ensures counted { CountsFailure result (S.failures file.old) (S.failures file.new) }
{
    match file.read_all(alloc) {
        Ok(bytes) => Ok(read_either(alloc, bytes.as_slice())?),
        Err(DeviceFault::Device) => Err(Fault::Device),
        Err(DeviceFault::Memory) => Err(Fault::Schedule(ScheduleFault::OutOfMemory)),
    }
}

//! Schedules as text, over any reader and writer.

ghost use Rattle.std.specs.Prelude.{◌≡◌, ◌+◌, IfOk, IfErr};
ghost use Rattle.std.specs.Io.KnownBytes.{Appends};
ghost use Rattle.engines.specs.Engines.{CountsFailure, Reads};
ghost use Rattle.engines.specs.Transcriptions.{IsUnprinted, IsUntranscribed, Prints, Transcribes, told_as};

use crate::fault::Fault;
use crate::opening::read_given;
use crate::status::Status;
use model::{DeviceFault, Sink, Source};
use schedule::schedule_text::{TextFault, parse, print};
use schedule::{Recording, write_schedule};
use std::alloc::Global;

/// Writes the text of a schedule, and answers the status of what is done. The schedule is read as text, too, where its
/// first byte is a digit, `#`, or white space, and else as a schedule file.
///
/// Nothing is written where the schedule can't be read or is refused.
pub fn schedule_engine<S: Source, W: Sink>(
    alloc: Global,
    file: &mut S,
    text: &mut W,
) -> Result<Status, Fault>
    // The text of the schedule that the source gives is written, and nothing else.
    ensures printed { IfOk result (λ status. (printed : _) × (status ≡ Status.Returned)
        × Prints (S.remaining file.old) printed
        × Appends (W.contents text.old) (W.contents text.new) printed) }
    ensures faulty { IfErr result (IsUnprinted (S.remaining file.old) (W.contents text.old) (W.contents text.new)) }
    ensures counted { CountsFailure result (S.failures file.old + W.failures text.old)
        (S.failures file.new + W.failures text.new) }
{
    let (schedule, recorded) = read_given(alloc, file)?;
    let printed = print(alloc, &schedule, recorded.as_ref())?;
    text.write_all(printed.as_slice())?;
    Ok(Status::Returned)
}

/// Writes the schedule file of a text, and answers the status of what is done. The file is of version 3 where the
/// text has checksums, of version 2 where it says else with what the schedule was recorded, and else of version 1; and
/// of no later version than is asked for.
///
/// Nothing is written where the text can't be read or is refused.
pub fn write_schedule_engine<S: Source, W: Sink>(
    alloc: Global,
    text: &mut S,
    as_version: Option<u32>,
    file: &mut W,
) -> Result<Status, Fault>
    // The bytes of the entries that the text spells are written, and nothing else.
    ensures written { IfOk result (λ status. (bytes : _) × (status ≡ Status.Returned)
        × Transcribes as_version (S.remaining text.old) bytes
        × Appends (W.contents file.old) (W.contents file.new) bytes) }
    ensures faulty { IfErr result (IsUntranscribed as_version (S.remaining text.old)
        (W.contents file.old) (W.contents file.new)) }
    ensures counted { CountsFailure result (S.failures text.old + W.failures file.old)
        (S.failures text.new + W.failures file.new) }
{
    let read = read_text(alloc, text)?;
    let (schedule, recorded) = parse(alloc, read.as_slice())?;
    let told = kept_of(as_version, recorded);
    let bytes = write_schedule(alloc, &schedule, told.as_ref())?;
    file.write_all(bytes.as_slice())?;
    Ok(Status::Returned)
}

/// What a file of this version tells of a recording, or one of the version that it is of.
pub(crate) fn kept_of(version: Option<u32>, recording: Option<Recording>) -> Option<Recording>
    ensures { result ≡ told_as version recording }
{
    match version {
        Some(1) => None,
        Some(2) => match recording {
            Some(recording) => Some(recording.without_checksums()),
            None => None,
        },
        _ => recording,
    }
}

/// The bytes of a text.
fn read_text<S: Source>(alloc: Global, text: &mut S) -> Result<Vec<u8>, Fault>
    ensures read { IfOk result (λ bytes. Reads (S.remaining text.old) bytes.items) }
    ensures faulty { IfErr result (λ fault. (as_version : _) (sink : _)
        → IsUntranscribed as_version (S.remaining text.old) sink sink fault) }
    ensures counted { CountsFailure result (S.failures text.old) (S.failures text.new) }
{
    match text.read_all(alloc) {
        Ok(bytes) => Ok(bytes),
        Err(DeviceFault::Device) => Err(Fault::Device),
        Err(DeviceFault::Memory) => Err(Fault::Text(TextFault::OutOfMemory)),
    }
}

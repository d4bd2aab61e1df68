//! Schedules in either form.

ghost use Rattle.std.specs.Prelude.{◌≡◌, ◌⊎◌, List, Option, IfErr, IfOk};
ghost use Rattle.model.specs.Schedule.{events_of};
ghost use Rattle.model.specs.declared.event.Event.{Event};
ghost use Rattle.schedule.specs.Files.{Recording as Recorded};
ghost use Rattle.schedule.specs.schedule_text.Either.{AnswersEvents, GivesEntries, GivesEvents, IsFaultOf, begins_text};

use crate::schedule_text::fault::TextFault;
use crate::schedule_text::read::parse;
use crate::{Recording, Schedule, ScheduleFault, read_schedule};
use std::alloc::Global;

/// Why bytes are no schedule.
#[derive(Clone, Copy)]
pub enum EitherFault {
    /// The bytes are read as a schedule file, and are none.
    File(ScheduleFault),
    /// The bytes are read as text, and spell no schedule.
    Text(TextFault),
}

/// Whether bytes are read as text.
fn is_text(bytes: &[u8]) -> bool
    ensures { result ≡ begins_text bytes.now }
{
    match bytes {
        [first, ..] => matches!(*first, b'/'..=b'9' | b'#' | b'\t' | b'\n' | b'\r' | b' '),
        [] => false,
    }
}

/// The schedule that bytes give, and with what it was recorded, where they tell that.
///
/// The bytes are read as text where the first is a digit, `/`, `#`, or white space, and else as a schedule file.
///
/// # Errors
///
/// The errors of `parse` and those of `read_schedule`.
pub fn read_either(
    alloc: Global,
    bytes: &[u8],
) -> Result<(Schedule, Option<Recording>), EitherFault>
    // What is read is given so.
    ensures found { IfOk result (λ read. GivesEvents bytes.now read.1 (events_of read.0)) }
    // The entries are those of the bytes, as they stand.
    ensures entries { IfOk result (λ read. GivesEntries bytes.now read.1 read.0) }
    // What is given so is read, unless memory runs out.
    ensures only { (recorded : Option Recorded) (events : List Event) → GivesEvents bytes.now recorded events
        → AnswersEvents result recorded events }
    // A fault stands in the bytes, unless memory ran out.
    ensures refused { IfErr result (IsFaultOf bytes.now) }
{
    if is_text(bytes) {
        match parse(alloc, bytes) {
            Ok(read) => Ok(read),
            Err(fault) => Err(EitherFault::Text(fault)),
        }
    } else {
        match read_schedule(alloc, bytes) {
            Ok(read) => Ok(read),
            Err(fault) => Err(EitherFault::File(fault)),
        }
    }
}

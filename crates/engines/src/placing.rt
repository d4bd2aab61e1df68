//! A schedule as a text with places, over any readers and writer.

ghost use Rattle.std.specs.Prelude.{◌≡◌, ◌+◌, ◌⊎◌, IfOk, IfErr, map, sum_by, vec_items};
ghost use Rattle.std.specs.Arc.{arc_value};
ghost use Rattle.std.specs.Io.KnownBytes.{Appends};
ghost use Rattle.model.specs.Schedule.{events_of};
ghost use Rattle.engines.specs.Engines.{CountsFailure};
ghost use Rattle.engines.specs.Opening.{IsOpened};
ghost use Rattle.engines.specs.Placings.{IsPlaced, IsUnplaced, Places, SpellsEvents, StandsFor};

use crate::fault::Fault;
use crate::opening::{Opened, open};
use crate::recording::Conditions;
use crate::status::Status;
use model::{Limits, Sink, Source};
use place_runs::placed_text;
use program_runs::verified_programs::verified_program;
use schedule::Schedule;
use schedule::schedule_text::print;
use std::alloc::{AllocError, Global};
use std::sync::Arc;
use verifier::Verified;

/// Writes a text with places that stands for the events of a schedule over class files, and answers the status of what
/// is done.
///
/// What comes before, and its faults, are those of `replay_engine`. Where an event of the schedule can't be done, or no
/// entry ends at a place, the text has the entries alone.
pub fn places_engine<S: Source, W: Sink>(
    alloc: Global,
    schedule: &mut S,
    files: &mut [S],
    conditions: &Conditions,
    output: &mut W,
) -> Result<Status, Fault>
    // A text that stands for the events of the schedule is written, and nothing else.
    ensures placed { IfOk result (λ status. (text : _) × (status ≡ Status.Returned)
        × Places (S.remaining schedule.old) (map S.remaining files.old) conditions.now text
        × Appends (W.contents output.old) (W.contents output.new) text) }
    ensures faulty { IfErr result (IsUnplaced (S.remaining schedule.old) (map S.remaining files.old) conditions.now
        (W.contents output.old) (W.contents output.new)) }
    ensures counted { CountsFailure result
        (S.failures schedule.old + sum_by S.failures files.old + W.failures output.old)
        (S.failures schedule.new + sum_by S.failures files.new + W.failures output.new) }
{
    let opened = open(alloc, schedule, files, conditions)?;
    let text = placed(alloc, opened)?;
    output.write_all(text.as_slice())?;
    Ok(Status::Returned)
}

/// The text of the schedule that was opened. Lets go what was opened.
fn placed(alloc: Global, opened: Opened) -> Result<Vec<u8>, AllocError>
    ensures { IfOk result (λ text. (bytes : _) (options : _)
        → IsOpened bytes (map vec_items opened.files.items) options (arc_value opened.verified)
        (events_of opened.schedule) opened.limits opened.gives_up
        → IsPlaced bytes (map vec_items opened.files.items) options text.items) }
{
    let text = text_over(alloc, &opened.verified, &opened.schedule, opened.limits)?;
    Ok(text)
}

/// A text that stands for the events of a schedule over class files that are accepted.
fn text_over(
    alloc: Global,
    verified: &Arc<Verified>,
    schedule: &Schedule,
    limits: Limits,
) -> Result<Vec<u8>, AllocError>
    ensures { IfOk result (λ text. StandsFor (arc_value verified.now) limits (events_of schedule.now) text.items) }
{
    let program = verified_program(alloc, verified)?;
    match placed_text(alloc, verified, &program, schedule, limits)? {
        Some(text) => Ok(text),
        None => plain_text(alloc, schedule),
    }
}

/// The text of the entries of a schedule, in as few words as it can have. Where there are none, it is a line without a
/// word, so that it can be read as a text.
fn plain_text(alloc: Global, schedule: &Schedule) -> Result<Vec<u8>, AllocError>
    ensures { IfOk result (λ text. SpellsEvents (events_of schedule.now) text.items) }
{
    let joined = schedule.joined(alloc)?;
    if joined.entries().is_empty() {
        let line = Vec::from_slice(alloc, b"\n")?;
        return Ok(line);
    }
    print(alloc, &joined, None)
}

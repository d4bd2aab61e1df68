//! What is told of a run that gave up at a place.

ghost use Rattle.std.specs.Prelude.{◌≡◌, IfOk};
ghost use Rattle.engines.specs.GivenPlaces.{place_text_of, told_status, told_text};

use crate::status::Status;
use model::{End, Report};
use schedule::report::{push_line, push_printed, push_threads, text};
use std::alloc::{AllocError, Global};

/// The text of the report of a replay that ended so, and its status. A run that gave up at a place ends by that.
pub(crate) fn told(
    alloc: Global,
    report: &Report,
    end: End,
    gives_up: bool,
) -> Result<(Vec<u8>, Status), AllocError>
    ensures text { IfOk result (λ told. told.0.items ≡ told_text gives_up report.now end) }
    ensures status { IfOk result (λ told. told.1 ≡ told_status gives_up report.now end) }
{
    if gives_up {
        return Ok((place_text(alloc, report)?, Status::Stopped));
    }
    Ok((text(alloc, report, &end)?, Status::of(report, end)))
}

/// The text of the report of a run that gave up at a place: that of a report, and `end place` with the number of
/// events.
fn place_text(alloc: Global, report: &Report) -> Result<Vec<u8>, AllocError>
    ensures { IfOk result (λ text. text.items ≡ place_text_of report.now) }
{
    let events = report.events;
    let mut text = Vec::new(alloc);
    push_printed(&mut text, &report.printed)?;
    push_threads(alloc, &mut text, &report.threads)?;
    push_line(&mut text, format!(in alloc; "events {events}")?.as_bytes())?;
    push_line(
        &mut text,
        format!(in alloc; "end place {events}")?.as_bytes(),
    )?;
    Ok(text)
}

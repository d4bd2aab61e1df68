//! The text of a report.
//!
//! # Proved
//!
//! - `text` is the text that the definitions give for the report and the end, memory aside.

mod lines;
mod texts;

ghost use Rattle.std.specs.Prelude.{◌≡◌, IfOk, map};
ghost use Rattle.model.specs.Report.{end_state_of, report_text};

use crate::report::lines::push_end;
pub use crate::report::lines::{push_line, push_thread, push_threads};
pub use crate::report::texts::{push_printed, push_text};
use model::{End, Report};
use std::alloc::{AllocError, Global};

/// The text of a report: what was printed, in UTF-8, and a line feed where its last line has none; for each thread a
/// line `thread`, its number and its state; a line `events` with their number; and a line `end` that says why no more
/// were done. A thread's state is `ended`, `threw` with the name of the exception's class (its line feeds as `\n`),
/// `blocked`, `waiting`, `joining`, `initialising` or `runnable`. Each line ends with a line feed.
pub fn text(alloc: Global, report: &Report, end: &End) -> Result<Vec<u8>, AllocError>
    ensures { IfOk result (λ v.
        v.items ≡ report_text report.now.printed.items (map end_state_of report.now.threads.items)
        report.now.events end.now) }
{
    let mut text = Vec::new(alloc);
    push_printed(&mut text, &report.printed)?;
    push_threads(alloc, &mut text, &report.threads)?;
    push_end(alloc, &mut text, report.events, end)?;
    Ok(text)
}

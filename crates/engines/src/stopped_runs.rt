//! The text of a run that was stopped.

ghost use Rattle.std.specs.Prelude.{◌≡◌, IfOk};
ghost use Rattle.machine.specs.machine_replay.Replays.{text_of};
ghost use Rattle.engines.specs.Stopped.{is_stopped, run_text, stopped_text};

use crate::running::Outcome;
use model::{End, Report};
use schedule::report::{push_line, push_printed, push_threads};
use std::alloc::{AllocError, Global};

/// Whether a run was stopped: it has fewer events than its budget, and would go on.
fn is_stopped(report: &Report, end: End, budget: u32) -> bool
    ensures { result ≡ is_stopped budget report.now end }
{
    match end {
        End::Budget => report.events < u64::from(budget),
        End::Schedule | End::NotEnabled(_) | End::Refused(_, _) | End::Quiet => false,
    }
}

/// The text of the report of a run that was stopped: that of another run, with the end `seconds`.
fn stopped_text(alloc: Global, report: &Report) -> Result<Vec<u8>, AllocError>
    ensures { IfOk result (λ text. text.items ≡ stopped_text report.now) }
{
    let mut text = Vec::new(alloc);
    push_printed(&mut text, &report.printed)?;
    push_threads(alloc, &mut text, &report.threads)?;
    let events = report.events;
    push_line(&mut text, format!(in alloc; "events {events}")?.as_bytes())?;
    push_line(&mut text, b"end seconds")?;
    Ok(text)
}

/// What a run says that came to this report and this end, and had so great a budget: what is said of any run, unless it
/// was stopped.
pub(crate) fn unless_stopped(
    alloc: Global,
    outcome: Outcome,
    report: &Report,
    end: End,
    budget: u32,
) -> Result<Outcome, AllocError>
    requires { outcome.text.items ≡ text_of report.now end }
    ensures told { IfOk result (λ told. told.text.items ≡ run_text budget report.now end) }
    ensures same { IfOk result (λ told. (told.file ≡ outcome.file) × (told.status ≡ outcome.status)) }
{
    if !is_stopped(report, end, budget) {
        return Ok(outcome);
    }
    let text = stopped_text(alloc, report)?;
    Ok(Outcome { text, ..outcome })
}

//! The trace of a whole run.

ghost use Rattle.std.specs.Prelude.{[], IfOk, OnErr};
ghost use Rattle.std.specs.Io.KnownBytes.{Appends};
ghost use Rattle.model.specs.Devices.{Counts};
ghost use Rattle.model.specs.Schedule.{events_of};
ghost use Rattle.machine.specs.machine_replay.Shown.{IsOpened};
ghost use Rattle.program_runs.specs.traced_runs.Telling.{HasToldBy, StopsShortBy};
ghost use Rattle.program_runs.specs.traced_runs.Traces.{IsTrace, WritesFront};

use crate::traced_runs::events::{Telling, entry};
use crate::traced_runs::lines::Lines;
use crate::traced_runs::window::Window;
use crate::verified_programs::open_machine;
use machine::machine_replay::report_after;
use machine::{Machine, Stopped};
use model::{DeviceFault, End, Limits, Report, Sink};
use run_laws::soundness::no_event_is_wrong;
use run_laws::word_reports::reports_of_words;
use schedule::Schedule;
use std::alloc::Global;
use std::sync::Arc;
use traces::ProgramNames;
use traces::traced_events::Before;
use verifier::Verified;

/// Does the events of a schedule, as far as they go, and gathers the lines of those that are to be told. Returns how
/// many were done, and why no more.
fn gathered<W: Sink>(
    machine: &mut Machine,
    telling: Telling<'_>,
    before: &mut Before,
    schedule: &Schedule,
    lines: &mut Lines,
    output: &mut W,
) -> Result<(u64, Stopped), DeviceFault>
    ensures told { IfOk result (λ r. HasToldBy telling.entry machine.old 0 (events_of schedule.now) r.0 r.1 machine.new
        (W.contents output.old) (W.contents output.new) lines.old.text.items lines.new.text.items) }
    ensures part { OnErr result (StopsShortBy telling.entry machine.old 0 (events_of schedule.now)
        (W.contents output.old) (W.contents output.new) lines.old.text.items) }
    ensures counted { Counts result (W.failures output.old) (W.failures output.new) }
{
    let mut done = 0u64;
    'entries: for given in schedule.entries() {
        let (count, why) = entry(machine, telling, before, done, *given, lines, output)?;
        done += u64::from(count);
        match why {
            Stopped::Most => {}
            why => return Ok((done, why)),
        }
    }
    Ok((done, Stopped::Most))
}

/// Does the events of a schedule, as far as they go, and tells those that are to be told. Returns how many were done,
/// and why no more.
fn events<W: Sink>(
    alloc: Global,
    machine: &mut Machine,
    telling: Telling<'_>,
    schedule: &Schedule,
    output: &mut W,
) -> Result<(u64, Stopped), DeviceFault>
    ensures told { IfOk result (λ r. HasToldBy telling.entry machine.old 0 (events_of schedule.now) r.0 r.1 machine.new
        (W.contents output.old) (W.contents output.new) [] []) }
    ensures part { OnErr result (StopsShortBy telling.entry machine.old 0 (events_of schedule.now)
        (W.contents output.old) (W.contents output.new) []) }
    ensures counted { Counts result (W.failures output.old) (W.failures output.new) }
{
    let mut before = Before::new(alloc);
    let mut lines = Lines::new(alloc);
    let done = gathered(machine, telling, &mut before, schedule, &mut lines, output)?;
    lines.flush(output)?;
    Ok(done)
}

/// Does what `trace` does by a machine that was opened of these class files, with its limits.
fn trace_opened<W: Sink>(
    alloc: Global,
    verified: &Verified,
    machine: &mut Machine,
    schedule: &Schedule,
    window: Window<'_>,
    output: &mut W,
) -> Result<(Report, End), DeviceFault>
    requires { IsOpened verified.now machine.old.limits machine.old }
    ensures traced { IfOk result (λ r. (text : _)
        × IsTrace verified.now (events_of schedule.now) machine.old.limits window.entry r.0 r.1 text
        × Appends (W.contents output.old) (W.contents output.new) text) }
    ensures part { OnErr result (WritesFront verified.now (events_of schedule.now) machine.old.limits
        window.entry (W.contents output.old) (W.contents output.new)) }
    ensures counted { Counts result (W.failures output.old) (W.failures output.new) }
{
    reports_of_words();
    no_event_is_wrong();
    let program = Arc::try_clone(machine.program())?;
    let names = ProgramNames::new(alloc, verified.linked(), &program)?;
    let telling = Telling {
        names: &names,
        window,
    };
    let (done, why) = events(alloc, machine, telling, schedule, output)?;
    Ok(report_after(alloc, machine, verified.linked().set(), done, why)?)
}

/// Does the events of a schedule over verified class files, as far as they go, under the limits of the run (JVMS 2.5,
/// 2.6, 5.5, chapter 6; JLS 17), and writes a line for each that is to be told. Returns the report of those that were
/// done, and why no more were.
///
/// `Device` is answered where the writer failed, `Memory` for want of memory; a front of the lines is written then.
pub fn trace<W: Sink>(
    alloc: Global,
    verified: &Verified,
    schedule: &Schedule,
    limits: Limits,
    window: Window<'_>,
    output: &mut W,
) -> Result<(Report, End), DeviceFault>
    ensures traced { IfOk result (λ r. (text : _)
        × IsTrace verified.now (events_of schedule.now) limits window.entry r.0 r.1 text
        × Appends (W.contents output.old) (W.contents output.new) text) }
    ensures part { OnErr result (WritesFront verified.now (events_of schedule.now) limits
        window.entry (W.contents output.old) (W.contents output.new)) }
    ensures counted { Counts result (W.failures output.old) (W.failures output.new) }
{
    let mut machine = open_machine(alloc, verified, limits)?;
    trace_opened(alloc, verified, &mut machine, schedule, window, output)
}

//! Events that are done, each with its line.

ghost use Rattle.std.specs.Prelude.{◌≡◌, ◌+◌, ◌^◌, ◌<◌, ◌≤◌, [], ◌∷◌, IfOk, OnErr, replicate};
ghost use Rattle.model.specs.Devices.{Counts};
ghost use Rattle.machine.specs.declared.machine.Stopped.TheVariants.{Most};
ghost use Rattle.machine.specs.schedule_runs.Done.{GoesThrough};
ghost use Rattle.traces.specs.traced_events.Places.{IsSeenOf};
ghost use Rattle.program_runs.specs.traced_runs.Telling.{AddsOne, AfterRun, HasToldBy, StopsShortBy, times, tried};

use crate::traced_runs::folds::run_of_locals;
use crate::traced_runs::lines::Lines;
use crate::traced_runs::locals::is_next_local;
use crate::traced_runs::window::Window;
use machine::{Machine, Stopped};
use model::{DeviceFault, Event, ScheduleEntry, Sink};
use std::alloc::AllocError;
use traces::traced_events::Before;
use traces::{Line, ProgramNames, push_line};

/// By which names events are told, and which of them are.
#[derive(Clone, Copy)]
pub(crate) struct Telling<'a> {
    pub(crate) names: &'a ProgramNames<'a>,
    pub(crate) window: Window<'a>,
}

/// Does an event. Returns why it was not done, or `Most`.
pub(crate) fn once(machine: &mut Machine, event: Event) -> Stopped
    ensures { GoesThrough (times result, result) (event ∷ []) machine.old machine.new }
{
    let (_, why) = machine.repeat(event, 1);
    why
}

/// Does an event, and gathers its line. Returns why it was not done, or `Most`.
pub(crate) fn told_event(
    machine: &mut Machine,
    names: &ProgramNames<'_>,
    before: &mut Before,
    line: Line,
    lines: &mut Lines,
) -> Result<Stopped, AllocError>
    ensures goes { IfOk result (λ why. GoesThrough (times why, why) (line.event ∷ []) machine.old machine.new) }
    ensures seen { IfOk result (λ why. IsSeenOf machine.old.program machine.old.shared line.event.thread
        before.new.frame before.new.class) }
    ensures told { IfOk result (λ why. AfterRun names.now.linked.now machine.old line.number (λ done.
        AddsOne why line.form names.now.linked.now machine.old.limits.frames lines.old.text.items
        lines.new.text.items done line.event)) }
{
    before.look(machine.shared(), machine.program(), line.event.thread)?;
    match once(machine, line.event) {
        Stopped::Most => {
            push_line(
                &mut lines.text,
                &mut lines.spare,
                names,
                line,
                before,
                machine.shared(),
            )?;
            Ok(Stopped::Most)
        }
        why => Ok(why),
    }
}

/// Does an event of a number, and tells it, if it is to be told. Returns why it was not done, or `Most`.
fn event<W: Sink>(
    machine: &mut Machine,
    telling: Telling<'_>,
    before: &mut Before,
    line: Line,
    lines: &mut Lines,
    output: &mut W,
) -> Result<Stopped, DeviceFault>
    requires { line.form ≡ telling.window.form }
    ensures told { IfOk result (λ why.
        HasToldBy telling.entry machine.old line.number (line.event ∷ []) (times why) why machine.new
        (W.contents output.old) (W.contents output.new) lines.old.text.items lines.new.text.items) }
    ensures part { OnErr result (StopsShortBy telling.entry machine.old line.number (line.event ∷ [])
        (W.contents output.old) (W.contents output.new) lines.old.text.items) }
    ensures counted { Counts result (W.failures output.old) (W.failures output.new) }
{
    if !telling.window.has(line.number, line.event.thread) {
        return Ok(once(machine, line.event));
    }
    let why = told_event(machine, telling.names, before, line, lines)?;
    lines.ease(output)?;
    Ok(why)
}

/// Does an event again and again, at least once and at most so often, and tells it: each time in a line, or a run of
/// local ones in one. Returns how many were done, and why no more.
fn some_events<W: Sink>(
    machine: &mut Machine,
    telling: Telling<'_>,
    before: &mut Before,
    line: Line,
    most: u32,
    lines: &mut Lines,
    output: &mut W,
) -> Result<(u32, Stopped), DeviceFault>
    requires form { line.form ≡ telling.window.form }
    requires some { 1 ≤ most }
    requires numbered { line.number + most < 2 ^ 64 }
    ensures some { IfOk result (λ r. r.1 ≡ Most → 1 ≤ r.0) }
    ensures bound { IfOk result (λ r. r.0 ≤ most) }
    ensures within { IfOk result (λ r. tried r.0 r.1 ≤ most) }
    ensures told { IfOk result (λ r. HasToldBy telling.entry machine.old line.number
        (replicate (tried r.0 r.1) line.event) r.0 r.1 machine.new
        (W.contents output.old) (W.contents output.new) lines.old.text.items lines.new.text.items) }
    ensures part { OnErr result (StopsShortBy telling.entry machine.old line.number (replicate most line.event)
        (W.contents output.old) (W.contents output.new) lines.old.text.items) }
    ensures counted { Counts result (W.failures output.old) (W.failures output.new) }
{
    let thread = line.event.thread;
    let window = telling.window;
    if window.summary && window.has(line.number, thread) && is_next_local(machine, thread) {
        let done = run_of_locals(machine, telling, before, line, most, lines)?;
        lines.ease(output)?;
        return Ok(done);
    }
    match event(machine, telling, before, line, lines, output)? {
        Stopped::Most => Ok((1, Stopped::Most)),
        why => Ok((0, why)),
    }
}

/// Does the events of an entry, of which the first has a number, and tells those that are to be told. Returns how
/// many were done, and why no more.
pub(crate) fn entry<W: Sink>(
    machine: &mut Machine,
    telling: Telling<'_>,
    before: &mut Before,
    first: u64,
    entry: ScheduleEntry,
    lines: &mut Lines,
    output: &mut W,
) -> Result<(u32, Stopped), DeviceFault>
    requires { first + entry.repeat < 2 ^ 64 }
    ensures told { IfOk result (λ r.
        HasToldBy telling.entry machine.old first (replicate entry.repeat entry.event) r.0 r.1 machine.new
        (W.contents output.old) (W.contents output.new) lines.old.text.items lines.new.text.items) }
    ensures part { OnErr result (StopsShortBy telling.entry machine.old first (replicate entry.repeat entry.event)
        (W.contents output.old) (W.contents output.new) lines.old.text.items) }
    ensures counted { Counts result (W.failures output.old) (W.failures output.new) }
{
    if telling.window.leaves_out(first, entry) {
        return Ok(machine.repeat(entry.event, entry.repeat));
    }
    let mut done = 0u32;
    'events: while done < entry.repeat {
        let line = Line {
            number: first + u64::from(done),
            event: entry.event,
            form: telling.window.form,
        };
        let left = entry.repeat - done;
        let (count, why) = some_events(machine, telling, before, line, left, lines, output)?;
        done += count;
        match why {
            Stopped::Most => {}
            why => return Ok((done, why)),
        }
    }
    Ok((entry.repeat, Stopped::Most))
}

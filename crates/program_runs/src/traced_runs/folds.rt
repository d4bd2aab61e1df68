//! Runs of local events, of which each is told in one line.

ghost use Rattle.std.specs.Prelude.{◌≡◌, ◌+◌, ◌^◌, ◌<◌, ◌≤◌, true, IfOk, Some, replicate};
ghost use Rattle.machine.specs.declared.machine.Stopped.TheVariants.{Most};
ghost use Rattle.machine.specs.schedule_runs.Done.{GoesThrough};
ghost use Rattle.program_runs.specs.traced_runs.Locals.{IsNextIn, IsNextLocal};
ghost use Rattle.program_runs.specs.traced_runs.Telling.{HasToldBy, RunsOn, tried};
ghost use Rattle.program_runs.specs.traced_runs.Windows.{is_told};

use crate::traced_runs::events::{Telling, once, told_event};
use crate::traced_runs::lines::Lines;
use crate::traced_runs::locals::is_next_local;
use crate::traced_runs::window::Window;
use machine::{Machine, Stopped};
use std::alloc::AllocError;
use traces::traced_events::{Before, FrameBefore};
use traces::{Fold, Line, push_fold};

/// How many events of a run there are behind its first one, and the offset at which the thread stood before the last
/// one.
#[derive(Clone, Copy)]
struct Run {
    more: u32,
    to: u16,
}

/// The frame of a thread before its next event, if that is local and is to be told, and the frame is of a method, by
/// its number.
fn next_in(
    machine: &Machine,
    window: Window<'_>,
    before: &mut Before,
    number: u64,
    thread: u16,
    method: u32,
) -> Result<Option<FrameBefore>, AllocError>
    ensures { IfOk result (λ found. (frame : _) → found ≡ Some frame
        → IsNextIn window.entry machine.now number thread method frame) }
{
    if !window.has(number, thread) || !is_next_local(machine, thread) {
        return Ok(None);
    }
    before.look(machine.shared(), machine.program(), thread)?;
    match before.frame {
        Some(frame) if frame.method == method => Ok(Some(frame)),
        _ => Ok(None),
    }
}

/// Behind the first local event of a run does further ones that are to be told, in the same method, at most so many.
/// The line has the number of the first of these. Returns how many there are, and why there are no more.
fn run_on(
    machine: &mut Machine,
    window: Window<'_>,
    before: &mut Before,
    line: Line,
    from: FrameBefore,
    most: u32,
) -> Result<(Run, Stopped), AllocError>
    requires { line.number + most < 2 ^ 64 }
    ensures bound { IfOk result (λ r. r.0.more ≤ most) }
    ensures within { IfOk result (λ r. tried r.0.more r.1 ≤ most) }
    ensures goes { IfOk result (λ r.
        GoesThrough (r.0.more, r.1) (replicate (tried r.0.more r.1) line.event) machine.old machine.new) }
    ensures runs { IfOk result (λ r. (trees : _)
        → RunsOn trees window.entry machine.old line.number from.method line.event r.0.more from.offset r.0.to) }
{
    let thread = line.event.thread;
    let mut to = from.offset;
    'run: for more in 0..most {
        let number = line.number + u64::from(more);
        let next = next_in(machine, window, before, number, thread, from.method)?;
        let Some(frame) = next else {
            return Ok((Run { more, to }, Stopped::Most));
        };
        match once(machine, line.event) {
            Stopped::Most => to = frame.offset,
            why => return Ok((Run { more, to }, why)),
        }
    }
    Ok((Run { more: most, to }, Stopped::Most))
}

/// Does a local event that is to be told, and those behind it that are local, too, at most so many in all, and
/// gathers the line of the one, or one line for them all. Returns how many were done, and why no more.
pub(crate) fn run_of_locals(
    machine: &mut Machine,
    telling: Telling<'_>,
    before: &mut Before,
    line: Line,
    most: u32,
    lines: &mut Lines,
) -> Result<(u32, Stopped), AllocError>
    requires form { line.form ≡ telling.window.form }
    requires summary { telling.window.summary ≡ true }
    requires told { is_told telling.window line.number line.event.thread ≡ true }
    requires local { IsNextLocal machine.old line.event.thread }
    requires some { 1 ≤ most }
    requires numbered { line.number + most < 2 ^ 64 }
    ensures some { IfOk result (λ r. r.1 ≡ Most → 1 ≤ r.0) }
    ensures bound { IfOk result (λ r. r.0 ≤ most) }
    ensures within { IfOk result (λ r. tried r.0 r.1 ≤ most) }
    ensures told { IfOk result (λ r. (held : _) → HasToldBy telling.entry machine.old line.number
        (replicate (tried r.0 r.1) line.event) r.0 r.1 machine.new held held lines.old.text.items
        lines.new.text.items) }
{
    let start = lines.text.len();
    match told_event(machine, telling.names, before, line, lines)? {
        Stopped::Most => {}
        why => return Ok((0, why)),
    }
    let Some(from) = before.frame else {
        return Ok((1, Stopped::Most));
    };
    let behind = Line {
        number: line.number + 1,
        event: line.event,
        form: line.form,
    };
    let (run, why) = run_on(machine, telling.window, before, behind, from, most - 1)?;
    if run.more == 0 {
        return Ok((1, why));
    }
    let fold = Fold {
        first: line,
        from,
        to: run.to,
        count: run.more + 1,
    };
    lines.text.truncate(start);
    push_fold(&mut lines.text, telling.names, fold)?;
    Ok((run.more + 1, why))
}

//! Whether the next bytecode of a thread is at a point.

ghost use Rattle.std.specs.Prelude.{◌≡◌, option_map, slice_get};
ghost use Rattle.machine_state.specs.shown_stacks.Shown.{offset_at, starts_of as starts_in};
ghost use Rattle.place_runs.specs.Shown.{IsShownAt, IsTopAt, has_point as has};

use code_places::Point;
use linked_code::{LinkedProgram, MethodBody};
use machine::Machine;
use machine::top_frames::goes_on;
use machine_state::Shared;
use machine_state::method_selection::method_at;
use model::built_in::NO_OFFSET;
use thread_stacks::ThreadStack;

/// The offsets at which the instructions of a method stand, by their places.
fn starts_of(body: &MethodBody) -> &[u16]
    ensures { result.now ≡ starts_in body.now }
{
    match body {
        MethodBody::Code(code) => &code.starts,
        MethodBody::Abstract | MethodBody::BuiltIn(_) => &[],
    }
}

/// The offset of a place in the code of a method, by the method's number.
fn offset_of(program: &LinkedProgram, method: u32, place: usize) -> u16
    ensures { result ≡ offset_at program.now method place }
{
    match method_at(program, method) {
        Some(row) => starts_of(&row.body)
            .get(place)
            .copied()
            .unwrap_or(NO_OFFSET),
        None => NO_OFFSET,
    }
}

/// Whether an offset of a method is one of these points.
pub(crate) fn has_point(points: &[Point], method: u32, offset: u16) -> bool
    ensures { result ≡ has points.now method offset }
{
    'points: for at in 0..points.len() {
        let point = points[at];
        if point.method == method && point.offset == offset {
            return true;
        }
    }
    false
}

/// Whether the frame on top of a stack, if there is a frame on top, is at one of these points.
fn is_on_top(program: &LinkedProgram, stack: &ThreadStack, points: &[Point]) -> bool
    ensures { IsTopAt program.now points.now stack.now result }
{
    match stack.frame() {
        Some(frame) => has_point(
            points,
            frame.method,
            offset_of(program, frame.method, frame.place),
        ),
        None => false,
    }
}

/// The stack of a thread, if there is such a thread.
fn stack_of(shared: &Shared, thread: u16) -> Option<&ThreadStack>
    ensures { option_map (λ s. s.now) result ≡ slice_get shared.now.stacks.items thread }
{
    shared.stacks.get(usize::from(thread))
}

/// Where the next bytecode of a thread is; none where it doesn't run, an exception is pending, or no frame is on top.
pub(crate) fn point_of(machine: &Machine, thread: u16) -> Option<Point> {
    let shared = machine.shared();
    let stack = stack_of(shared, thread)?;
    if !goes_on(&shared.threads, thread) {
        return None;
    }
    let frame = stack.frame()?;
    Some(Point {
        method: frame.method,
        offset: offset_of(machine.program(), frame.method, frame.place),
    })
}

/// Whether the next bytecode of a thread is at one of these points: the thread runs, with no exception pending, and the
/// frame on top of its stack is there.
pub(crate) fn stands_at(machine: &Machine, thread: u16, points: &[Point]) -> bool
    ensures { IsShownAt machine.now thread points.now result }
{
    let shared = machine.shared();
    let Some(stack) = stack_of(shared, thread) else {
        return false;
    };
    let goes_on = goes_on(&shared.threads, thread);
    let is_there = is_on_top(machine.program(), stack, points);
    goes_on && is_there
}

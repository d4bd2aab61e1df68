//! Where a thread stands before its event.

ghost use Rattle.std.specs.Prelude.{◌≡◌};
ghost use Rattle.thread_stacks.specs.Stacks.{shown_frame};
ghost use Rattle.machine_state.specs.shown_stacks.Shown.{offset_at, starts_of as starts_in};
ghost use Rattle.traces.specs.traced_events.Seen.{IsFrameSeen};

use linked_code::{LinkedProgram, MethodBody};
use machine_state::method_selection::method_at;
use model::built_in::NO_OFFSET;
use thread_stacks::{Frame, ThreadStack};

/// Where the frame on top of a thread stands.
#[derive(Clone, Copy)]
pub struct FrameBefore {
    /// The number of its method.
    pub method: u32,
    /// The offset of its instruction in the method's code.
    pub offset: u16,
    /// The object whose monitor its invocation entered.
    pub entered: Option<u32>,
}

/// The offsets at which the instructions of a method stand, by their places.
fn starts_of(body: &MethodBody) -> &[u16]
    ensures { result.now ≡ starts_in body.now }
{
    match body {
        MethodBody::Code(code) => &code.starts,
        MethodBody::Abstract | MethodBody::BuiltIn(_) => &[],
    }
}

/// The offset of a place in the code of a method, by the method's number.
pub(crate) fn offset_of(program: &LinkedProgram, method: u32, place: usize) -> u16
    ensures { result ≡ offset_at program.now method place }
{
    match method_at(program, method) {
        Some(row) => starts_of(&row.body)
            .get(place)
            .copied()
            .unwrap_or(NO_OFFSET),
        None => NO_OFFSET,
    }
}

/// Where a frame stands.
fn frame_before(program: &LinkedProgram, frame: &Frame<'_>) -> FrameBefore
    ensures { result ≡ record {
      method = (shown_frame frame.now).method;
      offset = offset_at program.now frame.now.method frame.now.place;
      entered = frame.now.entered;
    } }
{
    FrameBefore {
        method: frame.method,
        offset: offset_of(program, frame.method, frame.place),
        entered: frame.entered,
    }
}

/// Where the frame on top of a stack stands, if there is a frame on top.
pub(crate) fn frame_on_top(program: &LinkedProgram, stack: &ThreadStack) -> Option<FrameBefore>
    ensures { IsFrameSeen program.now stack.now result }
{
    match stack.frame() {
        Some(frame) => Some(frame_before(program, &frame)),
        None => None,
    }
}

/// The offset at which the frame on top of a stack stands.
pub(crate) fn offset_on_top(program: &LinkedProgram, stack: &ThreadStack) -> u16 {
    match stack.frame() {
        Some(frame) => offset_of(program, frame.method, frame.place),
        None => NO_OFFSET,
    }
}

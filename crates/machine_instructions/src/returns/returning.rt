//! Returns to the invoker.

ghost use Rattle.std.specs.Prelude.{◌≡◌, ◌-◌, ℕ, Ok, true, false, drop, length, option_to_list, OnOk, OnErr};
ghost use Rattle.thread_stacks.specs.Stacks.{moved, returned, on_top};
ghost use Rattle.machine_state.specs.declared.answers.Effect.TheVariants as effect;
ghost use Rattle.machine_state.specs.declared.state.Shared.{Shared};
ghost use Rattle.machine_instructions.specs.returns.Returned.{result_in, returning, IsGiven};
ghost use Rattle.machine_state.specs.linked_frames.Frames.{DoesOwn};

use crate::returns::leaving::{entered_by_top, leave, may_leave};
use crate::returns::places::next_place_under;
use linked_code::LinkedProgram;
use machine_state::{Effect, EventRefusal, MachineException, Shared};
use std::alloc::AllocError;
use thread_stacks::ThreadStack;

/// What the frame on top returns: the word on top of its operands, or nothing.
#[inline]
fn result_of(stack: &ThreadStack, value: bool) -> Option<u32>
    ensures { result ≡ result_in value stack.now }
{
    match stack.frame() {
        Some(frame) if value => Some(frame.operand(0)),
        _ => None,
    }
}

/// Whether a value is returned to an invoker: there is one, and the entry under the top is a frame.
#[inline]
#[tactic(auto, using(crate::proofs::returns::Given::given, crate::proofs::returns::Given::passes_nothing, crate::proofs::returns::Given::passes_over))]
fn gives_value(stack: &ThreadStack, returns: Option<u32>) -> bool
    ensures gives { result ≡ true → IsGiven stack.now returns }
    ensures passes { result ≡ false → (next : ℕ)
        → on_top (moved next) (drop 1 stack.now) ≡ returned next (option_to_list returns) (drop 1 stack.now) }
{
    match returns {
        Some(_) => match stack.frame_under() {
            Some(_) => true,
            None => false,
        },
        None => false,
    }
}

/// Ends the frame on top: a frame under it goes on at a place with the result, if there is one. It takes memory only
/// where a value is returned to an invoker. On an error nothing has changed.
#[inline]
fn return_under(
    stack: &mut ThreadStack,
    next: usize,
    returns: Option<u32>,
) -> Result<(), AllocError>
    ensures ok { OnOk result (stack.new ≡ returned next (option_to_list returns) (drop 1 stack.old)) }
    ensures err { OnErr result (stack.new ≡ stack.old) }
    ensures gives { OnErr result (IsGiven stack.old returns) }
{
    if gives_value(stack, returns) {
        return stack.return_to(next, returns);
    }
    stack.drop_top();
    stack.go_on(next);
    Ok(())
}

/// The frame on top returns, with the value on top of its operands or with none (JVMS 2.6.4): it goes, its invoker
/// goes on with the result, and the monitor that the invocation entered is left once. Where another thread or none
/// owns that monitor, an IllegalMonitorStateException is raised, and nothing has changed.
///
/// # Errors
///
/// Where there is no memory for a value that is returned to an invoker. Nothing has changed then.
pub fn return_from(
    shared: &mut Shared,
    stack: &mut ThreadStack,
    program: &LinkedProgram,
    thread: u16,
    value: bool,
) -> Result<Effect, EventRefusal>
    ensures { DoesOwn program.now (returning value) thread result shared.old shared.new stack.old stack.new }
{
    let entered = entered_by_top(stack);
    if !may_leave(&shared.heap, thread, entered) {
        return Ok(Effect::Raises(MachineException::IllegalMonitorState));
    }
    let next = next_place_under(program, stack);
    let returns = result_of(stack, value);
    return_under(stack, next, returns)?;
    leave(shared, thread, entered);
    Ok(Effect::Done)
}

/// Does what `return_from` does, of an invocation that entered no monitor: nothing is shared by it. Answers whether the
/// frame has returned; where it hasn't, for a monitor that it would leave or for want of memory, nothing has changed.
#[inline]
pub fn return_alone(stack: &mut ThreadStack, program: &LinkedProgram, value: bool) -> bool
    ensures done { result ≡ true → (t : ℕ) (shared : Shared)
        → DoesOwn program.now (returning value) t (Ok effect.Done) shared shared stack.old stack.new }
    ensures shallower { result ≡ true → length stack.new ≡ length stack.old - 1 }
    ensures still { result ≡ false → stack.new ≡ stack.old }
{
    if let Some(_entered) = entered_by_top(stack) {
        return false;
    }
    let next = next_place_under(program, stack);
    let returns = result_of(stack, value);
    match stack.return_to(next, returns) {
        Ok(()) => true,
        Err(_) => false,
    }
}

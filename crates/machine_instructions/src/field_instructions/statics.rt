//! Static fields. Whether the class of a field is to be initialised first is asked elsewhere.

ghost use Rattle.std.specs.Prelude.{◌≡◌, ℕ, Ok, slice_index, slice_set};
ghost use Rattle.linked_code.specs.declared.instruction.LinkedInstruction.TheVariants as linked;
ghost use Rattle.linked_code.specs.declared.program.LinkedProgram.{LinkedProgram};
ghost use Rattle.machine_state.specs.declared.state.Shared.{Shared};
ghost use Rattle.machine_state.specs.linked_frames.Frames.{DoesOwn};
ghost use Rattle.machine_instructions.specs.field_instructions.Puts.{put_static_instruction};

use crate::field_instructions::narrowing::kept;
use crate::leaving::{leave, leave_nothing};
use machine_state::{Effect, EventRefusal, Shared};
use model::Primitive;
use thread_stacks::ThreadStack;

/// The static field in a slot, or 0 where there is none.
#[inline]
fn static_word(statics: &[u32], slot: u32) -> u32
    ensures { result ≡ slice_index statics.now slot }
{
    statics.get(slot as usize).copied().unwrap_or(0)
}

/// `getstatic`: the static field in a slot goes onto the stack.
///
/// # Errors
///
/// Where there is no memory for the word on the stack; nothing has changed then.
#[inline]
pub fn get_static(
    shared: &Shared,
    stack: &mut ThreadStack,
    slot: u32,
) -> Result<Effect, EventRefusal>
    ensures { (p : LinkedProgram) (class t : ℕ)
        → DoesOwn p (linked.GetStatic class slot) t result shared.now shared.now stack.old stack.new }
{
    match stack.frame() {
        Some(_frame) => leave(stack, 0, static_word(&shared.statics, slot)),
        None => Ok(Effect::NotEnabled),
    }
}

/// `getstatic` of System.out or System.err: its PrintStream, to which this word refers, goes onto the stack.
///
/// # Errors
///
/// Where there is no memory for the word on the stack; nothing has changed then.
#[inline]
pub fn get_system_stream(stack: &mut ThreadStack, word: u32) -> Result<Effect, EventRefusal>
    ensures { (p : LinkedProgram) (t : ℕ) (shared : Shared)
        → DoesOwn p (linked.GetSystemStream word) t result shared shared stack.old stack.new }
{
    match stack.frame() {
        Some(_frame) => leave(stack, 0, word),
        None => Ok(Effect::NotEnabled),
    }
}

/// Writes the static field in a slot, if there is one.
#[inline]
fn set_static(statics: &mut Vec<u32>, slot: u32, word: u32)
    ensures { statics.new.items ≡ slice_set statics.old.items slot word }
{
    if (slot as usize) < statics.len() {
        statics[slot as usize] = word;
    }
}

/// `putstatic` of a field of a type, of a reference as of an int: the operand on top goes into the static field in a
/// slot, narrowed to the type.
#[inline]
pub fn put_static(shared: &mut Shared, stack: &mut ThreadStack, of: Primitive, slot: u32) -> Effect
    ensures { (p : LinkedProgram) (class t : ℕ)
        → DoesOwn p (put_static_instruction of class slot) t (Ok result) shared.old shared.new stack.old stack.new }
{
    match stack.frame() {
        Some(frame) => {
            let word = kept(of, frame.operand(0));
            set_static(&mut shared.statics, slot, word);
            leave_nothing(stack, 1)
        }
        None => Effect::NotEnabled,
    }
}

//! Arrays that are made.

ghost use Rattle.std.specs.Prelude.{◌≡◌, ℕ};
ghost use Rattle.linked_code.specs.declared.instruction.LinkedInstruction.TheVariants as linked;
ghost use Rattle.linked_code.specs.declared.program.LinkedProgram.{LinkedProgram};
ghost use Rattle.machine_state.specs.linked_frames.Frames.{DoesOwn};
ghost use Rattle.machine_instructions.specs.type_instructions.Arrays as spec;
ghost use Rattle.machine_instructions.specs.type_instructions.Arrays.{MakesArray};

use crate::type_instructions::allocation::leave_new_on_top;
use heap::{NarrowKind, ObjectKind};
use machine_state::{Effect, EventRefusal, MachineException, Shared};
use model::Primitive;
use thread_stacks::ThreadStack;

/// The kind of the arrays of a primitive type.
#[inline]
fn kind_of_array(of: Primitive) -> ObjectKind
    ensures { result ≡ spec.kind_of_array of }
{
    match of {
        Primitive::Boolean => ObjectKind::Narrow(NarrowKind::Boolean),
        Primitive::Char => ObjectKind::Narrow(NarrowKind::Char),
        Primitive::Byte => ObjectKind::Narrow(NarrowKind::Byte),
        Primitive::Short => ObjectKind::Narrow(NarrowKind::Short),
        Primitive::Int => ObjectKind::Ints,
    }
}

/// An array of a kind, of as many elements as the operand on top says, is made, and its word takes the place of that;
/// where it is less than 0, a NegativeArraySizeException.
#[inline]
fn make_array(
    shared: &mut Shared,
    stack: &mut ThreadStack,
    kind: ObjectKind,
) -> Result<Effect, EventRefusal>
    ensures { (p : LinkedProgram) (t : ℕ) → MakesArray p kind t result shared.old shared.new stack.old stack.new }
{
    let Some(frame) = stack.frame() else {
        return Ok(Effect::NotEnabled);
    };
    let length = frame.operand(0);
    if length > i32::MAX.cast_unsigned() {
        return Ok(Effect::Raises(MachineException::NegativeArraySize));
    }
    leave_new_on_top(&mut shared.heap, stack, kind, length)
}

/// `newarray`: an array of ints, booleans, chars, bytes or shorts, which are 0.
///
/// # Errors
///
/// Where as many objects as may be were made, there would be more cells than may be, or there is no memory. Nothing has
/// changed then.
#[inline]
pub fn new_array(
    shared: &mut Shared,
    stack: &mut ThreadStack,
    of: Primitive,
) -> Result<Effect, EventRefusal>
    ensures { (p : LinkedProgram) (t : ℕ)
        → DoesOwn p (linked.NewArray of) t result shared.old shared.new stack.old stack.new }
{
    make_array(shared, stack, kind_of_array(of))
}

/// `anewarray`: an array of references, which are null, by the number of its component type.
///
/// # Errors
///
/// The errors of `new_array`.
#[inline]
pub fn new_reference_array(
    shared: &mut Shared,
    stack: &mut ThreadStack,
    component: u32,
) -> Result<Effect, EventRefusal>
    ensures { (p : LinkedProgram) (t : ℕ)
        → DoesOwn p (linked.NewReferenceArray component) t result shared.old shared.new stack.old
        stack.new }
{
    make_array(shared, stack, ObjectKind::References { of: component })
}

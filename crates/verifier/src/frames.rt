//! What a method asks of the size of its frame types.

ghost use Rattle.std.specs.Prelude.{IsTrue, IsFalse};
ghost use Rattle.model.specs.Typing.{IsSized};
ghost use Rattle.types.specs.method_code.View.{files_of, body_of};
ghost use Rattle.verifier.specs.Packed.{parts_in};

use crate::packed::PackedFrame;
use types::method_code::MethodCode;

/// Whether a frame type has as many local variables as the method says, and no more on the stack (JVMS 4.7.3).
pub(crate) fn is_sized(method: &MethodCode<'_>, frame: &PackedFrame) -> bool
    ensures sized { IsTrue result → IsSized (body_of method.now) (parts_in (files_of method.now) frame.now) }
    ensures other { IsFalse result → IsSized (body_of method.now) (parts_in (files_of method.now) frame.now) → ⊥ }
{
    let code = method.code();
    frame.local_count() == usize::from(code.max_locals)
        && frame.stack_depth() <= usize::from(code.max_stack)
}

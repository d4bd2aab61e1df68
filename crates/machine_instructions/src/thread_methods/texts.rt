//! The texts of the Strings of a heap.

ghost use Rattle.std.specs.Prelude.{◌≡◌, slice_get, option_map};
ghost use Rattle.machine_instructions.specs.thread_methods.Texts.{text_in, text_by};
ghost use Rattle.machine_instructions.specs.thread_methods.Moves.{operand_of};

use crate::thread_methods::moves::operand;
use heap::{Heap, ObjectKind};
use model::built_in::STRING;
use thread_stacks::ThreadStack;

/// The units of a String, each a word; nothing of another object.
pub(crate) fn units(heap: &Heap, object: u32) -> Option<&[u32]>
    ensures { option_map (λ u. u.now) result ≡ text_in (slice_get heap.now.objects object) }
{
    match heap.class_of(object) {
        Some(ObjectKind::Instance { class }) => {
            if class == STRING as u32 {
                Some(heap.words(object))
            } else {
                None
            }
        }
        _ => None,
    }
}

/// The units of the String to which a word refers; nothing of null, and of another object.
pub(crate) fn text_by(heap: &Heap, word: u32) -> Option<&[u32]>
    ensures { option_map (λ u. u.now) result ≡ text_by heap.now.objects word }
{
    if word == 0 {
        return None;
    }
    units(heap, word - 1)
}

/// The units of the String to which the operand under so many others refers; nothing of null, and of another object.
pub(crate) fn text<'a>(heap: &'a Heap, stack: &ThreadStack, under: usize) -> Option<&'a [u32]>
    ensures { option_map (λ u. u.now) result ≡ text_by heap.now.objects (operand_of under stack.now) }
{
    text_by(heap, operand(stack, under))
}

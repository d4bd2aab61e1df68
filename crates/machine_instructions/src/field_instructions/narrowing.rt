//! What fields of narrow types keep (JVMS 2.11.1).

ghost use Rattle.std.specs.Prelude.{◌≡◌};
ghost use Rattle.model.specs.Worlds as model;
ghost use Rattle.model.specs.Primitives.{primitive_of};

use heap::NarrowKind;
use model::Primitive;

/// What a field of a type keeps of a word.
#[inline]
pub(crate) fn kept(of: Primitive, word: u32) -> u32
    ensures { result ≡ model.kept (primitive_of of) word }
{
    match of {
        Primitive::Boolean => NarrowKind::Boolean.kept(word),
        Primitive::Char => NarrowKind::Char.kept(word),
        Primitive::Byte => NarrowKind::Byte.kept(word),
        Primitive::Short => NarrowKind::Short.kept(word),
        Primitive::Int => word,
    }
}

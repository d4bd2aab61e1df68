//! The words of objects that are there from the start.

ghost use Rattle.std.specs.Prelude.{◌≡◌, ◌+◌};
ghost use Rattle.model.specs.BuiltInNumbers.{first_class_reference};
ghost use Rattle.linker.specs.operand_rows.Rows.{object_word};

use model::built_in::FIRST_CLASS_OBJECT;

/// The word of the object of a reference, which is so many behind another number: the reference and one. `None` where
/// that is too large for linked code.
pub(crate) fn object_word(first: usize, behind: usize) -> Option<u32>
    ensures { result ≡ object_word (first + behind) }
{
    if first < 0xffff_ffff && behind < 0xffff_ffff - first {
        Some((first + behind) as u32 + 1)
    } else {
        None
    }
}

/// The word of an object that stands so many behind the Classes, where there are so many classes.
pub(crate) fn word_behind_classes(classes: usize, behind: usize) -> Option<u32>
    ensures { result ≡ object_word (first_class_reference + classes + behind) }
{
    if classes < 0xffff_fffc {
        object_word(classes + FIRST_CLASS_OBJECT as usize, behind)
    } else {
        None
    }
}

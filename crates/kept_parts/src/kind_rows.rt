//! What objects are, as words.

ghost use Rattle.std.specs.Prelude.{◌≡◌, ◌++◌, IfOk, OnOk};
ghost use Rattle.kept_parts.specs.Objects.{kind_row};

use crate::reader::Reader;
use crate::rows::push_two;
use heap::{NarrowKind, ObjectKind};
use std::alloc::AllocError;

/// What an object is, in two words.
pub(crate) fn push_kind(row: &mut Vec<u32>, kind: ObjectKind) -> Result<(), AllocError>
    ensures { OnOk result (row.new.items ≡ row.old.items ++ kind_row kind) }
{
    match kind {
        ObjectKind::Instance { class } => push_two(row, 0, class),
        ObjectKind::References { of } => push_two(row, 1, of),
        ObjectKind::Ints => push_two(row, 2, 0),
        ObjectKind::Narrow(NarrowKind::Boolean) => push_two(row, 3, 0),
        ObjectKind::Narrow(NarrowKind::Char) => push_two(row, 4, 0),
        ObjectKind::Narrow(NarrowKind::Byte) => push_two(row, 5, 0),
        ObjectKind::Narrow(NarrowKind::Short) => push_two(row, 6, 0),
    }
}

/// What an object is, by the next two words.
pub(crate) fn read_kind(reader: &mut Reader<'_>) -> Result<ObjectKind, AllocError>
    ensures { IfOk result (λ kind. reader.old.rest.now ≡ kind_row kind ++ reader.new.rest.now) }
{
    let tag = reader.next_word()?;
    let number = reader.next_word()?;
    match (tag, number) {
        (0, class) => Ok(ObjectKind::Instance { class }),
        (1, of) => Ok(ObjectKind::References { of }),
        (2, 0) => Ok(ObjectKind::Ints),
        (3, 0) => Ok(ObjectKind::Narrow(NarrowKind::Boolean)),
        (4, 0) => Ok(ObjectKind::Narrow(NarrowKind::Char)),
        (5, 0) => Ok(ObjectKind::Narrow(NarrowKind::Byte)),
        (6, 0) => Ok(ObjectKind::Narrow(NarrowKind::Short)),
        _ => Err(AllocError),
    }
}

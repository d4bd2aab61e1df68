//! What an index of the constant pool names.

ghost use Rattle.std.specs.Prelude.{◌≡◌, ◌++◌, OnOk, option_map};
ghost use Rattle.model.specs.Pool.{integer_of};
ghost use Rattle.model.specs.Spelling.{entry_at};
ghost use Rattle.model.specs.Listing.{operand, index_word, name_or_index, class_or_index, utf8_word, class_word, member_word, constant_word, element_word};
ghost use Rattle.constant_pool.specs.View.{reference_of};

use crate::disasm::numbers::{push_number, push_signed};
use classfile::{ClassFile, Constant, Reference};
use std::alloc::AllocError;

/// `#` and the index.
pub(crate) fn push_index(text: &mut Vec<u8>, index: u16) -> Result<(), AllocError>
    ensures { OnOk result (text.new.items ≡ text.old.items ++ index_word index) }
{
    text.push(b'#')?;
    push_number(text, index)
}

fn push_name(text: &mut Vec<u8>, index: u16, name: Option<&[u8]>) -> Result<(), AllocError>
    ensures { OnOk result (text.new.items
        ≡ text.old.items ++ name_or_index index (option_map (λ n. n.now) name.entry)) }
{
    match name {
        Some(name) => Ok(text.extend_from_slice(name)?),
        None => push_index(text, index),
    }
}

/// The bytes of a Utf8.
pub(crate) fn push_utf8(text: &mut Vec<u8>, file: &ClassFile, index: u16) -> Result<(), AllocError>
    ensures { OnOk result (text.new.items ≡ text.old.items ++ utf8_word file.now.pool index) }
{
    push_name(text, index, file.utf8(index))
}

/// The name of a Class, behind a space.
pub(crate) fn push_class(text: &mut Vec<u8>, file: &ClassFile, index: u16) -> Result<(), AllocError>
    ensures { OnOk result (text.new.items ≡ text.old.items ++ operand (class_word file.now.pool index)) }
{
    text.push(b' ')?;
    push_name(text, index, file.class_name(index))
}

/// A field or method, behind a space.
pub(crate) fn push_member(
    text: &mut Vec<u8>,
    index: u16,
    member: Option<Reference<'_>>,
) -> Result<(), AllocError>
    ensures { OnOk result (text.new.items
        ≡ text.old.items ++ operand (member_word index (option_map (λ m. reference_of m) member.entry))) }
{
    text.push(b' ')?;
    let Some(member) = member else {
        return push_index(text, index);
    };
    text.extend_from_slice(member.class)?;
    text.push(b'.')?;
    text.extend_from_slice(member.name)?;
    text.push(b':')?;
    text.extend_from_slice(member.descriptor)?;
    Ok(())
}

/// The bits of an Integer.
fn integer(file: &ClassFile, index: u16) -> Option<u32>
    ensures { result ≡ integer_of (entry_at file.now.pool index) }
{
    match file.constant(index) {
        Some(Constant::Integer(bits)) => Some(*bits),
        _ => None,
    }
}

fn push_class_or_index(
    text: &mut Vec<u8>,
    index: u16,
    name: Option<&[u8]>,
) -> Result<(), AllocError>
    ensures { OnOk result (text.new.items
        ≡ text.old.items ++ class_or_index index (option_map (λ n. n.now) name.entry)) }
{
    match name {
        Some(name) => {
            text.extend_from_slice(b"class ")?;
            Ok(text.extend_from_slice(name)?)
        }
        None => push_index(text, index),
    }
}

/// What is loaded from the constant pool, behind a space.
pub(crate) fn push_constant(
    text: &mut Vec<u8>,
    file: &ClassFile,
    index: u16,
) -> Result<(), AllocError>
    ensures { OnOk result (text.new.items ≡ text.old.items ++ operand (constant_word file.now.pool index)) }
{
    text.push(b' ')?;
    match integer(file, index) {
        Some(bits) => push_signed(text, i64::from(bits.cast_signed())),
        None => push_class_or_index(text, index, file.class_name(index)),
    }
}

/// The element type of an array that `newarray` makes, behind a space.
pub(crate) fn push_element(text: &mut Vec<u8>, code: u8) -> Result<(), AllocError>
    ensures { OnOk result (text.new.items ≡ text.old.items ++ operand (element_word code)) }
{
    text.push(b' ')?;
    match code {
        4 => text.extend_from_slice(b"boolean")?,
        5 => text.extend_from_slice(b"char")?,
        8 => text.extend_from_slice(b"byte")?,
        9 => text.extend_from_slice(b"short")?,
        10 => text.extend_from_slice(b"int")?,
        _ => push_index(text, u16::from(code))?,
    }
    Ok(())
}

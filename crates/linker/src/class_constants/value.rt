//! The value of a field's constant.

ghost use Rattle.std.specs.Prelude.{◌≡◌, Some, ℕ, List, length, map, option_map, suc};
ghost use Rattle.std.specs.Option.{option_map_or};
ghost use Rattle.classfile.specs.View.{field_of, field_part_of, file_of};
ghost use Rattle.model.specs.ClassInitialisation.{constant_in, constant_of};
ghost use Rattle.model.specs.Classes.{Program};
ghost use Rattle.model.specs.Opening.{string_reference};
ghost use Rattle.model.specs.Operands.{words};
ghost use Rattle.model.specs.Pool.{string_at};
ghost use Rattle.model.specs.Spelling.{entry_at};
ghost use Rattle.model.specs.StringConstants.{string_texts};
ghost use Rattle.hierarchy.specs.Places.{class_at};
ghost use Rattle.linker.specs.Linking.{IsLinked};
ghost use Rattle.linker.specs.field_links.Numbers.{AreStringNumbers, string_number};
ghost use Rattle.linker.specs.class_constants.Constants.{word_in};

use crate::class_constants::word::kept;
use crate::field_links::StringNumbers;
use classfile::{ClassFile, Field, FieldAttribute};
use hierarchy::ClassSet;

/// The index of the first ConstantValue among attributes.
fn constant_index(attributes: &[FieldAttribute]) -> Option<u16>
    ensures { result ≡ constant_in (map field_part_of attributes.now) }
{
    for attribute in attributes {
        if let FieldAttribute::ConstantValue { index, .. } = attribute {
            return Some(*index);
        }
    }
    None
}

/// The number of the text of the String of an index, or how many there are.
fn number_or_count(texts: &StringNumbers, class: usize, index: u16) -> usize
    ensures { (files : Program) → AreStringNumbers files texts.now
        → result ≡ option_map_or (λ n. n) (string_number files class index) (length (string_texts files)) }
{
    match texts.string(class, index) {
        Some(number) => number,
        None => texts.count(),
    }
}

/// The word of the String of an index in the constant pool of the class of a number. The Strings stand behind three
/// other objects and the Class objects, and null is 0.
fn string_word(
    set: &ClassSet,
    texts: &StringNumbers,
    class: usize,
    file: &ClassFile,
    index: u16,
) -> u32
    requires linked { IsLinked set.now }
    requires texts { AreStringNumbers set.now texts.now }
    requires stands { class_at set.now class ≡ Some (file_of file.now) }
    ensures { (text : List ℕ) → string_at (file_of file.now).pool index ≡ Some text
        → result ≡ suc (string_reference set.now text) }
{
    (4 + set.count() + number_or_count(texts, class, index)) as u32
}

/// The word of the String of an index, if it is one.
fn string_of(
    set: &ClassSet,
    texts: &StringNumbers,
    class: usize,
    file: &ClassFile,
    index: u16,
) -> Option<u32>
    requires linked { IsLinked set.now }
    requires texts { AreStringNumbers set.now texts.now }
    requires stands { class_at set.now class ≡ Some (file_of file.now) }
    ensures { result ≡ option_map (λ text.
        suc (string_reference set.now text)) (string_at (file_of file.now).pool index) }
{
    match file.pool.string(index) {
        Some(_text) => Some(string_word(set, texts, class, file, index)),
        None => None,
    }
}

/// The word of the Integer or the String of an index in the constant pool of the class of a number.
fn constant_of(
    set: &ClassSet,
    texts: &StringNumbers,
    class: usize,
    file: &ClassFile,
    index: u16,
) -> Option<u32>
    requires linked { IsLinked set.now }
    requires texts { AreStringNumbers set.now texts.now }
    requires stands { class_at set.now class ≡ Some (file_of file.now) }
    ensures { result ≡ constant_of words set.now (file_of file.now).pool (entry_at (file_of file.now).pool index) }
{
    match file.pool.integer(index) {
        Some(bits) => Some(bits),
        None => string_of(set, texts, class, file, index),
    }
}

/// The word of a field's constant, as the field keeps it.
pub(crate) fn word_of(
    set: &ClassSet,
    texts: &StringNumbers,
    class: usize,
    file: &ClassFile,
    field: &Field,
) -> Option<u32>
    requires linked { IsLinked set.now }
    requires texts { AreStringNumbers set.now texts.now }
    requires stands { class_at set.now class ≡ Some (file_of file.now) }
    ensures { result ≡ word_in set.now (file_of file.now) (field_of field.now) }
{
    let Some(index) = constant_index(&field.attributes) else {
        return None;
    };
    match constant_of(set, texts, class, file, index) {
        Some(word) => Some(kept(file.pool.text(field.descriptor), word)),
        None => None,
    }
}

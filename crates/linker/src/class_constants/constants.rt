//! The constants of a class.

ghost use Rattle.std.specs.Prelude.{◌≡◌, ◌++◌, Some, IfOk, OnOk};
ghost use Rattle.classfile.specs.View.{file_of};
ghost use Rattle.hierarchy.specs.Places.{class_at};
ghost use Rattle.linker.specs.Linking.{IsLinked};
ghost use Rattle.linker.specs.field_links.Numbers.{AreStringNumbers};
ghost use Rattle.linked_code.specs.ClassRows.{AreConstants, constants_of};
ghost use Rattle.linker.specs.class_constants.Constants.{constant_at, slots_before};

use crate::class_constants::slots::slot_behind;
use crate::class_constants::value::word_of;
use crate::field_links::StringNumbers;
use classfile::ClassFile;
use hierarchy::ClassSet;
use linked_code::LinkedConstant;
use std::alloc::{AllocError, Global};

/// Adds the constant of the field of a slot, if it has one.
fn add_constant(
    constants: &mut Vec<LinkedConstant>,
    slot: u32,
    word: Option<u32>,
) -> Result<(), AllocError>
    ensures { OnOk result (constants.new.items ≡ constants.old.items ++ constant_at slot word) }
{
    if let Some(word) = word {
        constants.push(LinkedConstant { slot, word })?;
    }
    Ok(())
}

/// The constants of the class of a number, in the order of its fields. The slots of the class's static fields begin at
/// `slot`. This alone takes memory.
pub fn constants_of(
    alloc: Global,
    set: &ClassSet,
    texts: &StringNumbers,
    class: usize,
    file: &ClassFile,
    slot: u32,
) -> Result<Vec<LinkedConstant>, AllocError>
    requires linked { IsLinked set.now }
    requires texts { AreStringNumbers set.now texts.now }
    requires stands { class_at set.now class ≡ Some (file_of file.now) }
    requires begins { slot ≡ slots_before set.now class }
    ensures { IfOk result (λ constants.
        AreConstants set.now (constants_of set.now (file_of file.now)) constants.items) }
{
    let mut next = slot;
    let mut constants = Vec::new(alloc);
    for field in &file.fields {
        let word = word_of(set, texts, class, file, field);
        add_constant(&mut constants, next, word)?;
        next = slot_behind(next, field);
    }
    Ok(constants)
}

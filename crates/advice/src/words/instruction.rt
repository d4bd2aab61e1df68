//! What is wrong with an instruction that this machine has, in words: what it names is left out, or not found.

use crate::words::class::say_missing_class;
use crate::words::cures::ENUM;
use crate::words::java::{LeftOutType, left_out_type, say_called, say_class, say_named_field};
use crate::words::line::Line;
use crate::words::members::words_of_member;
use crate::words::missing::{lacking_in, lacking_name};
use crate::words::named::{Named, named_by};
use classfile::{ClassFile, class_name};
use hierarchy::{ClassSet, Hierarchy};
use link_conditions::resolution::{found_field, found_method};
use model::{BUILT_IN_CLASSES, Instr};
use std::alloc::AllocError;

/// So many superclasses are looked at.
const MOST: usize = 65_536;

/// The superclass of each enum.
const ENUM_CLASS: &[u8] = b"java/lang/Enum";

/// Whether a class is an enum.
pub(crate) fn is_enum(set: &ClassSet, class: &[u8]) -> bool {
    set.is_subclass(class, ENUM_CLASS)
}

/// Adds that a class is an enum, and what to write instead.
pub(crate) fn say_enum(line: &mut Line, class: &[u8]) -> Result<(), AllocError> {
    line.say("the enum ")?;
    say_class(line, class)?;
    line.say(": write a final class, with a static final object for each constant")
}

/// Whether a superclass of a class is not there.
fn lacks_superclass(set: &ClassSet, class: &[u8]) -> bool {
    let mut name = class;
    for _ in 0..MOST {
        if set.class_of(name).is_none() {
            return true;
        }
        match set.superclass_of(name) {
            Some(above) => name = above,
            None => return false,
        }
    }
    false
}

/// What is told behind a member that a class and those above it have not.
fn words_of_missing(set: &ClassSet, class: &[u8], name: &[u8]) -> &'static str {
    if is_enum(set, class) {
        return ENUM;
    }
    if let Some(words) = words_of_member(set, class, name) {
        return words;
    }
    match set.place_of(class) {
        Some(place) if place < BUILT_IN_CLASSES => ": it is not built in; write it yourself",
        _ if lacks_superclass(set, class) => ": a class above it is not there, which is told, too",
        _ => ": the class file has none; compile all sources together again",
    }
}

/// Whether the field or the method that an instruction names is found.
fn is_found(hierarchy: &Hierarchy, file: &ClassFile, instr: Instr) -> bool {
    match instr {
        Instr::Field { index, .. } => found_field(hierarchy, file, index).is_some(),
        _ => found_method(hierarchy, file, &instr).is_some(),
    }
}

/// Adds a member that an instruction names.
fn say_member(
    line: &mut Line,
    named: &Named<'_>,
    name: &[u8],
    descriptor: &[u8],
) -> Result<(), AllocError> {
    if named.is_field {
        say_named_field(line, named.class, name)
    } else {
        say_called(line, named.class, name, descriptor)
    }
}

/// Adds a member that is not found, is left out, or is of another sort than is wanted. Its class is there.
fn say_of_member(
    line: &mut Line,
    hierarchy: &Hierarchy,
    file: &ClassFile,
    instr: Instr,
    named: &Named<'_>,
    (name, descriptor): (&[u8], &[u8]),
) -> Result<(), AllocError> {
    let set = hierarchy.set();
    let is_found = is_found(hierarchy, file, instr);
    let known = words_of_member(set, named.class, name);
    match (is_found, known, lacking_in(set, descriptor)) {
        (true, _, Some(class)) | (false, None, Some(class)) => {
            return say_missing_class(line, class);
        }
        _ => {}
    }
    say_member(line, named, name, descriptor)?;
    if !is_found && known.is_some() {
        return line.say(words_of_missing(set, named.class, name));
    }
    if let Some(left_out) = left_out_type(line.alloc(), descriptor)? {
        return line.say(left_out.cure());
    }
    if is_found {
        return line.say(
            ": it is of another sort than is wanted; compile all sources together again",
        );
    }
    line.say(words_of_missing(set, named.class, name))
}

/// Adds a class of arrays that an instruction names, or a method of one.
fn say_of_array(
    line: &mut Line,
    set: &ClassSet,
    file: &ClassFile,
    instr: Instr,
    named: &Named<'_>,
) -> Result<(), AllocError> {
    if let Some((name, descriptor)) = named.member {
        if is_enum(set, class_name(file)) {
            return say_enum(line, class_name(file));
        }
        say_called(line, named.class, name, descriptor)?;
        return line.say(": copy the elements in a loop");
    }
    if let Some(left_out) = left_out_type(line.alloc(), named.class)? {
        line.say(left_out.word())?;
        return line.say(left_out.cure());
    }
    if let Instr::LoadConstant { .. } = instr {
        say_class(line, named.class)?;
        return line.say(".class: there is no reflection; lock another object");
    }
    match lacking_name(set, named.class) {
        Some(class) => say_missing_class(line, class),
        None => line.say("an array: compile all sources together again"),
    }
}

/// Adds what an instruction names.
fn say_named(
    line: &mut Line,
    hierarchy: &Hierarchy,
    file: &ClassFile,
    instr: Instr,
    named: &Named<'_>,
) -> Result<(), AllocError> {
    let set = hierarchy.set();
    if named.class.starts_with(b"[") {
        return say_of_array(line, set, file, instr, named);
    }
    if named.class == ENUM_CLASS && is_enum(set, class_name(file)) {
        return say_enum(line, class_name(file));
    }
    if let Some(class) = lacking_name(set, named.class) {
        return say_missing_class(line, class);
    }
    match named.member {
        Some(member) => say_of_member(line, hierarchy, file, instr, named, member),
        None => {
            line.say("new ")?;
            say_class(line, named.class)?;
            line.say(": it is abstract; compile all sources together again")
        }
    }
}

/// Adds an instruction that names nothing in words of its own.
fn say_nameless(line: &mut Line, instr: Instr) -> Result<(), AllocError> {
    let left_out = match instr {
        Instr::NewArray { code: 6 } | Instr::LoadConstant { .. } => LeftOutType::Float,
        Instr::NewArray { code: 7 } => LeftOutType::Double,
        _ => LeftOutType::Long,
    };
    line.say(left_out.word())?;
    line.say(left_out.cure())
}

/// Adds what is wrong with an instruction: what it names is left out, or not found as it is wanted.
pub(crate) fn say_wrong_instruction(
    line: &mut Line,
    hierarchy: &Hierarchy,
    file: &ClassFile,
    instr: Instr,
) -> Result<(), AllocError> {
    match named_by(file, instr) {
        Some(named) => say_named(line, hierarchy, file, instr, &named),
        None => say_nameless(line, instr),
    }
}

/// The method of an interface that an instruction names as one of a class, as it calls a static one (JVMS 4.9.1
/// forbids it in version
/// 49.0).
pub(crate) fn interface_method_of(file: &ClassFile, instr: Instr) -> Option<Named<'_>> {
    let Instr::Invoke { index, .. } = instr else {
        return None;
    };
    let method = file.interface_method_reference(index)?;
    Some(Named {
        class: method.class,
        member: Some((method.name, method.descriptor)),
        is_field: false,
    })
}

/// Adds such a call.
pub(crate) fn say_interface_method(
    line: &mut Line,
    set: &ClassSet,
    named: &Named<'_>,
) -> Result<(), AllocError> {
    if let Some(class) = lacking_name(set, named.class) {
        return say_missing_class(line, class);
    }
    if let Some((name, descriptor)) = named.member {
        say_called(line, named.class, name, descriptor)?;
    }
    line.say(", a method with a body of an interface: put it into a class")
}

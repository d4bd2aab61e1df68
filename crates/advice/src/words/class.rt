//! What is wrong with what a class file declares, in words.

use crate::words::cures::words_of_class;
use crate::words::java::{left_out_type, say_class, say_declared_field, say_declared_method};
use crate::words::line::Line;
use crate::words::missing::lacking_in;
use classfile::access_flags::{ABSTRACT, NATIVE, STATIC, has};
use classfile::{ClassFile, Field, Method, class_name};
use hierarchy::ClassSet;
use link_conditions::class_rules::RulePlace;
use std::alloc::AllocError;

/// Adds a class that is not there, and what to write instead.
pub(crate) fn say_missing_class(line: &mut Line, name: &[u8]) -> Result<(), AllocError> {
    line.say("the class ")?;
    say_class(line, name)?;
    line.say(words_of_class(name))
}

/// Adds each class of a descriptor that is not there, behind what has it.
fn say_lacking(line: &mut Line, set: &ClassSet, descriptor: &[u8]) -> Result<(), AllocError> {
    let mut rest = descriptor;
    for _ in 0..descriptor.len() {
        let Some(name) = lacking_in(set, rest) else {
            return Ok(());
        };
        line.say(": ")?;
        say_missing_class(line, name)?;
        rest = behind(rest, name);
    }
    Ok(())
}

/// What stands behind the first place of a name in a descriptor.
fn behind<'a>(descriptor: &'a [u8], name: &[u8]) -> &'a [u8] {
    for begin in 0..descriptor.len() {
        let rest = descriptor.get(begin..).unwrap_or(&[]);
        if let Some(after) = rest.strip_prefix(name) {
            return after;
        }
    }
    &[]
}

/// Adds a field that is left out, or whose class is not there.
pub(crate) fn say_field(
    line: &mut Line,
    set: &ClassSet,
    file: &ClassFile,
    field: &Field,
) -> Result<(), AllocError> {
    let descriptor = file.pool.text(field.descriptor);
    line.say("the field ")?;
    say_declared_field(line, file.pool.text(field.name), descriptor)?;
    if let Some(left_out) = left_out_type(line.alloc(), descriptor)? {
        return line.say(left_out.cure());
    }
    if lacking_in(set, descriptor).is_some() {
        return say_lacking(line, set, descriptor);
    }
    line.say(", which no compiler of Java writes so: compile it again")
}

/// Why a method is left out whose descriptor is not, and what to write instead.
fn words_of_flags(file: &ClassFile, method: &Method) -> &'static str {
    if has(method.flags, NATIVE) {
        ", which is native: write it in Java"
    } else if !file.is_interface() || has(method.flags, ABSTRACT) {
        ", which no compiler of Java writes so: compile it again"
    } else if has(method.flags, STATIC) {
        ", a static method of an interface: put it into a class"
    } else {
        ", a default method: declare it without a body, and write it in each class"
    }
}

/// Adds a method that is left out, or of whose descriptor a class is not there.
pub(crate) fn say_method(
    line: &mut Line,
    set: &ClassSet,
    file: &ClassFile,
    method: &Method,
) -> Result<(), AllocError> {
    let descriptor = file.pool.text(method.descriptor);
    line.say("the method ")?;
    say_declared_method(
        line,
        class_name(file),
        file.pool.text(method.name),
        descriptor,
    )?;
    if let Some(left_out) = left_out_type(line.alloc(), descriptor)? {
        return line.say(left_out.cure());
    }
    if lacking_in(set, descriptor).is_some() {
        return say_lacking(line, set, descriptor);
    }
    line.say(words_of_flags(file, method))
}

/// Adds that a class is above itself.
pub(crate) fn say_cycle(line: &mut Line, file: &ClassFile) -> Result<(), AllocError> {
    line.say("the class ")?;
    say_class(line, class_name(file))?;
    line.say(" is above itself: compile all sources together again")
}

/// Adds the first rule of classes and superclasses that a class file breaks.
pub(crate) fn say_broken_rule(
    line: &mut Line,
    file: &ClassFile,
    place: RulePlace,
) -> Result<(), AllocError> {
    if let RulePlace::Method { method } = place {
        if let Some(method) = file.methods.get(method) {
            line.say("the method ")?;
            let (name, descriptor) = (
                file.pool.text(method.name),
                file.pool.text(method.descriptor),
            );
            say_declared_method(line, class_name(file), name, descriptor)?;
            return line.say(
                " redeclares one of a superclass that is final, static or of another package: take another name",
            );
        }
    }
    line.say("the class ")?;
    say_class(line, class_name(file))?;
    line.say(" breaks a rule of superclasses or catch types: compile all sources together again")
}

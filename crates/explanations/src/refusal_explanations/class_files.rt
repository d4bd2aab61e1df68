//! Why class files are refused.

use crate::refusal_explanations::malformed::say_malformed;
use crate::refusal_explanations::outside::{say_outside, say_place};
use crate::refusal_explanations::unresolved::say_unresolved;
use advice::GivenFile;
use advice::words::Line;
use classfile::{ClassFile, class_name, decode, superclass_name};
use hierarchy::ClassSet;
use link_conditions::refusal::{Refusal, RefusalKind};
use std::alloc::{AllocError, Global};

/// The set of the built-in classes and those of the files, where they are one.
fn set_of(alloc: Global, files: &[GivenFile<'_>]) -> Result<Option<ClassSet>, AllocError> {
    let mut classes = Vec::new(alloc);
    for file in files {
        match decode(alloc, &file.bytes) {
            Ok(class) => classes.push(class)?,
            Err(_) => return Ok(None),
        }
    }
    Ok(ClassSet::new(alloc, classes).ok())
}

/// Adds why all files together are refused.
fn say_of_all(
    line: &mut Line,
    kind: RefusalKind,
    files: &[GivenFile<'_>],
) -> Result<(), AllocError> {
    let Some(first) = files.first() else {
        return line.say("no class file was given");
    };
    match kind {
        RefusalKind::NoMain => {
            line.say(first.name)?;
            line.say(": the class has no static method main([Ljava/lang/String;)V")
        }
        RefusalKind::TooLarge => line.say("too many files, or too many texts of string constants"),
        _ => line.say("there is no memory for the class files"),
    }
}

/// Adds the name of the other file that declares the same class, or that the class is built in.
fn say_duplicate(
    line: &mut Line,
    alloc: Global,
    class: &ClassFile,
    before: &[GivenFile<'_>],
) -> Result<(), AllocError> {
    line.say("the class ")?;
    line.name(class_name(class))?;
    line.say(" is declared by ")?;
    for file in before {
        if let Ok(other) = decode(alloc, &file.bytes) {
            if class_name(&other) == class_name(class) {
                line.say(file.name)?;
                return line.say(", too");
            }
        }
    }
    line.say("this machine itself")
}

/// Adds which class or method stands badly among the others.
fn say_hierarchy(
    line: &mut Line,
    class: &ClassFile,
    method: Option<&[u8]>,
) -> Result<(), AllocError> {
    if let Some(method) = method {
        line.say("the method ")?;
        line.name(method)?;
        line.say(" of ")?;
    }
    line.say("the class ")?;
    line.name(class_name(class))?;
    line.say(", which extends ")?;
    line.name(superclass_name(class).unwrap_or(b""))?;
    line.say(", breaks a rule of superclasses")
}

/// Adds at which instruction a method has no typing.
fn say_unverified(
    line: &mut Line,
    class: &ClassFile,
    method: Option<&[u8]>,
    offset: Option<usize>,
) -> Result<(), AllocError> {
    line.say("the verifier refuses ")?;
    match (method, offset) {
        (Some(method), Some(pc)) => say_place(line, class, method, pc),
        _ => line.say("a method"),
    }
}

/// Adds what of a class, or of the method that is named, is too large.
fn say_too_large(line: &mut Line, method: Option<&[u8]>) -> Result<(), AllocError> {
    let Some(method) = method else {
        return line.say("the class has too many fields, or is one too many");
    };
    line.say("the method ")?;
    line.name(method)?;
    line.say(" takes too many steps to verify, or all methods together do")
}

/// Adds why the class of a file is refused.
fn say_of_class(
    line: &mut Line,
    alloc: Global,
    refusal: &Refusal,
    number: usize,
    files: &[GivenFile<'_>],
    class: &ClassFile,
) -> Result<(), AllocError> {
    let method = refusal.method.as_deref();
    match refusal.kind {
        RefusalKind::OutsideProfile => say_outside(line, alloc, class, method, refusal.offset),
        RefusalKind::DuplicateClass => {
            say_duplicate(line, alloc, class, files.get(..number).unwrap_or(&[]))
        }
        RefusalKind::Unresolved => match set_of(alloc, files)? {
            Some(set) => say_unresolved(line, &set, class, method, refusal.offset),
            None => line.say("a name is not found"),
        },
        RefusalKind::BadHierarchy => say_hierarchy(line, class, method),
        RefusalKind::Unverified => say_unverified(line, class, method, refusal.offset),
        RefusalKind::TooLarge => say_too_large(line, method),
        _ => line.say("there is no memory for it"),
    }
}

/// The line, without its end, that tells why class files are refused. A file that the refusal names is one of these.
pub fn explain(
    alloc: Global,
    refusal: &Refusal,
    files: &[GivenFile<'_>],
) -> Result<Vec<u8>, AllocError> {
    let mut line = Line::new(alloc);
    let number = refusal.file.unwrap_or(files.len());
    let Some(file) = files.get(number) else {
        say_of_all(&mut line, refusal.kind, files)?;
        return Ok(line.into_bytes());
    };
    line.say(file.name)?;
    if let Some(cause) = refusal.cause {
        say_malformed(&mut line, alloc, &file.bytes, cause, refusal.offset)?;
        return Ok(line.into_bytes());
    }
    line.say(": ")?;
    match decode(alloc, &file.bytes) {
        Ok(class) => say_of_class(&mut line, alloc, refusal, number, files, &class)?,
        Err(_) => line.say("there is no memory for it")?,
    }
    Ok(line.into_bytes())
}

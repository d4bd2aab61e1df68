//! What is wrong with a whole file, in words.

use crate::given::GivenFile;
use crate::words::cause::{say_version, words_of};
use crate::words::java::{say_class, say_own_method};
use crate::words::line::Line;
use classfile::{Cause, ClassFile, Method, class_name};
use std::alloc::AllocError;

/// What to do with a file that is none of class, by its name and its first bytes.
fn words_of_magic(file: &GivenFile<'_>) -> &'static str {
    if file.name.as_bytes().ends_with(b".java") {
        "it is a source: compile it by tools/java-classes"
    } else if file.bytes.starts_with(b"PK") {
        "it is a JAR or another ZIP: unpack it, and give the class files"
    } else {
        words_of(Cause::Magic)
    }
}

/// Adds why a file is no class file.
pub(crate) fn say_malformed(
    line: &mut Line,
    file: &GivenFile<'_>,
    cause: Cause,
) -> Result<(), AllocError> {
    line.say(file.name)?;
    match cause {
        Cause::Version => {
            say_version(line, &file.bytes)?;
            line.say(": compile it by tools/java-classes")
        }
        Cause::Tag => line.say(
            ": it has a constant that came after version 49.0, as a lambda needs one",
        ),
        Cause::Magic => {
            line.say(": ")?;
            line.say(words_of_magic(file))
        }
        cause => {
            line.say(": ")?;
            line.say(words_of(cause))?;
            line.say("; compile it, or copy it, again")
        }
    }
}

/// Adds that the class of a file is declared by another one, too, or is built in.
pub(crate) fn say_again(
    line: &mut Line,
    file: &GivenFile<'_>,
    class: Option<&ClassFile>,
    first: Option<&str>,
) -> Result<(), AllocError> {
    line.say(file.name)?;
    line.say(": the class ")?;
    if let Some(class) = class {
        say_class(line, class_name(class))?;
    }
    match first {
        Some(name) => {
            line.say(" is declared by ")?;
            line.say(name)?;
            line.say(", too: give one of the two")
        }
        None => line.say(" is built in: take another name"),
    }
}

/// Adds that the code of a method is malformed.
pub(crate) fn say_malformed_code(
    line: &mut Line,
    given: &str,
    file: &ClassFile,
    method: &Method,
) -> Result<(), AllocError> {
    line.say(given)?;
    line.say(": ")?;
    let (name, descriptor) = (
        file.pool.text(method.name),
        file.pool.text(method.descriptor),
    );
    say_own_method(line, class_name(file), name, descriptor)?;
    line.say(" has malformed code: compile it again")
}

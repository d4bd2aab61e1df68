//! Instructions that this machine has not (JVMS 6.5), in words.

use crate::words::java::{LeftOutType, say_class};
use crate::words::line::Line;
use classfile::{ClassFile, Constant, NameAndDescriptor};
use constant_pool::descriptors::{Element, parse_method};
use listings::left_out_opcodes::{LeftOut, Operands, left_out_at, mnemonic};
use std::alloc::AllocError;

/// What an instruction that this machine has not comes from.
#[derive(Clone, Copy)]
enum Origin {
    OfType(LeftOutType),
    /// `invokedynamic`.
    Dynamic,
    /// `multianewarray`.
    ManyDimensions,
    /// `jsr` and `ret`.
    Subroutine,
    Other,
}

impl Origin {
    /// What it comes from, by its mnemonic; of a conversion, what it leads to where that is left out.
    fn of_mnemonic(word: &str) -> Origin {
        match word.as_bytes() {
            b"invokedynamic" => Origin::Dynamic,
            b"multianewarray" => Origin::ManyDimensions,
            b"jsr" | b"jsr_w" | b"ret" => Origin::Subroutine,
            [b'd', ..] | [_, b'2', b'd'] => Origin::OfType(LeftOutType::Double),
            [b'f', ..] | [_, b'2', b'f'] => Origin::OfType(LeftOutType::Float),
            [b'l', ..] | [_, b'2', b'l'] => Origin::OfType(LeftOutType::Long),
            _ => Origin::Other,
        }
    }

    /// What an instruction of the file comes from. That of `ldc2_w` is told by its constant.
    fn of(file: &ClassFile, left_out: LeftOut) -> Origin {
        if let Operands::Constant(index) = left_out.operands {
            match file.constant(index) {
                Some(Constant::Double(_)) => return Origin::OfType(LeftOutType::Double),
                Some(Constant::Long(_)) => return Origin::OfType(LeftOutType::Long),
                _ => {}
            }
        }
        Origin::of_mnemonic(mnemonic(left_out.opcode).unwrap_or(""))
    }
}

/// What begins at an offset of a code where no instruction of this machine does: how many bytes it has, and what it
/// comes from. `None` where the JVMS has no such instruction, or it is not whole.
#[derive(Clone, Copy)]
pub(crate) struct Beyond {
    pub(crate) pc: usize,
    pub(crate) length: usize,
    origin: Origin,
    operands: Operands,
}

impl Beyond {
    /// The type that is left out from which it comes.
    pub(crate) fn left_out(self) -> Option<LeftOutType> {
        match self.origin {
            Origin::OfType(left_out) => Some(left_out),
            _ => None,
        }
    }
}

/// What begins at an offset of a code that this machine has not.
pub(crate) fn beyond_at(file: &ClassFile, code: &[u8], pc: usize) -> Option<Beyond> {
    let left_out = left_out_at(code, pc)?;
    Some(Beyond {
        pc,
        length: left_out.length,
        origin: Origin::of(file, left_out),
        operands: left_out.operands,
    })
}

/// The name and the descriptor of an InvokeDynamic, which is read as an Integer of the same bits.
fn dynamic(file: &ClassFile, operands: Operands) -> Option<NameAndDescriptor<'_>> {
    let Operands::Constant(index) = operands else {
        return None;
    };
    match file.constant(index) {
        Some(Constant::Integer(bits)) => {
            let [_, _, high, low] = bits.to_be_bytes();
            file.name_and_type(u16::from_be_bytes([high, low]))
        }
        _ => None,
    }
}

/// Adds what an `invokedynamic` comes from: a lambda or a method reference, and for which interface; or a
/// concatenation, in class files of later versions.
fn say_dynamic(line: &mut Line, file: &ClassFile, operands: Operands) -> Result<(), AllocError> {
    if let Some(named) = dynamic(file, operands) {
        if named.name.starts_with(b"makeConcat") {
            return line.say("+ of strings, of a later version: compile by tools/java-classes");
        }
        line.say("a lambda or a method reference")?;
        if let Some(method) = parse_method(line.alloc(), named.descriptor)? {
            if let Some(returned) = method.returns() {
                if let Element::Object(class) = returned.element {
                    line.say(", for ")?;
                    say_class(line, class)?;
                }
            }
        }
    } else {
        line.say("a lambda or a method reference")?;
    }
    line.say(": write an anonymous class")
}

/// Adds what a `multianewarray` makes.
fn say_dimensions(line: &mut Line, file: &ClassFile, operands: Operands) -> Result<(), AllocError> {
    line.say("new ")?;
    if let Operands::Dimensions { class, .. } = operands {
        say_class(line, file.class_name(class).unwrap_or(b"[][]"))?;
    }
    line.say(" of more than one size: make the outer array, and each inner one in a loop")
}

/// Adds an instruction that this machine has not, and what to write instead.
pub(crate) fn say_beyond(
    line: &mut Line,
    file: &ClassFile,
    beyond: Beyond,
) -> Result<(), AllocError> {
    match beyond.origin {
        Origin::OfType(left_out) => {
            line.say(left_out.word())?;
            line.say(left_out.cure())
        }
        Origin::Dynamic => say_dynamic(line, file, beyond.operands),
        Origin::ManyDimensions => say_dimensions(line, file, beyond.operands),
        Origin::Subroutine => {
            line.say("jsr, of an old compiler: compile it by tools/java-classes")
        }
        Origin::Other => line.say(
            "an instruction that no compiler of Java writes: compile it again",
        ),
    }
}

/// Adds that no instruction begins at an offset.
pub(crate) fn say_no_instruction(
    line: &mut Line,
    code: &[u8],
    pc: usize,
) -> Result<(), AllocError> {
    match code.get(pc) {
        Some(byte) => {
            line.say("the byte ")?;
            line.byte(*byte)?;
            line.say(" begins no whole instruction: compile it again")
        }
        None => line.say("the code ends within an instruction: compile it again"),
    }
}

//! What is told of whole files.

ghost use Rattle.std.specs.Prelude.{OnOk};
ghost use Rattle.advice.specs.Told.{Keeps};

use crate::given::GivenFile;
use crate::reading::{FileFault, class_of};
use crate::site::Site;
use crate::told::{Told, ToldPlace, push_told};
use crate::words::Line;
use crate::words::file::{say_again, say_malformed, say_malformed_code};
use crate::words::instruction::interface_method_of;
use classfile::ClassFile;
use classfile::profile::{Flaw, Place, Spot, first_fault};
use opcodes::decode_at;
use std::alloc::{AllocError, Global};

/// The name of a file.
fn name_of<'a>(files: &[GivenFile<'a>], number: usize) -> Option<&'a str> {
    match files.get(number) {
        Some(file) => Some(file.name),
        None => None,
    }
}

/// What is wrong with a file as a class file, or that it declares a class again.
fn fault_words(
    alloc: Global,
    files: &[GivenFile<'_>],
    file: &GivenFile<'_>,
    fault: FileFault,
) -> Result<Vec<u8>, AllocError> {
    let mut line = Line::new(alloc);
    match fault {
        FileFault::Malformed(cause) => say_malformed(&mut line, file, cause)?,
        FileFault::Again { first } => {
            let first = match first {
                Some(number) => name_of(files, number),
                None => None,
            };
            let class = class_of(alloc, &file.bytes)?;
            say_again(&mut line, file, class.as_ref(), first)?;
        }
    }
    Ok(line.into_bytes())
}

/// Tells what is wrong with a file as a class file, or that it declares a class again.
pub(crate) fn push_fault(
    alloc: Global,
    files: &[GivenFile<'_>],
    number: usize,
    file: &GivenFile<'_>,
    fault: Option<FileFault>,
    told: &mut Vec<Told>,
) -> Result<(), AllocError>
    ensures { OnOk result (Keeps told.old.items told.new.items) }
{
    let Some(fault) = fault else {
        return Ok(());
    };
    let words = fault_words(alloc, files, file, fault)?;
    push_told(told, number, ToldPlace::File, words)
}

/// Whether an instruction calls a method with a body of an interface, which is told by itself.
fn calls_interface(file: &ClassFile, method: usize, pc: usize) -> bool {
    let Some(method) = file.methods.get(method) else {
        return false;
    };
    let Some(code) = method.code() else {
        return false;
    };
    match decode_at(&code.code, pc) {
        Some(instr) => interface_method_of(file, instr).is_some(),
        None => false,
    }
}

/// The method whose code is malformed (JVMS 4.9.1), by the first fault of the file, where nothing else tells of it.
fn malformed_method(alloc: Global, file: &ClassFile) -> Result<Option<usize>, AllocError> {
    let Some(fault) = first_fault(alloc, file, &[])? else {
        return Ok(None);
    };
    match (fault.flaw, fault.place) {
        (
            Flaw::MalformedCode,
            Place::Method {
                method,
                spot: Spot::Instruction { pc },
            },
        ) if calls_interface(file, method, pc) => Ok(None),
        (Flaw::MalformedCode, Place::Method { method, .. }) => Ok(Some(method)),
        _ => Ok(None),
    }
}

/// Tells the first method of a class file whose code is malformed.
pub(crate) fn push_malformed_code(site: &Site<'_>, told: &mut Vec<Told>) -> Result<(), AllocError>
    ensures { OnOk result (Keeps told.old.items told.new.items) }
{
    let file = site.facts.file();
    let Some(number) = malformed_method(site.alloc, file)? else {
        return Ok(());
    };
    let Some(method) = file.methods.get(number) else {
        return Ok(());
    };
    let mut line = Line::new(site.alloc);
    say_malformed_code(&mut line, site.given, file, method)?;
    push_told(told, site.number, ToldPlace::File, line.into_bytes())
}

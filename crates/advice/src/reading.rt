//! Class files from bytes, those that this machine doesn't take as far as that goes.

ghost use Rattle.std.specs.Prelude.{◌≡◌, ◌++◌, [], ◌∷◌, Some, IfOk, OnOk, length, option_map, option_to_list};
ghost use Rattle.model.specs.Tree.{FileTree};
ghost use Rattle.model.specs.Spells.{Spells};
ghost use Rattle.classfile.specs.View.{file_of};
ghost use Rattle.advice.specs.Reading.{AreRead};

use crate::given::GivenFile;
use crate::mending::mend;
use classfile::{Cause, ClassFile, Malformed, decode};
use std::alloc::{AllocError, Global};

/// What a file is read as.
#[derive(Drop)]
pub(crate) struct ReadFile {
    /// Its class, where it is a class file, or is one once it is mended.
    pub(crate) class: Option<ClassFile>,
    /// What is wrong with it as a class file.
    pub(crate) fault: Option<Malformed>,
}

/// The class of bytes that are mended first.
fn mended_class(alloc: Global, bytes: &[u8]) -> Result<Option<ClassFile>, AllocError> {
    let mut mended = Vec::from_slice(alloc, bytes)?;
    mend(mended.as_mut_slice());
    match decode(alloc, &mended) {
        Ok(class) => Ok(Some(class)),
        Err(fault) => match fault.cause {
            Cause::OutOfMemory => Err(AllocError),
            _ => Ok(None),
        },
    }
}

/// What the bytes of a file are read as.
pub(crate) fn read_file(alloc: Global, bytes: &[u8]) -> Result<ReadFile, AllocError>
    ensures { (tree : FileTree) → Spells bytes.now tree
        → IfOk result (λ read. option_map file_of read.class ≡ Some tree) }
{
    let fault = match decode(alloc, bytes) {
        Ok(class) => {
            return Ok(ReadFile {
                class: Some(class),
                fault: None,
            });
        }
        Err(fault) => fault,
    };
    let class = match fault.cause {
        Cause::OutOfMemory => return Err(AllocError),
        Cause::Version | Cause::Tag => mended_class(alloc, bytes)?,
        _ => None,
    };
    Ok(ReadFile {
        class,
        fault: Some(fault),
    })
}

/// The class of bytes, mended where need be.
pub(crate) fn class_of(alloc: Global, bytes: &[u8]) -> Result<Option<ClassFile>, AllocError> {
    Ok(read_file(alloc, bytes)?.class)
}

/// What is wrong with a whole file.
#[derive(Clone, Copy)]
pub(crate) enum FileFault {
    /// The bytes are no class file that this machine takes.
    Malformed(Cause),
    /// The class is declared by an earlier file, of this number, or is built in.
    Again { first: Option<usize> },
}

/// The fault of a file that is no class file.
pub(crate) fn fault_of(fault: Option<Malformed>) -> Option<FileFault> {
    Some(FileFault::Malformed(fault?.cause))
}

/// What all files are read as: the classes of those that have one, and of each file the place of its class among
/// these, and what is wrong with it.
#[derive(Drop)]
pub(crate) struct ReadFiles {
    pub(crate) classes: Vec<ClassFile>,
    pub(crate) places: Vec<Option<usize>>,
    pub(crate) faults: Vec<Option<FileFault>>,
}

impl ReadFiles {
    pub(crate) fn empty(alloc: Global) -> ReadFiles
        ensures classes { result.classes.items ≡ [] }
        ensures places { result.places.items ≡ [] }
    {
        ReadFiles {
            classes: Vec::new(alloc),
            places: Vec::new(alloc),
            faults: Vec::new(alloc),
        }
    }

    /// Adds a file and its class, where it has one.
    pub(crate) fn push(
        &mut self,
        class: Option<ClassFile>,
        fault: Option<FileFault>,
    ) -> Result<(), AllocError>
        ensures classes { OnOk result (self.new.classes.items ≡ self.old.classes.items ++ option_to_list class) }
        ensures places { OnOk result (self.new.places.items ≡ self.old.places.items
            ++ option_map (λ _. length self.old.classes.items) class ∷ []) }
    {
        self.faults.push(fault)?;
        match class {
            Some(class) => {
                self.places.push(Some(self.classes.len()))?;
                self.classes.push(class)?;
            }
            None => self.places.push(None)?,
        }
        Ok(())
    }
}

/// What the files are read as.
pub(crate) fn read_files(alloc: Global, files: &[GivenFile<'_>]) -> Result<ReadFiles, AllocError>
    ensures { IfOk result (AreRead files.now) }
{
    let mut read = ReadFiles::empty(alloc);
    for file in files {
        let one = read_file(alloc, &file.bytes)?;
        read.push(one.class, fault_of(one.fault))?;
    }
    Ok(read)
}

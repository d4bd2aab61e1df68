//! Why class files are refused.

ghost use Rattle.std.specs.Prelude.{◌≡◌, Some, None, OnOk};
ghost use Rattle.std.specs.Io.KnownBytes.{Appends};
ghost use Rattle.link_conditions.specs.refusal.Lines.{cause_words, method_words, numbered, refusal_line};
ghost use Rattle.link_conditions.specs.refusal.Memory.{memory_wanted};
ghost use Rattle.link_conditions.specs.declared.refusal.why.RefusalKind.TheVariants as kinds;

use constant_pool::reading::Cause;
use std::alloc::{AllocError, AllocFailed};
use std::io::Write;
use std::{fmt, io};

/// What is wrong with class files. Its number is that of its place, counted from 1.
#[derive(Clone, Copy)]
pub enum RefusalKind {
    /// A file is no class file, or the code of a method is none.
    Malformed = 1,
    /// A class file has what this machine leaves out.
    OutsideProfile,
    /// Two classes have one name, or a class has the name of a built-in one.
    DuplicateClass,
    /// A class, a field or a method is not found.
    Unresolved,
    /// The classes stand in no hierarchy.
    BadHierarchy,
    /// The code of a method has no typing.
    Unverified,
    /// The class of the first file has no main, or there is no file.
    NoMain,
    /// There are too many files or texts of string constants, a class has too many fields, or verification takes too
    /// many steps.
    TooLarge,
    OutOfMemory,
}

/// The number and the name.
impl fmt::Display for RefusalKind {
    ghost use Rattle.std.specs.Prelude.{Some};
    ghost use Rattle.link_conditions.specs.refusal.Lines.{kind_words};

    ghost output = { λ kind. Some (kind_words kind) };

    fn fmt<W: fmt::Write>(&self, f: &mut fmt::Formatter<W>) -> fmt::Result {
        f.write_str(match self {
            RefusalKind::Malformed => "1 Malformed",
            RefusalKind::OutsideProfile => "2 OutsideProfile",
            RefusalKind::DuplicateClass => "3 DuplicateClass",
            RefusalKind::Unresolved => "4 Unresolved",
            RefusalKind::BadHierarchy => "5 BadHierarchy",
            RefusalKind::Unverified => "6 Unverified",
            RefusalKind::NoMain => "7 NoMain",
            RefusalKind::TooLarge => "8 TooLarge",
            RefusalKind::OutOfMemory => "9 OutOfMemory",
        })
    }
}

/// Why class files are refused, and where: the number of the file, counted from 0; the name of the method with its
/// descriptor behind it, as the bytes that the class file has; and an offset, which counts from the start of the code
/// where a method is named, else from that of the file. Only what is malformed has a cause.
#[derive(Drop)]
pub struct Refusal {
    pub kind: RefusalKind,
    pub file: Option<usize>,
    pub method: Option<Vec<u8>>,
    pub offset: Option<usize>,
    pub cause: Option<Cause>,
}

impl Refusal {
    /// A refusal with no place.
    pub fn of(kind: RefusalKind) -> Refusal
        ensures kind { result.kind ≡ kind }
        ensures file { result.file ≡ None }
        ensures method { result.method ≡ None }
        ensures offset { result.offset ≡ None }
        ensures cause { result.cause ≡ None }
    {
        Refusal {
            kind,
            file: None,
            method: None,
            offset: None,
            cause: None,
        }
    }

    /// A refusal of a file.
    pub fn of_file(kind: RefusalKind, file: usize) -> Refusal
        ensures kind { result.kind ≡ kind }
        ensures file { result.file ≡ Some file }
        ensures method { result.method ≡ None }
        ensures offset { result.offset ≡ None }
        ensures cause { result.cause ≡ None }
    {
        Refusal {
            file: Some(file),
            ..Refusal::of(kind)
        }
    }

    /// A refusal of a method of a file; with an offset, of the instruction that stands there in its code.
    pub fn of_method(
        kind: RefusalKind,
        file: usize,
        method: Option<Vec<u8>>,
        offset: Option<usize>,
    ) -> Refusal
        ensures kind { result.kind ≡ kind }
        ensures file { result.file ≡ Some file }
        ensures method { result.method ≡ method }
        ensures offset { result.offset ≡ offset }
        ensures cause { result.cause ≡ None }
    {
        Refusal {
            kind,
            file: Some(file),
            method,
            offset,
            cause: None,
        }
    }

    /// A file, or its code, is malformed at an offset in the file.
    pub fn malformed(file: usize, offset: Option<usize>, cause: Cause) -> Refusal
        ensures kind { result.kind ≡ kinds.Malformed }
        ensures file { result.file ≡ Some file }
        ensures cause { result.cause ≡ Some cause }
        ensures method { result.method ≡ None }
        ensures offset { result.offset ≡ offset }
    {
        Refusal {
            kind: RefusalKind::Malformed,
            file: Some(file),
            method: None,
            offset,
            cause: Some(cause),
        }
    }

    /// Writes the line that tells it, without its end. The name of a method stands in it byte by byte, so the line may
    /// be no UTF-8.
    pub fn write_line<W: Write>(&self, to: &mut W) -> io::Result<()>
        ensures { OnOk result (Appends (W.contents to.old) (W.contents to.new) (refusal_line self.now)) }
    {
        let kind = self.kind;
        write!(to, "refused {kind}")?;
        write_number(to, " file ", self.file)?;
        self.write_method(to)?;
        write_number(to, " offset ", self.offset)?;
        self.write_cause(to)
    }

    /// Writes the method, where one is known.
    fn write_method<W: Write>(&self, to: &mut W) -> io::Result<()>
        ensures { OnOk result (Appends (W.contents to.old) (W.contents to.new) (method_words self.now.method)) }
    {
        let Some(method) = &self.method else {
            return Ok(());
        };
        to.write_all(b" method ")?;
        to.write_all(method)
    }

    /// Writes the cause, where there is one.
    fn write_cause<W: Write>(&self, to: &mut W) -> io::Result<()>
        ensures { OnOk result (Appends (W.contents to.old) (W.contents to.new) (cause_words self.now.cause)) }
    {
        match self.cause {
            Some(cause) => write!(to, " {cause}"),
            None => Ok(()),
        }
    }
}

/// Writes a number behind a word, where there is one.
fn write_number<W: Write>(to: &mut W, word: &str, number: Option<usize>) -> io::Result<()>
    ensures { OnOk result (Appends (W.contents to.old) (W.contents to.new) (numbered word.now number)) }
{
    match number {
        Some(number) => write!(to, "{word}{number}"),
        None => Ok(()),
    }
}

impl From<AllocError> for Refusal {
    ghost from_gives = { λ _ refusal. refusal ≡ memory_wanted };

    fn from(_error: AllocError) -> Refusal {
        Refusal::of(RefusalKind::OutOfMemory)
    }
}

impl<T: Drop> From<AllocFailed<T>> for Refusal {
    ghost from_gives = { λ _ refusal. refusal ≡ memory_wanted };

    fn from(_error: AllocFailed<T>) -> Refusal {
        Refusal::of(RefusalKind::OutOfMemory)
    }
}

//! What is said where the words of a command line have no status.

ghost use Rattle.std.specs.Prelude.{◌≡◌, OnOk};
ghost use Rattle.engines.specs.Complaints.{Tells, complaint_of, library_line, library_refusal_line};
ghost use Rattle.link_conditions.specs.refusal.Lines.{cause_words, method_words, numbered};
ghost use Rattle.std.specs.Prelude.{◌++◌, codes};
ghost use Rattle.std.specs.Io.KnownBytes.{Appends};
ghost use Rattle.engines.specs.declared.complaint.Complaint.TheVariants as complaints;

use crate::fault::Fault;
use command_line::Usage;
use link_conditions::refusal::Refusal;
use program_files::FilesFault;
use std::io;
use std::io::Write;

/// Why words have no status.
#[derive(Drop)]
pub enum Complaint<'a> {
    /// The words are no command.
    Usage(Usage),
    /// The words are a command, and stand for no files that are handed on.
    Files(FilesFault),
    /// The words are a command, and something keeps it from its end.
    Fault(Fault),
    /// The same, of a class that the library adds to the files, which has this name.
    Library(Fault, &'a [u8]),
}

impl Complaint<'_> {
    /// Writes the text for the standard error, with each line ended. The names of class files stand in it byte by byte,
    /// so it may be no UTF-8.
    pub fn write_text<W: Write>(&self, to: &mut W) -> io::Result<()>
        ensures { OnOk result (Tells self.now (W.contents to.old) (W.contents to.new)) }
    {
        match self {
            Complaint::Usage(usage) => write!(to, "{usage}"),
            Complaint::Files(fault) => fault.write_text(to),
            Complaint::Fault(fault) => {
                fault.write_line(to)?;
                to.write_all(b"\n")
            }
            Complaint::Library(fault, name) => {
                write_library_line(fault, name, to)?;
                to.write_all(b"\n")
            }
        }
    }
}

/// Writes the line of a fault of a class of the library, without its end.
fn write_library_line<W: Write>(fault: &Fault, name: &[u8], to: &mut W) -> io::Result<()>
    ensures { OnOk result (Appends (W.contents to.old) (W.contents to.new) (library_line name.now fault.now)) }
{
    match fault {
        Fault::Refusal(refusal) => write_refusal(refusal, name, to),
        other => other.write_line(to),
    }
}

/// Writes the line of a refusal of a class of the library, without its end: it has the name of the class.
fn write_refusal<W: Write>(refusal: &Refusal, name: &[u8], to: &mut W) -> io::Result<()>
    ensures { OnOk result (Appends (W.contents to.old) (W.contents to.new)
        (library_refusal_line name.now refusal.now)) }
{
    let kind = refusal.kind;
    write!(to, "refused {kind} library ")?;
    to.write_all(name)?;
    write_method(refusal, to)?;
    write_offset(refusal, to)?;
    write_cause(refusal, to)
}

/// Writes the method, where one is known.
fn write_method<W: Write>(refusal: &Refusal, to: &mut W) -> io::Result<()>
    ensures { OnOk result (Appends (W.contents to.old) (W.contents to.new) (method_words refusal.now.method)) }
{
    let Some(method) = &refusal.method else {
        return Ok(());
    };
    to.write_all(b" method ")?;
    to.write_all(method)
}

/// Writes the offset, where one is known.
fn write_offset<W: Write>(refusal: &Refusal, to: &mut W) -> io::Result<()>
    ensures { OnOk result (Appends (W.contents to.old) (W.contents to.new)
        (numbered (codes " offset ") refusal.now.offset)) }
{
    match refusal.offset {
        Some(offset) => write!(to, " offset {offset}"),
        None => Ok(()),
    }
}

/// Writes the cause, where there is one.
fn write_cause<W: Write>(refusal: &Refusal, to: &mut W) -> io::Result<()>
    ensures { OnOk result (Appends (W.contents to.old) (W.contents to.new) (cause_words refusal.now.cause)) }
{
    match refusal.cause {
        Some(cause) => write!(to, " {cause}"),
        None => Ok(()),
    }
}

impl<'a> From<Usage> for Complaint<'a> {
    ghost from_gives = { λ usage complaint. complaint ≡ complaints.Usage usage };

    fn from(usage: Usage) -> Complaint<'a> {
        Complaint::Usage(usage)
    }
}

impl<'a> From<FilesFault> for Complaint<'a> {
    ghost from_gives = { λ fault complaint. complaint ≡ complaint_of fault };

    fn from(fault: FilesFault) -> Complaint<'a> {
        match fault {
            FilesFault::Device => Complaint::Fault(Fault::Device),
            FilesFault::Memory => Complaint::Fault(Fault::Memory),
            other => Complaint::Files(other),
        }
    }
}

impl<'a> From<Fault> for Complaint<'a> {
    ghost from_gives = { λ fault complaint. complaint ≡ complaints.Fault fault };

    fn from(fault: Fault) -> Complaint<'a> {
        Complaint::Fault(fault)
    }
}

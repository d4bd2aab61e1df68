//! Why the files of a command can't be handed on.

ghost use Rattle.std.specs.Prelude.{◌≡◌};
ghost use Rattle.program_files.specs.Given.{IsOfError};
ghost use Rattle.program_files.specs.declared.files_fault.FilesFault.TheVariants as faults;

use std::alloc::{AllocError, AllocFailed};
use std::io;
use std::io::{ErrorKind, Write};

/// How the texts end.
const MORE: &[u8] = b"\n\nFor more information, try '--help'.\n";

/// Why the files of a command can't be handed on.
#[derive(Drop)]
pub enum FilesFault {
    /// A folder can't be listed, or a file can't be read.
    Device,
    Memory,
    /// In the folder at this path, and in those that lie in it, is no class file.
    Empty(String),
    /// The folder at this path lies too deep in others.
    TooDeep(String),
    /// Classes of these names, which are several, declare a main, and none is named.
    Mains(Vec<Vec<u8>>),
    /// No class has the name that is given.
    NoClass(String),
    /// The class of the name that is given declares no main.
    NoMain(String),
}

impl FilesFault {
    /// Writes the text for the standard error, with each line ended. The names of classes stand in it with dots, and
    /// without control characters.
    pub fn write_text<W: Write>(&self, to: &mut W) -> io::Result<()> {
        match self {
            FilesFault::Device => return to.write_all(b"device\n"),
            FilesFault::Memory => return to.write_all(b"run refused Memory\n"),
            FilesFault::Empty(path) => write!(
                to,
                "error: no class file lies in the folder '{path}'"
            )?,
            FilesFault::TooDeep(path) => write!(
                to,
                "error: the folder '{path}' lies in too many others: links may go round"
            )?,
            FilesFault::Mains(names) => write_mains(to, names.as_slice())?,
            FilesFault::NoClass(name) => write!(
                to,
                "error: invalid value '{name}' for '--main <NAME>': no file declares this class"
            )?,
            FilesFault::NoMain(name) => write!(
                to,
                "error: invalid value '{name}' for '--main <NAME>': the class has no static method main(String[])"
            )?,
        }
        to.write_all(MORE)
    }
}

/// Writes which classes declare a main.
fn write_mains<W: Write>(to: &mut W, names: &[Vec<u8>]) -> io::Result<()> {
    to.write_all(
        b"error: more than one class has a main method; '--main <NAME>' says whose is run\n  [possible values: ",
    )?;
    for (number, name) in names.iter().enumerate() {
        if number > 0 {
            to.write_all(b", ")?;
        }
        write_name(to, name.as_slice())?;
    }
    to.write_all(b"]")
}

/// Writes the name of a class with dots, and with a question mark for each control character.
fn write_name<W: Write>(to: &mut W, name: &[u8]) -> io::Result<()> {
    for byte in name {
        let shown = match *byte {
            b'/' => b'.',
            0..32 | 127 => b'?',
            other => other,
        };
        to.write_all(&[shown])?;
    }
    Ok(())
}

impl From<io::Error> for FilesFault {
    ghost from_gives = { λ error fault. IsOfError error fault };

    fn from(error: io::Error) -> FilesFault {
        match error.kind() {
            ErrorKind::OutOfMemory => FilesFault::Memory,
            _ => FilesFault::Device,
        }
    }
}

impl From<AllocError> for FilesFault {
    ghost from_gives = { λ _ fault. fault ≡ faults.Memory };

    fn from(_error: AllocError) -> FilesFault {
        FilesFault::Memory
    }
}

impl<T: Drop> From<AllocFailed<T>> for FilesFault {
    ghost from_gives = { λ _ fault. fault ≡ faults.Memory };

    fn from(_error: AllocFailed<T>) -> FilesFault {
        FilesFault::Memory
    }
}

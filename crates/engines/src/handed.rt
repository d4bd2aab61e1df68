//! The class files that a command hands on: those for which its words stand, and behind them those of the classes
//! that the library adds.

ghost use Rattle.std.specs.Prelude.{◌≡◌, ℕ, IfErr, IfOk, map, string_bytes, vec_items};
ghost use Rattle.library_files.specs.Adding.{library_file};
ghost use Rattle.engines.specs.Engines.{ReadsEach};
ghost use Rattle.engines.specs.Failures.{FolderMayFail, TellsFailures};
ghost use Rattle.engines.specs.Files.{held_at};
ghost use Rattle.engines.specs.Handed.{AreHanded, IsComplaint, IsUnread, added_name, library_of, refused_name, unless_alone};
ghost use Rattle.std.specs.Option.{option_map};

use crate::class_files::read_class_files;
use crate::complaint::Complaint;
use crate::fault::Fault;
use crate::named_file::path_sources;
use command_line::Command;
use library_files::{LibraryClass, added_to, own_of, with_bytes};
use program_files::Folder;
use std::alloc::Global;

/// The bytes of the files at these paths.
fn read_files<F: Folder>(alloc: Global, folder: &F, paths: &[String]) -> Result<Vec<Vec<u8>>, Fault>
    ensures read { IfOk result (λ files.
        ReadsEach (held_at (F.held folder.now) (map string_bytes paths.now)) (map vec_items files.items)) }
    ensures unread { IfErr result IsUnread }
    ensures told { (n : ℕ) → TellsFailures (FolderMayFail F.may_fail) result n n }
{
    let mut sources = path_sources(alloc, folder, paths)?;
    read_class_files(alloc, sources.as_mut_slice())
}

/// The library, unless the files are to stand alone.
fn unless_alone<'a, 'b>(alone: bool, library: &'a [LibraryClass<'b>]) -> &'a [LibraryClass<'b>]
    ensures { map library_file result.now ≡ unless_alone alone (map library_file library.now) }
{
    if alone {
        return &[];
    }
    library
}

/// The classes that may be added to the files of a command.
fn library_of<'a, 'b>(command: &Command, library: &'a [LibraryClass<'b>]) -> &'a [LibraryClass<'b>]
    ensures { map library_file result.now ≡ library_of command.now (map library_file library.now) }
{
    match command {
        Command::Run(options) => unless_alone(options.files_alone, library),
        Command::Replay(options) => unless_alone(options.files_alone, library),
        Command::Trace(options) => unless_alone(options.files_alone, library),
        Command::Races(options) => unless_alone(options.files_alone, library),
        Command::Search(options) => unless_alone(options.files_alone, library),
        Command::Shrink(options) => unless_alone(options.files_alone, library),
        Command::Verify(options) => unless_alone(options.files_alone, library),
        Command::Places(options) => unless_alone(options.files_alone, library),
        Command::Disasm(_) => &[],
        Command::Schedule(_) => &[],
    }
}

/// The class files that a command hands on.
#[derive(Drop)]
pub(crate) struct Handed<'a> {
    /// The bytes of those that are given, and behind them those of the classes that the library adds.
    pub(crate) files: Vec<Vec<u8>>,
    /// The classes that the library adds.
    pub(crate) added: Vec<LibraryClass<'a>>,
    /// The classes of the library in whose place the files have their own.
    pub(crate) own: Vec<LibraryClass<'a>>,
}

/// The files at these paths, and behind them those of the classes of the library that are added to them.
pub(crate) fn handed_files<'a, F: Folder>(
    alloc: Global,
    folder: &F,
    command: &Command,
    library: &[LibraryClass<'a>],
    paths: &[String],
) -> Result<Handed<'a>, Fault>
    ensures handed { IfOk result (λ handed. AreHanded (map library_file library.now) command.now
        (held_at (F.held folder.now) (map string_bytes paths.now)) (map vec_items handed.files.items)
        (map library_file handed.added.items) (map library_file handed.own.items)) }
    ensures unread { IfErr result IsUnread }
    ensures told { (n : ℕ) → TellsFailures (FolderMayFail F.may_fail) result n n }
{
    let given = read_files(alloc, folder, paths)?;
    let library = library_of(command, library);
    let own = own_of(alloc, given.as_slice(), library)?;
    let added = added_to(alloc, given.as_slice(), library)?;
    let files = with_bytes(alloc, given, added.as_slice())?;
    Ok(Handed { files, added, own })
}

impl<'a> Handed<'a> {
    /// What is told of a fault of a command that hands these files on, of which the first so many are given: the name
    /// of the class, too, where one is refused that the library adds.
    pub(crate) fn complaint(&self, given: usize, fault: Fault) -> Complaint<'a>
        ensures { IsComplaint given (map library_file self.now.added.items) fault result }
    {
        match self.refused_name(given, &fault) {
            Some(name) => Complaint::Library(fault, name),
            None => Complaint::Fault(fault),
        }
    }

    /// The name of the class of the library that is refused, if it is one.
    fn refused_name(&self, given: usize, fault: &Fault) -> Option<&'a [u8]>
        ensures { option_map (λ name. name.now) result
            ≡ refused_name given (map library_file self.now.added.items) fault.now }
    {
        let Fault::Refusal(refusal) = fault else {
            return None;
        };
        self.added_name(given, refusal.file?)
    }

    /// The name of the class of the library that has this number among the files, if one has.
    fn added_name(&self, given: usize, number: usize) -> Option<&'a [u8]>
        ensures { option_map (λ name. name.now) result
            ≡ added_name given (map library_file self.now.added.items) number }
    {
        if number < given {
            return None;
        }
        let class = self.added.get(number - given)?;
        Some(class.name)
    }
}

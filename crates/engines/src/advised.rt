//! The advice on files that `verify` refuses. For it the files are read a second time.

ghost use Rattle.std.specs.Prelude.{◌≡◌, ◌⊎◌, [], IfOk, map, string_bytes, vec_items};
ghost use Rattle.advice.specs.Reading.{bytes_of};
ghost use Rattle.engines.specs.Advised.{IsAdviceOn, IsAdvised};
ghost use Rattle.engines.specs.Commands.{OfFiles};
ghost use Rattle.engines.specs.Files.{held_at};
ghost use Rattle.engines.specs.Handed.{AreHanded};
ghost use Rattle.library_files.specs.Adding.{library_file};

use crate::command_files::command_files;
use crate::fault::Fault;
use crate::handed::handed_files;
use advice::{GivenFile, advice};
use command_line::Command;
use library_files::LibraryClass;
use program_files::Folder;
use std::alloc::{AllocError, Global};

/// What a class file is called that the library adds.
const OF_THE_LIBRARY: &str = "a class of the library";

/// The class files that a command hands on, with the paths of those that are given.
pub(crate) fn named_files<'a, F: Folder>(
    alloc: Global,
    folder: &F,
    command: &Command,
    library: &[LibraryClass<'_>],
    paths: &'a [String],
) -> Result<Vec<GivenFile<'a>>, Fault>
    ensures { IfOk result (λ files. (added : _) × (own : _) × AreHanded (map library_file library.now) command.now
        (held_at (F.held folder.now) (map string_bytes paths.now)) (map bytes_of files.items) added own) }
{
    let handed = handed_files(alloc, folder, command, library, paths)?;
    let files = with_names(alloc, handed.files.as_slice(), paths)?;
    Ok(files)
}

/// Files with their paths, and those behind the paths with the name of what the library adds.
fn with_names<'a>(
    alloc: Global,
    handed: &[Vec<u8>],
    paths: &'a [String],
) -> Result<Vec<GivenFile<'a>>, AllocError>
    ensures { IfOk result (λ files. map bytes_of files.items ≡ map vec_items handed.now) }
{
    let mut files = Vec::new(alloc);
    for (number, bytes) in handed.iter().enumerate() {
        files.push(named_file(alloc, name_of(paths, number), bytes)?)?;
    }
    Ok(files)
}

/// The path with this number, and behind them the name of what the library adds.
fn name_of(paths: &[String], number: usize) -> &str {
    match paths.get(number) {
        Some(path) => path.as_str(),
        None => OF_THE_LIBRARY,
    }
}

/// A file of these bytes, with a name.
fn named_file<'a>(alloc: Global, name: &'a str, bytes: &[u8]) -> Result<GivenFile<'a>, AllocError>
    ensures { IfOk result (λ file. bytes_of file ≡ bytes.now) }
{
    let bytes = Vec::from_slice(alloc, bytes)?;
    Ok(GivenFile { name, bytes })
}

/// What is wrong with the files for which the words of a command stand, in lines; nothing where they can't be read
/// again.
fn advice_on<F: Folder>(
    alloc: Global,
    folder: &F,
    command: &Command,
    library: &[LibraryClass<'_>],
) -> Vec<u8>
    ensures { (result.items ≡ [])
        ⊎ OfFiles (map library_file library.now) (F.held folder.now) (F.listed folder.now) command.now
        (IsAdviceOn result.items) }
{
    let Ok(paths) = command_files(alloc, folder, command) else {
        return Vec::new(alloc);
    };
    let Ok(files) = named_files(alloc, folder, command, library, &paths) else {
        return Vec::new(alloc);
    };
    advice(alloc, &files).unwrap_or(Vec::new(alloc))
}

/// What is wrong with the files that `verify` refuses, in lines; nothing where it isn't `verify`, or they can't be
/// read again.
pub(crate) fn advised<F: Folder>(
    alloc: Global,
    folder: &F,
    command: &Command,
    library: &[LibraryClass<'_>],
    fault: &Fault,
) -> Vec<u8>
    ensures { (result.items ≡ [])
        ⊎ IsAdvised (map library_file library.now) (F.held folder.now) (F.listed folder.now) command.now fault.now
        result.items }
{
    match (command, fault) {
        (Command::Verify(_), Fault::Refusal(_)) => advice_on(alloc, folder, command, library),
        _ => Vec::new(alloc),
    }
}

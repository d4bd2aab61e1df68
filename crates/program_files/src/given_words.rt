//! The class files for which the words of a command line stand.

ghost use Rattle.std.specs.Prelude.{◌≡◌, ◌∷◌, [], IfErr, IfOk, filter, is_some, map, not, string_bytes, vec_items};
ghost use Rattle.std.specs.Option.{option_map};
ghost use Rattle.program_files.specs.Folders.{FolderMayFail, IsListed};
ghost use Rattle.program_files.specs.Given.{AreGiven, IsGiven, IsNoFile, IsUnable, IsUngiven, IsUnslashed, is_given};
ghost use Rattle.program_files.specs.declared.files_fault.FilesFault.TheVariants.{Device};

use crate::class_paths::{class_paths, names_at};
use crate::files_fault::FilesFault;
use crate::folder::Folder;
use command_line::is_same_path;
use std::alloc::{AllocError, Global};

/// The paths of the files that words stand for. In the place of a folder stand the class files in it and in those
/// below, sorted by their paths, without those that were given before.
pub fn given_paths<F: Folder>(
    alloc: Global,
    folder: &F,
    words: &[String],
) -> Result<Vec<String>, FilesFault>
    ensures given { IfOk result (λ given.
        AreGiven (F.listed folder.now) (map string_bytes words.now) (map string_bytes given.items)) }
    ensures faulty { IfErr result (IsUngiven (F.listed folder.now) (map string_bytes words.now)) }
    ensures failed { IfErr result (λ fault. fault ≡ Device → FolderMayFail F.may_fail) }
{
    let mut given = Vec::new(alloc);
    for word in words {
        let names = names_at(alloc, folder, word.as_str())?;
        let mut files = files_of(alloc, folder, &given, word.as_str(), names)?;
        given.append(&mut files)?;
    }
    Ok(given)
}

/// The paths of the files that a word stands for, where others were given before.
fn files_of<F: Folder>(
    alloc: Global,
    folder: &F,
    before: &[String],
    word: &str,
    names: Option<Vec<String>>,
) -> Result<Vec<String>, FilesFault>
    ensures given { IfOk result (λ files. IsGiven (F.listed folder.now) (map string_bytes before.now) word.now
        (option_map vec_items names) (map string_bytes files.items)) }
    ensures faulty { IfErr result (IsNoFile (F.listed folder.now) word.now (option_map vec_items names)) }
    ensures failed { IfErr result (λ fault. fault ≡ Device → FolderMayFail F.may_fail) }
{
    match names {
        Some(names) => {
            let files = class_paths(alloc, folder, without_slash(word), names)?;
            if files.is_empty() {
                return Err(FilesFault::Empty(String::from_str(alloc, word)?));
            }
            Ok(new_files(alloc, before, &files)?)
        }
        None => Ok(itself(alloc, word)?),
    }
}

/// A word alone.
fn itself(alloc: Global, word: &str) -> Result<Vec<String>, AllocError>
    ensures { IfOk result (λ files. map string_bytes files.items ≡ word.now ∷ []) }
{
    let mut files = Vec::new(alloc);
    files.push(String::from_str(alloc, word)?)?;
    Ok(files)
}

/// The files that were not given before.
fn new_files(alloc: Global, before: &[String], files: &[String]) -> Result<Vec<String>, AllocError>
    ensures { IfOk result (λ kept. map string_bytes kept.items
        ≡ filter (λ file. not (is_given (map string_bytes before.now) file)) (map string_bytes files.now)) }
{
    let mut kept = Vec::new(alloc);
    for file in files {
        if !is_given(alloc, before, file.as_str())? {
            kept.push(file.clone()?)?;
        }
    }
    Ok(kept)
}

/// Whether a file was given before, by its path or another one that leads the same way.
pub fn is_given(alloc: Global, before: &[String], file: &str) -> Result<bool, AllocError>
    ensures { IfOk result (λ is. is ≡ is_given (map string_bytes before.now) file.now) }
{
    for path in before {
        if is_same_path(alloc, path.as_str(), file)? {
            return Ok(true);
        }
    }
    Ok(false)
}

/// The path without the slash that may stand at its end.
fn without_slash(path: &str) -> &str
    ensures { IsUnslashed path.now result.now }
{
    match path.strip_suffix('/') {
        Some(folder) => folder,
        None => path,
    }
}

/// Whether there is a folder at a path.
pub fn is_folder<F: Folder>(alloc: Global, folder: &F, path: &str) -> Result<bool, FilesFault>
    ensures folder { IfOk result (λ is. (found : _) × IsListed (F.listed folder.now path.now) found
        × (is ≡ is_some found)) }
    ensures unable { IfErr result IsUnable }
    ensures failed { IfErr result (λ fault. fault ≡ Device → FolderMayFail F.may_fail) }
{
    Ok(names_at(alloc, folder, path)?.is_some())
}

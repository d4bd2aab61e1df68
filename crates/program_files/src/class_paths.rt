//! The class files of a folder and of those in it, by the names of what lies there.

ghost use Rattle.std.specs.Prelude.{◌≡◌, ◌⊎◌, ◌∷◌, [], IfErr, IfOk, Some, filter, map, string_bytes, vec_items};
ghost use Rattle.std.specs.Option.{option_map};
ghost use Rattle.program_files.specs.Folders.{FolderMayFail, IsListed};
ghost use Rattle.program_files.specs.Given.{AreAt, AreBelow, AreFilesOf, AreFronts, IsTooDeep, IsTooDeepAt, IsTooDeepIn, IsUnable, in_folder, is_class_path, most_deep};
ghost use Rattle.program_files.specs.declared.files_fault.FilesFault.TheVariants.{Device, TooDeep};

use crate::files_fault::FilesFault;
use crate::folder::Folder;
use std::alloc::{AllocError, Global};
use std::io;

/// How the names of class files end.
const ENDING: &[u8] = b".class";

/// How many folders may lie in one another.
const MOST_DEEP: u32 = 32;

/// The paths of the class files in a folder, and in those that lie in it, sorted byte by byte. The names are those of
/// all that lies in the folder.
///
/// `TooDeep` where folders lie in one another too deep, as they do where links go round.
pub(crate) fn class_paths<F: Folder>(
    alloc: Global,
    folder: &F,
    path: &str,
    names: Vec<String>,
) -> Result<Vec<String>, FilesFault>
    ensures files { IfOk result (λ paths.
        AreFilesOf (F.listed folder.now) path.now names.items (map string_bytes paths.items)) }
    ensures faulty { IfErr result (λ fault. IsUnable fault
        ⊎ ((deep : _) × (fault ≡ TooDeep deep)
        × IsTooDeep (F.listed folder.now) most_deep path.now (Some names.items) (string_bytes deep))) }
    ensures failed { IfErr result (λ fault. fault ≡ Device → FolderMayFail F.may_fail) }
{
    let mut paths = below(alloc, folder, MOST_DEEP, path, Some(names))?;
    paths.sort()?;
    Ok(paths)
}

/// The first path of which it can't be told whether a folder is there, or what lies in it: this one, or one below it;
/// and the system's reason.
pub fn first_unlisted<F: Folder>(
    alloc: Global,
    folder: &F,
    path: &str,
) -> Result<Option<(String, io::Error)>, AllocError> {
    unlisted_below(alloc, folder, MOST_DEEP, path)
}

/// What `first_unlisted` answers, where so many folders may lie in one another.
fn unlisted_below<F: Folder>(
    alloc: Global,
    folder: &F,
    depth: u32,
    path: &str,
) -> Result<Option<(String, io::Error)>, AllocError> {
    let names = match folder.names(alloc, path) {
        Ok(Some(names)) if depth > 0 => names,
        Ok(_) => return Ok(None),
        Err(error) => return Ok(Some((String::from_str(alloc, path)?, error))),
    };
    for name in &names {
        let path = path_of(alloc, path, name.as_str())?;
        let found = unlisted_below(alloc, folder, depth - 1, path.as_str())?;
        if found.is_some() {
            return Ok(found);
        }
    }
    Ok(None)
}

/// The class files at a path, where these names lie, or no folder is: so many folders may lie in one another.
#[cycle(below)]
fn below<F: Folder>(
    alloc: Global,
    folder: &F,
    depth: u32,
    path: &str,
    found: Option<Vec<String>>,
) -> Result<Vec<String>, FilesFault>
    ensures files { IfOk result (λ paths.
        AreBelow (F.listed folder.now) depth path.now (option_map vec_items found) (map string_bytes paths.items)) }
    ensures faulty { IfErr result (λ fault. IsUnable fault
        ⊎ ((deep : _) × (fault ≡ TooDeep deep)
        × IsTooDeep (F.listed folder.now) depth path.now (option_map vec_items found) (string_bytes deep))) }
    ensures failed { IfErr result (λ fault. fault ≡ Device → FolderMayFail F.may_fail) }
{
    match found {
        None => Ok(class_file(alloc, path)?),
        Some(_) if depth == 0 => Err(FilesFault::TooDeep(String::from_str(alloc, path)?)),
        Some(names) => below_each(alloc, folder, depth - 1, path, names.as_slice()),
    }
}

/// The class files at these names in a folder, where so many folders may lie in one another.
#[cycle(below)]
fn below_each<F: Folder>(
    alloc: Global,
    folder: &F,
    depth: u32,
    path: &str,
    names: &[String],
) -> Result<Vec<String>, FilesFault>
    ensures files { IfOk result (λ paths.
        AreFronts (AreAt (F.listed folder.now) depth path.now) names.now (map string_bytes paths.items)) }
    ensures faulty { IfErr result (λ fault. IsUnable fault
        ⊎ ((deep : _) × (fault ≡ TooDeep deep)
        × IsTooDeepIn (F.listed folder.now) depth path.now names.now (string_bytes deep))) }
    ensures failed { IfErr result (λ fault. fault ≡ Device → FolderMayFail F.may_fail) }
{
    let mut paths = Vec::new(alloc);
    for name in names {
        let mut front = at_name(alloc, folder, depth, path, name)?;
        paths.append(&mut front)?;
    }
    Ok(paths)
}

/// The class files at a name in a folder, where so many folders may lie in one another.
#[cycle(below)]
fn at_name<F: Folder>(
    alloc: Global,
    folder: &F,
    depth: u32,
    path: &str,
    name: &String,
) -> Result<Vec<String>, FilesFault>
    ensures files { IfOk result (λ paths.
        AreAt (F.listed folder.now) depth path.now name.now (map string_bytes paths.items)) }
    ensures faulty { IfErr result (λ fault. IsUnable fault
        ⊎ ((deep : _) × (fault ≡ TooDeep deep)
        × IsTooDeepAt (F.listed folder.now) depth path.now name.now (string_bytes deep))) }
    ensures failed { IfErr result (λ fault. fault ≡ Device → FolderMayFail F.may_fail) }
{
    let path = path_of(alloc, path, name.as_str())?;
    let found = names_at(alloc, folder, path.as_str())?;
    below(alloc, folder, depth, path.as_str(), found)
}

/// The names of what lies in the folder at a path, if there is one.
pub(crate) fn names_at<F: Folder>(
    alloc: Global,
    folder: &F,
    path: &str,
) -> Result<Option<Vec<String>>, FilesFault>
    ensures listed { IfOk result (λ names. IsListed (F.listed folder.now path.now) (option_map vec_items names)) }
    ensures unable { IfErr result IsUnable }
    ensures failed { IfErr result (λ fault. fault ≡ Device → FolderMayFail F.may_fail) }
{
    Ok(folder.names(alloc, path)?)
}

/// The path of a file, if it ends as those of class files do.
fn class_file(alloc: Global, path: &str) -> Result<Vec<String>, AllocError>
    ensures { IfOk result (λ paths. map string_bytes paths.items ≡ filter is_class_path (path.now ∷ [])) }
{
    let mut paths = Vec::new(alloc);
    if is_class_path(path) {
        paths.push(String::from_str(alloc, path)?)?;
    }
    Ok(paths)
}

/// Whether a path ends as those of class files do.
fn is_class_path(path: &str) -> bool
    ensures { result ≡ is_class_path path.now }
{
    path.as_bytes().ends_with(ENDING)
}

/// The path of a name in a folder.
fn path_of(alloc: Global, folder: &str, name: &str) -> Result<String, AllocError>
    ensures { IfOk result (λ path. string_bytes path ≡ in_folder folder.now name.now) }
{
    format!(in alloc; "{folder}/{name}")
}

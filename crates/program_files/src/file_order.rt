//! The order in which the files of a program are handed on: the class whose main is run comes first.

ghost use Rattle.std.specs.Prelude.{◌≡◌, ◌<◌, ◌++◌, ◌∷◌, [], IfErr, IfOk, OnOk, Some, filter, is_some, length, map, string_bytes, vec_items};
ghost use Rattle.std.specs.List.{list_any, position};
ghost use Rattle.std.specs.Option.{option_map};
ghost use Rattle.program_files.specs.Folders.{FolderMayFail};
ghost use Rattle.program_files.specs.Given.{IsUnable};
ghost use Rattle.program_files.specs.Handed.{AreHandedOn, BeginsWithFolder, IsMainFirst, IsNamedFirst, IsPutFirst, IsUnhanded, IsWithoutMain, IsWithoutNamed, has_main, is_named, is_other_main, main_names, slash_for, slashed};
ghost use Rattle.program_files.specs.declared.files_fault.FilesFault.TheVariants.{Device};

use crate::files_fault::FilesFault;
use crate::folder::Folder;
use crate::given_words::{given_paths, is_folder};
use crate::held_class::{HeldClass, held_classes};
use std::alloc::{AllocError, Global};

/// The files that words stand for, in the order in which they are handed on. That of the class which is named comes
/// first; where none is named and a folder is the first word, that of the one class which declares a main, if there
/// is one.
///
/// `NoClass` or `NoMain` where no class of the name is there, or the first one declares no main; `Mains` where several
/// classes declare one, and none is named.
pub fn handed_on<F: Folder>(
    alloc: Global,
    folder: &F,
    words: &[String],
    main: &Option<String>,
) -> Result<Vec<String>, FilesFault>
    ensures order { IfOk result (λ files.
        AreHandedOn (F.held folder.now) (F.listed folder.now) (option_map string_bytes main.now)
        (map string_bytes words.now) (map string_bytes files.items)) }
    ensures faulty { IfErr result
        (IsUnhanded (F.held folder.now) (F.listed folder.now) (option_map string_bytes main.now)
        (map string_bytes words.now)) }
    ensures failed { IfErr result (λ fault. fault ≡ Device → FolderMayFail F.may_fail) }
{
    let given = given_paths(alloc, folder, words)?;
    match main {
        Some(name) => named_first(alloc, folder, given, name.as_str()),
        None if begins_with_folder(alloc, folder, words)? => main_first(alloc, folder, given),
        None => Ok(given),
    }
}

/// Whether the first word is a folder.
fn begins_with_folder<F: Folder>(
    alloc: Global,
    folder: &F,
    words: &[String],
) -> Result<bool, FilesFault>
    ensures folder { IfOk result (BeginsWithFolder (F.listed folder.now) (map string_bytes words.now)) }
    ensures unable { IfErr result IsUnable }
    ensures failed { IfErr result (λ fault. fault ≡ Device → FolderMayFail F.may_fail) }
{
    match words.first() {
        Some(word) => is_folder(alloc, folder, word.as_str()),
        None => Ok(false),
    }
}

/// The files with that of a class of this name first.
fn named_first<F: Folder>(
    alloc: Global,
    folder: &F,
    given: Vec<String>,
    name: &str,
) -> Result<Vec<String>, FilesFault>
    ensures order { IfOk result (λ files. IsNamedFirst (F.held folder.now) name.now (map string_bytes given.items)
        (map string_bytes files.items)) }
    ensures faulty { IfErr result (IsWithoutNamed (F.held folder.now) name.now (map string_bytes given.items)) }
    ensures failed { IfErr result (λ fault. fault ≡ Device → FolderMayFail F.may_fail) }
{
    let classes = held_classes(alloc, folder, &given)?;
    let wanted = slashed(alloc, name)?;
    let Some(place) = place_of(&classes, wanted.as_slice()) else {
        return Err(FilesFault::NoClass(String::from_str(alloc, name)?));
    };
    if !has_main(&classes[place]) {
        return Err(FilesFault::NoMain(String::from_str(alloc, name)?));
    }
    Ok(put_first(given, place)?)
}

/// The files with that of the one class first which declares a main, if there is one.
fn main_first<F: Folder>(
    alloc: Global,
    folder: &F,
    given: Vec<String>,
) -> Result<Vec<String>, FilesFault>
    ensures order { IfOk result (λ files.
        IsMainFirst (F.held folder.now) (map string_bytes given.items) (map string_bytes files.items)) }
    ensures faulty { IfErr result (IsWithoutMain (F.held folder.now) (map string_bytes given.items)) }
    ensures failed { IfErr result (λ fault. fault ≡ Device → FolderMayFail F.may_fail) }
{
    let classes = held_classes(alloc, folder, &given)?;
    let Some(place) = main_place(&classes) else {
        return Ok(given);
    };
    if has_other_main(&classes, &classes[place]) {
        return Err(FilesFault::Mains(main_names(alloc, &classes)?));
    }
    Ok(put_first(given, place)?)
}

/// A name with slashes for its dots (JVMS 4.2.1).
fn slashed(alloc: Global, name: &str) -> Result<Vec<u8>, AllocError>
    ensures { IfOk result (λ bytes. bytes.items ≡ slashed name.now) }
{
    let mut bytes = Vec::new(alloc);
    for byte in name.as_bytes() {
        bytes.push(slash_for(*byte))?;
    }
    Ok(bytes)
}

/// A slash for a dot, and each other byte for itself.
fn slash_for(byte: u8) -> u8
    ensures { result ≡ slash_for byte }
{
    if byte == b'.' { b'/' } else { byte }
}

/// Which file holds the first class of this name.
fn place_of(classes: &[Option<HeldClass>], name: &[u8]) -> Option<usize>
    ensures { result ≡ position (is_named name.now) classes.now }
{
    classes.iter().position(|class| is_named(class, name))
}

/// Which file holds the first class that declares a main.
fn main_place(classes: &[Option<HeldClass>]) -> Option<usize>
    ensures { result ≡ position has_main classes.now }
{
    classes.iter().position(has_main)
}

/// Whether a file holds a class of this name.
fn is_named(class: &Option<HeldClass>, name: &[u8]) -> bool
    ensures { result ≡ is_named name.now class.now }
{
    match class {
        Some(class) => class.name.as_slice() == name,
        None => false,
    }
}

/// Whether a file holds a class that declares a main.
fn has_main(class: &Option<HeldClass>) -> bool
    ensures { result ≡ has_main class.now }
{
    match class {
        Some(class) => class.has_main,
        None => false,
    }
}

/// Whether classes of another name than the first one declare a main, too.
fn has_other_main(classes: &[Option<HeldClass>], first: &Option<HeldClass>) -> bool
    ensures { result ≡ list_any (is_other_main first.now) classes.now }
{
    classes.iter().any(|class| is_other_main(class, first))
}

/// Whether a file holds a class of another name than the first one, which declares a main.
fn is_other_main(class: &Option<HeldClass>, first: &Option<HeldClass>) -> bool
    ensures { result ≡ is_other_main first.now class.now }
{
    match (class, first) {
        (Some(class), Some(first)) => class.has_main && class.name != first.name,
        _ => false,
    }
}

/// The names of the classes that declare a main.
fn main_names(alloc: Global, classes: &[Option<HeldClass>]) -> Result<Vec<Vec<u8>>, AllocError>
    ensures { IfOk result (λ names. map vec_items names.items ≡ main_names classes.now) }
{
    let mut names = Vec::new(alloc);
    for class in classes {
        add_main(alloc, &mut names, class)?;
    }
    Ok(names)
}

/// Adds the name of the class that a file holds, if it declares a main.
fn add_main(
    alloc: Global,
    names: &mut Vec<Vec<u8>>,
    class: &Option<HeldClass>,
) -> Result<(), AllocError>
    ensures { OnOk result (map vec_items names.new.items
        ≡ map vec_items names.old.items ++ main_names (class.now ∷ [])) }
{
    let Some(class) = class else {
        return Ok(());
    };
    if !class.has_main {
        return Ok(());
    }
    let name = Vec::from_slice(alloc, class.name.as_slice())?;
    names.push(name)?;
    Ok(())
}

/// The files with that at a place first, and the others behind it, in their order.
fn put_first(files: Vec<String>, place: usize) -> Result<Vec<String>, AllocError>
    requires { place < length files.items }
    ensures { IfOk result (λ ordered.
        IsPutFirst place (map string_bytes files.items) (map string_bytes ordered.items)) }
{
    let mut files = files;
    let first = files.remove(place);
    files.insert(0, first)?;
    Ok(files)
}

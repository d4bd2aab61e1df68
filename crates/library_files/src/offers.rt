//! What a library offers to class files.

ghost use Rattle.std.specs.Prelude.{◌≡◌, IfOk, map, false, slice_index_or};
ghost use Rattle.std.specs.List.{list_any};
ghost use Rattle.model.specs.BuiltIn.{built_in_classes};
ghost use Rattle.model.specs.Classes.{Program, is_named};
ghost use Rattle.model.specs.Resolution.{is_missing};
ghost use Rattle.class_tree.specs.View.{file_of};
ghost use Rattle.library_files.specs.Adding.{library_file};
ghost use Rattle.library_files.specs.Completing.{own_classes};
ghost use Rattle.library_files.specs.Offers.{FindsOffered, has_name, library_place, offers_of};

use crate::library_class::LibraryClass;
use class_tree::builtin::built_in_classes;
use class_tree::{ClassFile, class_name};
use std::alloc::{AllocError, Global};

fn is_named(class: &ClassFile, name: &[u8]) -> bool
    ensures { result ≡ is_named name.now (file_of class.now) }
{
    class_name(class) == name
}

/// Whether one of some classes has a name.
fn is_declared(classes: &[ClassFile], name: &[u8]) -> bool
    ensures { result ≡ list_any (is_named name.now) (map file_of classes.now) }
{
    for class in classes {
        if is_named(class, name) {
            return true;
        }
    }
    false
}

/// Whether a class is neither among the built-in ones nor among those of class files.
fn is_missing(built_in: &[ClassFile], files: &[ClassFile], name: &[u8]) -> bool
    requires { map file_of built_in.now ≡ built_in_classes }
    ensures { result ≡ is_missing (map file_of files.now) name.now }
{
    if is_declared(built_in, name) {
        return false;
    }
    !is_declared(files, name)
}

/// For each class of a library whether no class of its name is there.
fn offers_beside(
    alloc: Global,
    built_in: &[ClassFile],
    files: &[ClassFile],
    library: &[LibraryClass<'_>],
) -> Result<Vec<bool>, AllocError>
    requires { map file_of built_in.now ≡ built_in_classes }
    ensures { IfOk result (λ offers.
        offers.items ≡ offers_of (map file_of files.now) (map library_file library.now)) }
{
    let mut offers = Vec::new(alloc);
    for class in library {
        offers.push(is_missing(built_in, files, class.name))?;
    }
    Ok(offers)
}

/// For each class of a library whether it is offered to class files: no class of its name is there.
pub(crate) fn offers(
    alloc: Global,
    files: &[ClassFile],
    library: &[LibraryClass<'_>],
) -> Result<Vec<bool>, AllocError>
    ensures { IfOk result (λ offers.
        offers.items ≡ offers_of (map file_of files.now) (map library_file library.now)) }
{
    let built_in = built_in_classes(alloc)?;
    offers_beside(alloc, &built_in, files, library)
}

fn has_name(class: &LibraryClass<'_>, name: &[u8]) -> bool
    ensures { result ≡ has_name name.now (library_file class.now) }
{
    class.name == name
}

/// The place in a library of the class of a name.
fn place_of(library: &[LibraryClass<'_>], name: &[u8]) -> Option<usize>
    ensures { result ≡ library_place (map library_file library.now) name.now }
{
    for (place, class) in library.iter().enumerate() {
        if has_name(class, name) {
            return Some(place);
        }
    }
    None
}

/// Whether the class at a place is offered.
fn is_offered(offers: &[bool], place: usize) -> bool
    ensures { result ≡ slice_index_or offers.now place false }
{
    offers.get(place).copied().unwrap_or(false)
}

/// The place of the class of a name, if it is offered.
pub(crate) fn offered_place(
    library: &[LibraryClass<'_>],
    offers: &[bool],
    name: &[u8],
) -> Option<usize>
    ensures { (files : Program) → offers.now ≡ offers_of files (map library_file library.now)
        → FindsOffered (map library_file library.now) files name.now result }
{
    let Some(place) = place_of(library, name) else {
        return None;
    };
    if is_offered(offers, place) {
        return Some(place);
    }
    None
}

/// The classes of a library in whose place class files have their own: those of the same names.
pub(crate) fn own_classes<'a>(
    alloc: Global,
    files: &[ClassFile],
    library: &[LibraryClass<'a>],
) -> Result<Vec<LibraryClass<'a>>, AllocError>
    ensures { IfOk result (λ own.
        map library_file own.items ≡ own_classes (map file_of files.now) (map library_file library.now)) }
{
    let mut own = Vec::new(alloc);
    for class in library {
        if is_declared(files, class.name) {
            own.push(*class)?;
        }
    }
    Ok(own)
}

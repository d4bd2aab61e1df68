//! Which classes of a library are added.

ghost use Rattle.std.specs.Prelude.{◌≡◌, ◌∷◌, [], false, IfOk, OnOk, map, slice_get};
ghost use Rattle.std.specs.List.{flat_map};
ghost use Rattle.model.specs.Classes.{Program};
ghost use Rattle.model.specs.Linkable.{Unresolved, stands};
ghost use Rattle.class_tree.specs.View.{file_of};
ghost use Rattle.library_files.specs.Names.{named};
ghost use Rattle.library_files.specs.Needs.{needed_classes};
ghost use Rattle.library_files.specs.Adding.{AreAdded, kept_at, library_file};
ghost use Rattle.library_files.specs.Offers.{AddsPlace, AddsPlaces, AddsPlacesOf, AddsPlacesAt, AddsInTurn, AreAddedPlaces, is_among, offers_of};

use crate::library_class::LibraryClass;
use crate::names::needed_names;
use crate::offers::{offered_place, offers};
use class_tree::ClassFile;
use classfile::decode;
use constant_pool::reading::Cause;
use std::alloc::{AllocError, Global};

/// Whether a place is there.
fn is_among(places: &[usize], place: usize) -> bool
    ensures { result ≡ is_among places.now place }
{
    for other in places {
        if place == *other {
            return true;
        }
    }
    false
}

/// Adds a place, unless it is there.
fn add_place(places: &mut Vec<usize>, place: usize) -> Result<(), AllocError>
    ensures { OnOk result (AddsPlace places.old.items places.new.items place) }
{
    if is_among(places, place) {
        return Ok(());
    }
    places.push(place)?;
    Ok(())
}

/// Adds the place of the class of a name, if it is offered.
fn add_name(
    library: &[LibraryClass<'_>],
    offers: &[bool],
    places: &mut Vec<usize>,
    name: &[u8],
) -> Result<(), AllocError>
    ensures { OnOk result ((files : Program) → offers.now ≡ offers_of files (map library_file library.now)
        → AddsPlaces (map library_file library.now) files places.old.items places.new.items (name.now ∷ [])) }
{
    match offered_place(library, offers, name) {
        Some(place) => add_place(places, place),
        None => Ok(()),
    }
}

/// Adds the places of the classes that are offered under names.
fn add_names(
    library: &[LibraryClass<'_>],
    offers: &[bool],
    places: &mut Vec<usize>,
    names: &[&[u8]],
) -> Result<(), AllocError>
    ensures { OnOk result ((files : Program) → offers.now ≡ offers_of files (map library_file library.now)
        → AddsPlaces (map library_file library.now) files places.old.items places.new.items (named names.now)) }
{
    for name in names {
        add_name(library, offers, places, name)?;
    }
    Ok(())
}

/// Adds the places of the classes that a class file needs.
fn add_needed(
    alloc: Global,
    library: &[LibraryClass<'_>],
    offers: &[bool],
    places: &mut Vec<usize>,
    file: &ClassFile,
) -> Result<(), AllocError>
    ensures { OnOk result ((files : Program) → offers.now ≡ offers_of files (map library_file library.now)
        → AddsPlaces (map library_file library.now) files places.old.items places.new.items
        (needed_classes (file_of file.now))) }
{
    let names = needed_names(alloc, file)?;
    add_names(library, offers, places, &names)
}

/// Adds the places of the classes that class files need.
fn add_all_needed(
    alloc: Global,
    library: &[LibraryClass<'_>],
    offers: &[bool],
    places: &mut Vec<usize>,
    files: &[ClassFile],
) -> Result<(), AllocError>
    ensures { OnOk result ((program : Program) → offers.now ≡ offers_of program (map library_file library.now)
        → AddsPlaces (map library_file library.now) program places.old.items places.new.items
        (flat_map needed_classes (map file_of files.now))) }
{
    for file in files {
        add_needed(alloc, library, offers, places, file)?;
    }
    Ok(())
}

/// Adds the places of the classes that a class file needs which may be none.
fn add_needed_by(
    alloc: Global,
    library: &[LibraryClass<'_>],
    offers: &[bool],
    places: &mut Vec<usize>,
    bytes: &[u8],
) -> Result<(), AllocError>
    ensures { OnOk result ((files : Program) → offers.now ≡ offers_of files (map library_file library.now)
        → AddsPlacesOf (map library_file library.now) files places.old.items places.new.items bytes.now) }
{
    match decode(alloc, bytes) {
        Ok(file) => add_needed(alloc, library, offers, places, &file),
        Err(malformed) => match malformed.cause {
            Cause::OutOfMemory => Err(AllocError),
            _ => Ok(()),
        },
    }
}

/// Adds the places of the classes that the class at a place needs.
fn add_needed_at(
    alloc: Global,
    library: &[LibraryClass<'_>],
    offers: &[bool],
    places: &mut Vec<usize>,
    place: usize,
) -> Result<(), AllocError>
    ensures { OnOk result ((files : Program) → offers.now ≡ offers_of files (map library_file library.now)
        → AddsPlacesAt (map library_file library.now) files places.old.items places.new.items place) }
{
    match library.get(place) {
        Some(class) => add_needed_by(alloc, library, offers, places, class.bytes),
        None => Ok(()),
    }
}

fn place_at(places: &[usize], turn: usize) -> Option<usize>
    ensures { result ≡ slice_get places.now turn }
{
    places.get(turn).copied()
}

/// Adds the places of the classes that those need which are there, and so on.
fn add_in_turn(
    alloc: Global,
    library: &[LibraryClass<'_>],
    offers: &[bool],
    places: &mut Vec<usize>,
) -> Result<(), AllocError>
    ensures { OnOk result ((files : Program) → offers.now ≡ offers_of files (map library_file library.now)
        → AreAddedPlaces (map library_file library.now) files places.old.items
        → AddsInTurn (map library_file library.now) files places.old.items places.new.items) }
{
    for turn in 0..usize::MAX {
        let Some(place) = place_at(places, turn) else {
            return Ok(());
        };
        add_needed_at(alloc, library, offers, places, place)?;
    }
    Ok(())
}

/// The classes at these places, in the order of the library.
fn classes_at<'a>(
    alloc: Global,
    library: &[LibraryClass<'a>],
    places: &[usize],
) -> Result<Vec<LibraryClass<'a>>, AllocError>
    ensures { IfOk result (λ classes. map library_file classes.items
        ≡ kept_at (is_among places.now) 0 (map library_file library.now)) }
{
    let mut classes = Vec::new(alloc);
    for (place, class) in library.iter().enumerate() {
        if is_among(places, place) {
            classes.push(*class)?;
        }
    }
    Ok(classes)
}

/// The classes of a library that are added to class files: those that linking would else find missing as a superclass
/// or a superinterface, as a catch type, in the descriptor of what is declared, as an operand or in its descriptor;
/// and those that they need in turn. They come in the order of the library. Where the files or the built-in classes
/// have a class of the name, none is added. `AllocError` for want of memory.
pub fn added_classes<'a>(
    alloc: Global,
    files: &[ClassFile],
    library: &[LibraryClass<'a>],
) -> Result<Vec<LibraryClass<'a>>, AllocError>
    ensures added { IfOk result (λ added.
        AreAdded (map library_file library.now) (map file_of files.now) (map library_file added.items)) }
    // Where all names are found nothing is added.
    ensures none { stands (map file_of files.now) Unresolved ≡ false → IfOk result (λ added. added.items ≡ []) }
{
    let offers = offers(alloc, files, library)?;
    let mut places = Vec::new(alloc);
    add_all_needed(alloc, library, &offers, &mut places, files)?;
    add_in_turn(alloc, library, &offers, &mut places)?;
    classes_at(alloc, library, &places)
}

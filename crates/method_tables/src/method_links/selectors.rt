//! Names and descriptors by numbers, so that they are compared without their texts.

ghost use Rattle.std.specs.Prelude.{◌≡◌, ◌<◌, ◌+◌, List, ℕ, [], length, map, option_map, slice_index_or, IfOk};
ghost use Rattle.classfile.specs.View.{file_of, method_of};
ghost use Rattle.constant_pool.specs.Texts.{first_place, HasPlaces};
ghost use Rattle.method_tables.specs.method_links.Methods.{member_of, member_at};
ghost use Rattle.method_tables.specs.method_links.Numbers.{AreNumbersOf};
ghost use Rattle.method_tables.specs.method_links.Selected.{part_of, parts_of, firsts_of};

use crate::method_links::numbers::MethodNumbers;
use classfile::{ClassFile, Method};
use hierarchy::{ClassSet, MemberPlace};
use std::alloc::{AllocError, Global};
use std::collections::BTreeMap;

/// Which text of a method.
#[derive(Clone, Copy)]
pub(crate) enum Part {
    Name,
    Descriptor,
}

/// The name of a method, or its descriptor.
fn text_of<'a>(file: &'a ClassFile, method: &'a Method, part: Part) -> &'a [u8]
    ensures { result.now ≡ part_of part (member_of (file_of file.now) (method_of method.now)) }
{
    match part {
        Part::Name => file.pool.text(method.name),
        Part::Descriptor => file.pool.text(method.descriptor),
    }
}

/// The name of the method at a place, or its descriptor.
fn text_at(set: &ClassSet, place: MemberPlace, part: Part) -> Option<&[u8]>
    ensures { option_map (λ t. t.now) result ≡ option_map (part_of part) (member_at set.now place) }
{
    let Some(file) = set.class_at(place.class) else {
        return None;
    };
    match file.methods.get(place.member) {
        Some(method) => Some(text_of(file, method, part)),
        None => None,
    }
}

/// The names of all methods, or their descriptors, by the methods' numbers.
fn texts_of<'a>(
    alloc: Global,
    set: &'a ClassSet,
    numbers: &'a MethodNumbers,
    part: Part,
) -> Result<Vec<&'a [u8]>, AllocError>
    requires { AreNumbersOf set.now numbers.now }
    ensures { IfOk result (λ texts. map (λ t. t.now) texts.items ≡ parts_of part set.now) }
{
    let mut texts = Vec::new(alloc);
    for number in 0..numbers.count() {
        let Some(place) = numbers.place(number) else {
            return Ok(texts);
        };
        let Some(text) = text_at(set, place, part) else {
            return Ok(texts);
        };
        texts.push(text)?;
    }
    Ok(texts)
}

/// The first place of the text that stands at the place `here`. What stands before it is in the map.
fn first_of<'a>(
    seen: &mut BTreeMap<&'a [u8], usize>,
    text: &'a [u8],
    here: usize,
) -> Result<usize, AllocError>
    ensures { (all : List (List ℕ)) → here < length all → slice_index_or all here [] ≡ text.now
        → HasPlaces all here seen.old
        → IfOk result (λ place. (place ≡ first_place all text.now) × HasPlaces all (here + 1) seen.new) }
{
    match seen.get(text).copied() {
        Some(place) => Ok(place),
        None => {
            seen.insert(text, here)?;
            Ok(here)
        }
    }
}

/// For each text the place of the first that is the same. Compares each with as many others as a search in a sorted
/// list needs.
fn places_of_firsts<'a>(alloc: Global, texts: &'a [&'a [u8]]) -> Result<Vec<usize>, AllocError>
    ensures { IfOk result (λ firsts. firsts.items ≡ firsts_of (map (λ t. t.now) texts.now)) }
{
    let mut seen = BTreeMap::new(alloc);
    let mut firsts = Vec::new(alloc);
    for (here, text) in texts.iter().enumerate() {
        firsts.push(first_of(&mut seen, text, here)?)?;
    }
    Ok(firsts)
}

/// For each method, by its number, the number of the first that has the same name, or the same descriptor.
pub(crate) fn first_numbers(
    alloc: Global,
    set: &ClassSet,
    numbers: &MethodNumbers,
    part: Part,
) -> Result<Vec<usize>, AllocError>
    requires { AreNumbersOf set.now numbers.now }
    ensures { IfOk result (λ firsts. firsts.items ≡ firsts_of (parts_of part set.now)) }
{
    let texts = texts_of(alloc, set, numbers, part)?;
    places_of_firsts(alloc, &texts)
}

//! A search for the classes of a set that are above themselves. It only spares time: nothing is proved of what it
//! finds, and what rests on that is checked.

use crate::order::{is_first_visit, supertypes_first};
use crate::set::ClassSet;
use class_tree::superclass_name;
use std::alloc::{AllocError, Global};

/// Writes down that a class stands directly below the class of a name.
fn add_below(
    set: &ClassSet,
    below: &mut [Vec<usize>],
    name: Option<&[u8]>,
    place: usize,
) -> Result<(), AllocError> {
    let Some(name) = name else {
        return Ok(());
    };
    let Some(above) = set.place_of(name) else {
        return Ok(());
    };
    if let Some(places) = below.get_mut(above) {
        places.push(place)?;
    }
    Ok(())
}

/// For each class the places of those directly below it.
pub(crate) fn classes_below(alloc: Global, set: &ClassSet) -> Result<Vec<Vec<usize>>, AllocError> {
    let mut below = Vec::new(alloc);
    for _place in 0..set.count() {
        below.push(Vec::new(alloc))?;
    }
    for place in 0..set.count() {
        let Some(file) = set.class_at(place) else {
            return Ok(below);
        };
        add_below(set, &mut below, superclass_name(file), place)?;
        for index in &file.interfaces {
            add_below(set, &mut below, file.class_name(*index), place)?;
        }
    }
    Ok(below)
}

/// Comes from a class to those directly below it, where they weren't come to.
fn come_down(
    places: &[usize],
    above: usize,
    entered: &mut [bool],
    ways: &mut [usize],
    found: &mut Vec<usize>,
) -> Result<(), AllocError> {
    for place in places {
        if is_first_visit(entered, *place) {
            found.push(*place)?;
            if let Some(way) = ways.get_mut(*place) {
                *way = above;
            }
        }
    }
    Ok(())
}

/// A class and all below it that weren't come to; it is come to itself where it is below itself. In `ways` stands for
/// each the class above it from which it was come to.
fn come_to_all_below(
    alloc: Global,
    below: &[Vec<usize>],
    place: usize,
    entered: &mut [bool],
    ways: &mut [usize],
) -> Result<Vec<usize>, AllocError> {
    let mut found = Vec::new(alloc);
    found.push(place)?;
    for next in 0..=below.len() {
        let above = match found.get(next) {
            Some(above) => *above,
            None => return Ok(found),
        };
        if let Some(places) = below.get(above) {
            come_down(places, above, entered, ways, &mut found)?;
        }
    }
    Ok(found)
}

/// Whether the class at a place was come to.
fn is_entered(entered: &[bool], place: usize) -> bool {
    match entered.get(place) {
        Some(mark) => *mark,
        None => false,
    }
}

fn set_all(ranks: &mut [usize], places: &[usize], rank: usize) {
    for place in places {
        if let Some(old) = ranks.get_mut(*place) {
            *old = rank;
        }
    }
}

/// A rank for each class, counted from 1, by those below each: classes that are above each other have the same, and
/// else what is above a class has a smaller one. Classes go with those that are both above and below them: they are
/// found from the lowest on, which the order has last.
pub(crate) fn ranks_with_cycles(
    alloc: Global,
    set: &ClassSet,
    below: &[Vec<usize>],
) -> Result<Vec<usize>, AllocError> {
    let order = supertypes_first(alloc, set)?;
    let mut ranks = Vec::new(alloc);
    ranks.resize(below.len(), 0)?;
    let mut entered = Vec::new(alloc);
    entered.resize(below.len(), false)?;
    let mut ways = Vec::new(alloc);
    ways.resize(below.len(), 0)?;
    let mut rank = below.len();
    for place in order.iter().rev() {
        if !is_entered(&entered, *place) {
            let found = come_to_all_below(alloc, below, *place, &mut entered, &mut ways)?;
            let _is_alone = is_first_visit(&mut entered, *place);
            set_all(&mut ranks, &found, rank);
            rank = rank.saturating_sub(1);
        }
    }
    Ok(ranks)
}

/// For each class below a class the place of one directly above it, on a way up to that class.
pub(crate) fn ways_up(
    alloc: Global,
    below: &[Vec<usize>],
    place: usize,
) -> Result<Vec<usize>, AllocError> {
    let mut entered = Vec::new(alloc);
    entered.resize(below.len(), false)?;
    let mut ways = Vec::new(alloc);
    ways.resize(below.len(), 0)?;
    let _found = come_to_all_below(alloc, below, place, &mut entered, &mut ways)?;
    Ok(ways)
}

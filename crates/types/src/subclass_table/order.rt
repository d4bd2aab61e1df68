//! An order of the classes of a set, in which each comes after those directly above it. It only spares time: nothing is
//! proved of it, and what rests on it is looked at.

use classfile::{ClassFile, superclass_name};
use hierarchy::ClassSet;
use std::alloc::{AllocError, Global};

/// Whether a place wasn't marked. From now on it is.
fn is_first(marks: &mut [bool], place: usize) -> bool {
    match marks.get_mut(place) {
        Some(mark) => {
            let is_first = !*mark;
            *mark = true;
            is_first
        }
        None => false,
    }
}

/// Leaves the class of a name to be come to.
fn push_named(
    set: &ClassSet,
    places: &mut Vec<usize>,
    name: Option<&[u8]>,
) -> Result<(), AllocError> {
    let Some(name) = name else {
        return Ok(());
    };
    let Some(place) = set.place_of(name) else {
        return Ok(());
    };
    places.push(place)?;
    Ok(())
}

/// Leaves the classes directly above one to be come to.
fn push_above(set: &ClassSet, places: &mut Vec<usize>, file: &ClassFile) -> Result<(), AllocError> {
    push_named(set, places, superclass_name(file))?;
    for index in &file.interfaces {
        push_named(set, places, file.class_name(*index))?;
    }
    Ok(())
}

/// Comes to the class at a place.
fn enter(set: &ClassSet, places: &mut Vec<usize>, place: usize) -> Result<(), AllocError> {
    match set.class_at(place) {
        Some(file) => push_above(set, places, file),
        None => Ok(()),
    }
}

/// The places of all classes, each after those of the classes directly above it, where no class is above itself.
pub(crate) fn supertypes_first(alloc: Global, set: &ClassSet) -> Result<Vec<usize>, AllocError> {
    let mut entered = Vec::new(alloc);
    entered.resize(set.count(), false)?;
    let mut ordered = Vec::new(alloc);
    ordered.resize(set.count(), false)?;
    let mut places = Vec::new(alloc);
    for place in 0..set.count() {
        places.push(place)?;
    }
    let mut order = Vec::new(alloc);
    for _step in 0..u64::MAX {
        let Some(place) = places.last().copied() else {
            return Ok(order);
        };
        if is_first(&mut entered, place) {
            enter(set, &mut places, place)?;
        } else {
            let _last = places.pop();
            if is_first(&mut ordered, place) {
                order.push(place)?;
            }
        }
    }
    Ok(order)
}

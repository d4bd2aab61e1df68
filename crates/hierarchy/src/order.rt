//! An order of the classes of a set, in which each class comes after those above it.

use crate::set::ClassSet;
use class_tree::superclass_name;
use std::alloc::{AllocError, Global};

/// What is still to be done on the way through the classes.
#[derive(Clone, Copy)]
enum Step {
    /// To come to the class at a place, unless it was come to.
    Enter(usize),
    /// To write down the place of a class: what is above it stands there.
    Leave(usize),
}

/// Whether the class at a place wasn't come to before. From now on it was.
pub(crate) fn is_first_visit(entered: &mut [bool], place: usize) -> bool {
    match entered.get_mut(place) {
        Some(mark) => {
            let is_first = !*mark;
            *mark = true;
            is_first
        }
        None => false,
    }
}

/// Leaves it to be done that the class of a name is come to.
fn enter_named(
    set: &ClassSet,
    steps: &mut Vec<Step>,
    name: Option<&[u8]>,
) -> Result<(), AllocError> {
    let Some(name) = name else {
        return Ok(());
    };
    let Some(place) = set.place_of(name) else {
        return Ok(());
    };
    steps.push(Step::Enter(place))?;
    Ok(())
}

/// Comes to the class at a place. What is directly above it is to be come to first.
fn enter(set: &ClassSet, steps: &mut Vec<Step>, place: usize) -> Result<(), AllocError> {
    let Some(file) = set.class_at(place) else {
        return Ok(());
    };
    steps.push(Step::Leave(place))?;
    enter_named(set, steps, superclass_name(file))?;
    for index in &file.interfaces {
        enter_named(set, steps, file.class_name(*index))?;
    }
    Ok(())
}

/// A step for each class: to come to it.
fn first_steps(alloc: Global, set: &ClassSet) -> Result<Vec<Step>, AllocError> {
    let mut steps = Vec::new(alloc);
    for place in 0..set.count() {
        steps.push(Step::Enter(place))?;
    }
    Ok(steps)
}

/// The places of the classes, each after those of the classes above it, where no class is above itself. The order
/// only spares time: nothing is proved of it, and what rests on it is checked.
pub(crate) fn supertypes_first(alloc: Global, set: &ClassSet) -> Result<Vec<usize>, AllocError> {
    let mut entered = Vec::new(alloc);
    entered.resize(set.count(), false)?;
    let mut steps = first_steps(alloc, set)?;
    let mut order = Vec::new(alloc);
    for _step in 0..u64::MAX {
        match steps.pop() {
            Some(Step::Enter(place)) => {
                if is_first_visit(&mut entered, place) {
                    enter(set, &mut steps, place)?;
                }
            }
            Some(Step::Leave(place)) => order.push(place)?,
            None => return Ok(order),
        }
    }
    Ok(order)
}

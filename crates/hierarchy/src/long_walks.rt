//! How many names look-ups pass on walks along superclasses. That only spares time: nothing is proved of it.

use crate::row::Row;
use crate::rows::row_of;
use crate::set::ClassSet;
use class_tree::{ClassFile, class_name, superclass_name};
use std::alloc::{AllocError, Global};

/// How many names a walk from the superclass of a class passes.
fn passed_above(set: &ClassSet, passed: &[usize], file: &ClassFile) -> usize {
    let Some(name) = superclass_name(file) else {
        return 0;
    };
    let Some(place) = set.place_of(name) else {
        return 0;
    };
    match passed.get(place) {
        Some(names) => *names,
        None => 0,
    }
}

/// How many names a walk from a class passes: the class, its superclasses, and the rows of superinterfaces of all
/// these.
fn passed_from(set: &ClassSet, interfaces: &[Row], passed: &[usize], file: &ClassFile) -> usize {
    let near = match row_of(set, interfaces, class_name(file)) {
        Some(row) => row.count(),
        None => 0,
    };
    passed_above(set, passed, file)
        .saturating_add(near)
        .saturating_add(1)
}

/// Whether a walk from some class passes far more names than there are classes.
pub(crate) fn a_walk_is_long(
    alloc: Global,
    set: &ClassSet,
    order: &[usize],
    interfaces: &[Row],
) -> Result<bool, AllocError> {
    let few = set.count().saturating_mul(4).saturating_add(1000);
    let mut passed = Vec::new(alloc);
    passed.resize(set.count(), 0)?;
    for place in order {
        let Some(file) = set.class_at(*place) else {
            return Ok(false);
        };
        let names = passed_from(set, interfaces, &passed, file);
        if few < names {
            return Ok(true);
        }
        if let Some(from) = passed.get_mut(*place) {
            *from = names;
        }
    }
    Ok(false)
}

//! How many cells classes and their superclasses have, so many steps up from each class.

ghost use Rattle.std.specs.Prelude.{◌≡◌, ◌+◌, ◌<◌, ℕ, length, map, IfOk};
ghost use Rattle.model.specs.Classes.{Program, classes_of};
ghost use Rattle.link_conditions.specs.limits_of_linking.Climbing.{climb, climbs, onward};

use crate::limits_of_linking::cells::own_cells;
use classfile::class_name;
use hierarchy::ClassSet;
use std::alloc::{AllocError, Global};

/// One more cell than a class may have. What is more is counted as this.
const TOO_MANY: usize = 65_536;

/// Some steps up from a class: where they lead, and how many instance fields that count as cells the classes declare
/// that they leave.
#[derive(Clone, Copy)]
pub(crate) struct Climb {
    pub next: Option<usize>,
    pub cells: usize,
}

/// One step up from the class of a name.
fn one_step(set: &ClassSet, class: &[u8]) -> Climb
    ensures { result ≡ climb set.now 1 class.now }
{
    let Some(file) = set.class_of(class) else {
        return Climb {
            next: None,
            cells: 0,
        };
    };
    let cells = own_cells(file).min(TOO_MANY);
    match set.superclass_of(class) {
        Some(superclass) => Climb {
            next: set.place_of(superclass),
            cells,
        },
        None => Climb { next: None, cells },
    }
}

/// One step up from each class.
fn one_step_each(alloc: Global, set: &ClassSet) -> Result<Vec<Climb>, AllocError>
    ensures { IfOk result (λ rows. rows.items ≡ climbs set.now 1) }
{
    let mut rows = Vec::new(alloc);
    for place in 0..set.count() {
        let Some(class) = set.class_at(place) else {
            return Ok(rows);
        };
        rows.push(one_step(set, class_name(class)))?;
    }
    Ok(rows)
}

/// Some steps up, and from there on as the rows say.
fn onward(climb: Climb, rows: &[Climb]) -> Climb
    ensures { result ≡ onward rows.now climb }
{
    let Some(next) = climb.next else {
        return climb;
    };
    let Some(above) = rows.get(next) else {
        return climb;
    };
    Climb {
        next: above.next,
        cells: climb.cells.saturating_add(above.cells).min(TOO_MANY),
    }
}

/// From each class as many steps up as the first and the second rows tell together.
fn both(alloc: Global, first: &[Climb], second: &[Climb]) -> Result<Vec<Climb>, AllocError>
    ensures { IfOk result (λ rows. rows.items ≡ map (onward second.now) first.now) }
{
    let mut rows = Vec::new(alloc);
    for climb in first {
        rows.push(onward(*climb, second))?;
    }
    Ok(rows)
}

/// From each class so many steps up, by the rows of one step: half of them twice, and one more where they are odd.
fn steps_each(alloc: Global, one: &[Climb], steps: usize) -> Result<Vec<Climb>, AllocError>
    requires { 0 < steps }
    ensures { (files : Program) → one.now ≡ climbs files 1 → IfOk result (λ rows. rows.items ≡ climbs files steps) }
{
    if steps == 1 {
        return Vec::from_slice(alloc, one);
    }
    let half = steps_each(alloc, one, steps / 2)?;
    let even = both(alloc, &half, &half)?;
    if steps % 2 == 0 {
        return Ok(even);
    }
    both(alloc, &even, one)
}

/// For each class how many cells it has, with those of its superclasses, or one more than are allowed.
pub(crate) fn climb_all(alloc: Global, set: &ClassSet) -> Result<Vec<Climb>, AllocError>
    ensures { IfOk result (λ rows. rows.items ≡ climbs set.now (length (classes_of set.now))) }
{
    let one = one_step_each(alloc, set)?;
    steps_each(alloc, &one, set.count())
}

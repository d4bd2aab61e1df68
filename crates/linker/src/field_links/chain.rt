//! Classes with their superclasses, and sums up the chains of these.

ghost use Rattle.std.specs.Prelude.{◌≡◌, ◌<◌, ◌^◌, length, slice_get, IfOk};
ghost use Rattle.classfile.specs.View.{file_of};
ghost use Rattle.linker.specs.field_links.Chains.{own_count, shape_of, shapes, chain_sum};

use crate::field_links::count::instance_count;
use classfile::ClassFile;
use hierarchy::ClassSet;
use link_conditions::limits_of_linking::own_cells;
use std::alloc::{AllocError, Global};

/// Which instance fields are counted.
#[derive(Clone, Copy)]
pub(crate) enum Counted {
    Fields,
    /// Those that count for the limit on cells.
    Cells,
}

/// The superclass of a class by its place, and how many instance fields the class itself declares.
#[derive(Clone, Copy)]
pub(crate) struct Shape {
    pub superclass: Option<usize>,
    pub fields: usize,
}

fn own_count(file: &ClassFile, counted: Counted) -> usize
    ensures { result ≡ own_count counted (file_of file.now) }
{
    match counted {
        Counted::Fields => instance_count(&file.fields),
        Counted::Cells => own_cells(file),
    }
}

fn shape_of(set: &ClassSet, file: &ClassFile, counted: Counted) -> Shape
    ensures { result ≡ shape_of counted set.now (file_of file.now) }
{
    let fields = own_count(file, counted);
    let superclass = match file.class_name(file.super_class) {
        Some(name) => set.place_of(name),
        None => None,
    };
    Shape { superclass, fields }
}

/// The shape of each class.
pub(crate) fn shapes(
    alloc: Global,
    set: &ClassSet,
    counted: Counted,
) -> Result<Vec<Shape>, AllocError>
    ensures { IfOk result (λ rows. rows.items ≡ shapes counted set.now) }
{
    let mut rows = Vec::new(alloc);
    for place in 0..set.count() {
        let Some(class) = set.class_at(place) else {
            return Ok(rows);
        };
        rows.push(shape_of(set, class, counted))?;
    }
    Ok(rows)
}

/// The shape of the class at a place.
fn shape_at(shapes: &[Shape], place: usize) -> Option<Shape>
    ensures { result ≡ slice_get shapes.now place }
{
    shapes.get(place).copied()
}

/// How many instance fields the class at a place and those above it declare together.
pub(crate) fn chain_sum(shapes: &[Shape], place: usize) -> usize
    ensures { chain_sum shapes.now (length shapes.now) place < 2 ^ 64
        → result ≡ chain_sum shapes.now (length shapes.now) place }
{
    let mut sum = 0usize;
    let mut place = place;
    for _step in 0..shapes.len() {
        let Some(shape) = shape_at(shapes, place) else {
            return sum;
        };
        sum = sum.saturating_add(shape.fields);
        let Some(superclass) = shape.superclass else {
            return sum;
        };
        place = superclass;
    }
    sum
}

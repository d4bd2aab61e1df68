//! The points of a place: by the number of a method, and an offset of its code.

ghost use Rattle.std.specs.Prelude.{◌≡◌, ◌++◌, IfOk, OnOk};
ghost use Rattle.std.specs.List.{list_any};
ghost use Rattle.model.specs.Names.{Member};
ghost use Rattle.linked_code.specs.Numbers.{IsMethodAt, methods_of};
ghost use Rattle.method_tables.specs.method_links.Numbers.{AreNumbersOf};
ghost use Rattle.types.specs.method_code.View.{body_of, member_of};
ghost use Rattle.place_texts.specs.Places.{place_of};
ghost use Rattle.code_places.specs.Points.{all_points, describes as descriptor_fits, has_code, names as is_named};
ghost use Rattle.code_places.specs.Points.{offsets_at, offsets_in, offsets_of, points_at};
ghost use Rattle.code_places.specs.Methods.{IsMethodOf};

use crate::lines::add_line;
use classfile::Code;
use linker::Linked;
use method_tables::method_links::MethodNumbers;
use opcodes::starts;
use place_texts::{Place, Position};
use std::alloc::{AllocError, Global};
use types::method_code::MethodCode;

/// An offset of the code of a method, by the method's number.
#[derive(Clone, Copy, Debug)]
pub struct Point {
    pub method: u32,
    pub offset: u16,
}

/// Whether a method has the descriptor, if one is told.
fn describes(place: &Place, descriptor: &[u8]) -> bool
    ensures { result ≡ descriptor_fits (place_of place.now) descriptor.now }
{
    match &place.descriptor {
        Some(wanted) => descriptor == wanted.as_slice(),
        None => true,
    }
}

/// Whether a place is one of a method.
fn is_of(place: &Place, method: &MethodCode<'_>) -> bool
    ensures { result ≡ is_named (place_of place.now) (member_of method.now) }
{
    let class = method.set().name_at(method.class());
    class == place.class.as_slice()
        && method.name() == place.method.as_slice()
        && describes(place, method.descriptor())
}

/// The method of a number, if it has code.
pub fn method_of<'a>(
    linked: &'a Linked,
    numbers: &MethodNumbers,
    number: usize,
) -> Option<MethodCode<'a>>
    requires { AreNumbersOf linked.now numbers.now }
    ensures { IsMethodOf linked.now number result }
{
    let Some(found) = numbers.place(number) else {
        return None;
    };
    MethodCode::new(linked.hierarchy(), found.class, found.member)
}

/// Adds the points of a method at a position.
fn add_points(
    alloc: Global,
    points: &mut Vec<Point>,
    number: u32,
    method: &MethodCode<'_>,
    position: Position,
) -> Result<(), AllocError>
    ensures { OnOk result (points.new.items ≡ points.old.items
        ++ points_at number (offsets_at position (body_of method.now))) }
{
    let code: &Code = method.code();
    let starts = starts(alloc, &code.code)?;
    match position {
        Position::Line(line) => add_line(
            points,
            number,
            method.file(),
            code,
            line,
            starts.as_slice(),
        ),
        Position::Offset(offset) => {
            if starts.get(usize::from(offset)).copied().unwrap_or(false) {
                points.push(Point {
                    method: number,
                    offset,
                })?;
            }
            Ok(())
        }
    }
}

/// Adds the points of a method, where the place is one of it.
fn add_named(
    alloc: Global,
    points: &mut Vec<Point>,
    number: u32,
    method: &MethodCode<'_>,
    place: &Place,
) -> Result<(), AllocError>
    ensures { OnOk result (points.new.items ≡ points.old.items
        ++ points_at number (offsets_in (place_of place.now) (member_of method.now) (body_of method.now))) }
{
    if !is_of(place, method) {
        return Ok(());
    }
    add_points(alloc, points, number, method, place.position)
}

/// Adds the points of the method of a number, where the place is one of it.
fn add_method(
    alloc: Global,
    points: &mut Vec<Point>,
    linked: &Linked,
    numbers: &MethodNumbers,
    number: u32,
    place: &Place,
) -> Result<(), AllocError>
    requires { AreNumbersOf linked.now numbers.now }
    ensures { (method : Member) → IsMethodAt linked.now number method
        → OnOk result (points.new.items ≡ points.old.items
        ++ points_at number (offsets_of linked.now (place_of place.now) method)) }
{
    match method_of(linked, numbers, number as usize) {
        Some(method) => add_named(alloc, points, number, &method, place),
        None => Ok(()),
    }
}

/// Whether a place is one of the method of a number, which has code.
fn is_method(linked: &Linked, numbers: &MethodNumbers, number: usize, place: &Place) -> bool
    requires { AreNumbersOf linked.now numbers.now }
    ensures { (method : Member) → IsMethodAt linked.now number method
        → result ≡ has_code linked.now (place_of place.now) method }
{
    match method_of(linked, numbers, number) {
        Some(method) => is_of(place, &method),
        None => false,
    }
}

/// Whether a place is one of any method that has code. The only error is a want of memory.
pub(crate) fn has_method(alloc: Global, linked: &Linked, place: &Place) -> Result<bool, AllocError>
    ensures { IfOk result (λ has. has ≡ list_any (has_code linked.now (place_of place.now)) (methods_of linked.now)) }
{
    let numbers = MethodNumbers::new(alloc, linked.set())?;
    'methods: for number in 0..numbers.count() {
        if is_method(linked, &numbers, number, place) {
            return Ok(true);
        }
    }
    Ok(false)
}

/// All points of a place in linked class files: at which offsets of which methods an instruction begins that is at the
/// offset, or at which the line begins (JVMS 4.7.12). The only error is a want of memory.
pub fn points_of(alloc: Global, linked: &Linked, place: &Place) -> Result<Vec<Point>, AllocError>
    ensures { IfOk result (λ points. points.items ≡ all_points linked.now (place_of place.now)) }
{
    let numbers = MethodNumbers::new(alloc, linked.set())?;
    let mut points = Vec::new(alloc);
    'methods: for number in 0..numbers.count() {
        let Ok(id) = u32::try_from(number) else {
            return Err(AllocError);
        };
        add_method(alloc, &mut points, linked, &numbers, id, place)?;
    }
    Ok(points)
}

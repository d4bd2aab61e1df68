//! Whether a place is there.

ghost use Rattle.std.specs.Prelude.{IfOk};
ghost use Rattle.place_texts.specs.Places.{place_of};
ghost use Rattle.code_places.specs.There.{Misses};

use crate::points::{has_method, points_of};
use linker::Linked;
use place_texts::{Place, Position};
use std::alloc::{AllocError, Global};
use std::fmt;

/// What of a place isn't there.
#[derive(Clone, Copy, Debug)]
pub enum PlaceFault {
    /// No class has the name.
    Class,
    /// The class declares no method with code of the name, or of the name and the descriptor.
    Method,
    /// In no such method the line begins at an instruction, as far as the class file tells.
    Line,
    /// In no such method an instruction begins at the offset.
    Offset,
}

/// The name of the fault.
impl fmt::Display for PlaceFault {
    ghost use Rattle.std.specs.Prelude.{Some};
    ghost use Rattle.code_places.specs.There.{place_fault_name};

    ghost output = { λ fault. Some (place_fault_name fault) };

    fn fmt<W: fmt::Write>(&self, f: &mut fmt::Formatter<W>) -> fmt::Result {
        f.write_str(match self {
            PlaceFault::Class => "Class",
            PlaceFault::Method => "Method",
            PlaceFault::Line => "Line",
            PlaceFault::Offset => "Offset",
        })
    }
}

/// What of a place isn't there, if anything. The only error is a want of memory.
pub fn missing(
    alloc: Global,
    linked: &Linked,
    place: &Place,
) -> Result<Option<PlaceFault>, AllocError>
    ensures { IfOk result (Misses linked.now (place_of place.now)) }
{
    let Some(_class) = linked.set().class_of(&place.class) else {
        return Ok(Some(PlaceFault::Class));
    };
    if !has_method(alloc, linked, place)? {
        return Ok(Some(PlaceFault::Method));
    }
    if !points_of(alloc, linked, place)?.is_empty() {
        return Ok(None);
    }
    match place.position {
        Position::Line(_) => Ok(Some(PlaceFault::Line)),
        Position::Offset(_) => Ok(Some(PlaceFault::Offset)),
    }
}

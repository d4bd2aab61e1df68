//! Whether a class is below another one.

ghost use Rattle.std.specs.Prelude.{◌<◌, ◌^◌, ◌≡◌};
ghost use Rattle.linked_code.specs.Subtypes as spec;
ghost use Rattle.machine_state.specs.type_tests.Tests.{TestsClass};

use linked_code::{LinkedProgram, Subclasses};

/// What a table says of two classes by their numbers; one of more than 16 bits is no class's.
fn is_numbered_below(subclasses: &Subclasses, class: u32, above: u32) -> bool
    ensures { class < 2 ^ 16 → above < 2 ^ 16 → result ≡ spec.is_class_below subclasses.now class above }
{
    match (u16::try_from(class), u16::try_from(above)) {
        (Ok(class), Ok(above)) => subclasses.is_class_below(class, above),
        _ => false,
    }
}

/// Whether a class is another one, a subclass of it, or implements it (JVMS 2.4). Something is tested against the
/// other one.
#[inline]
pub fn is_class_below(program: &LinkedProgram, class: u32, above: u32) -> bool
    ensures { TestsClass program.now class above result }
{
    is_numbered_below(&program.subclasses, class, above)
}

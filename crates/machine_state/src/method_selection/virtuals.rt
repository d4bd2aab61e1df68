//! The method that `invokevirtual` runs.

ghost use Rattle.std.specs.Prelude.{◌≡◌, slice_get};
ghost use Rattle.std.specs.Option.{option_and_then};
ghost use Rattle.machine_state.specs.method_selection.Selected.{selection_of, SelectsVirtual};

use crate::method_selection::rows::class_at;
use linked_code::LinkedProgram;

fn selection_at(program: &LinkedProgram, class: u32, place: u32) -> Option<u32>
    ensures { result ≡ option_and_then (selection_of place) (slice_get program.now.classes.items class) }
{
    match class_at(program, class) {
        Some(class) => class.selections.get(place as usize).copied(),
        None => None,
    }
}

/// The number of the method that `invokevirtual` runs (JVMS 6.5), by the class of the receiver and the place that the
/// call has.
pub fn select_virtual(program: &LinkedProgram, class: u32, place: u32) -> Option<u32>
    ensures { SelectsVirtual program.now class place result }
{
    selection_at(program, class, place)
}

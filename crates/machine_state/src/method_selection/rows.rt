//! The rows of classes and methods.

ghost use Rattle.std.specs.Prelude.{◌≡◌, option_map, slice_get};
ghost use Rattle.machine_state.specs.method_selection.Rows.{AreClassesRead, AreMethodsRead};
ghost use Rattle.machine_state.specs.method_selection.Run.{AreMethodsRun};

use linked_code::{LinkedClass, LinkedMethod, LinkedProgram};

/// The class of a number.
pub fn class_at(program: &LinkedProgram, number: u32) -> Option<&LinkedClass>
    ensures { option_map (λ c. c.now) result ≡ slice_get program.now.classes.items number }
{
    program.classes.get(number as usize)
}

/// The method of a number.
pub fn method_at(program: &LinkedProgram, number: u32) -> Option<&LinkedMethod>
    ensures { option_map (λ m. m.now) result ≡ slice_get program.now.methods.items number }
{
    program.methods.get(number as usize)
}

/// The row of a class's number is what a linked class is of its file.
pub fn classes_are_read()
    ensures holds { AreClassesRead }
{}

/// The row of a method's number is what a linked method is of it.
pub fn methods_are_read()
    ensures holds { AreMethodsRead }
{}

/// What a call of a chosen method runs is what the row of its number says: an AbstractMethodError, a built-in method,
/// or code.
pub fn methods_are_run()
    ensures holds { AreMethodsRun }
{}

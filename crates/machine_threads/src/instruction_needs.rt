//! The class that an instruction needs initialised.
//!
//! # Proved
//!
//! - `class_needed` answers the class that must be initialised before an instruction is done. Where it answers none,
//!   the instruction finds what it needs ready in every world.

ghost use Rattle.std.specs.Prelude.{◌≡◌};
ghost use Rattle.machine_threads.specs.instruction_needs.Needs as needs;
ghost use Rattle.machine_threads.specs.instruction_needs.Needs.{Needs};

use linked_code::LinkedInstruction;

/// The number that an instruction has of the class of its static field or method, or of the object that it makes.
#[inline]
fn class_in(instruction: LinkedInstruction) -> Option<u16>
    ensures { result ≡ needs.class_in instruction }
{
    match instruction {
        LinkedInstruction::GetStatic { class, .. }
        | LinkedInstruction::PutStatic { class, .. }
        | LinkedInstruction::PutBooleanStatic { class, .. }
        | LinkedInstruction::PutByteStatic { class, .. }
        | LinkedInstruction::PutCharStatic { class, .. }
        | LinkedInstruction::PutShortStatic { class, .. }
        | LinkedInstruction::New { class, .. }
        | LinkedInstruction::InvokeStatic { class, .. } => Some(class),
        _ => None,
    }
}

/// The number of the class that must be initialised before an instruction is done (JVMS 5.5); none where it needs
/// none, or one that is initialised from the start.
#[inline]
pub fn class_needed(instruction: LinkedInstruction) -> Option<u16>
    ensures { Needs instruction result }
{
    class_in(instruction)
}

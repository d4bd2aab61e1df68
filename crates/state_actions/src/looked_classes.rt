//! The class that an instruction looks for before anything else (JVMS 5.5; JLS 12.4.2).
//!
//! # Proved
//!
//! - `class_looked`: the number of the class that a linked instruction needs initialised first, and none exactly where
//!   the definitions name none (`LooksFor`).
//!
//! # Wrong bodies
//!
//! - `looked_classes-out-needs-no-class`: `System.out` and `System.err` are found without their class; refused by
//!   `class_in`.

ghost use Rattle.std.specs.Prelude.{◌≡◌};
ghost use Rattle.state_actions.specs.looked_classes.Looked as looked;
ghost use Rattle.state_actions.specs.looked_classes.Looked.{LooksFor};

use linked_code::LinkedInstruction;

/// The number of System, which declares `out` and `err`.
const SYSTEM: u16 = 5;

/// The number that an instruction has of the class of its static field or method, or of the object that it makes.
fn class_in(instruction: LinkedInstruction) -> Option<u16>
    ensures { result ≡ looked.class_looked instruction }
{
    match instruction {
        LinkedInstruction::GetStatic { class, .. }
        | LinkedInstruction::PutStatic { class, .. }
        | LinkedInstruction::PutBooleanStatic { class, .. }
        | LinkedInstruction::PutByteStatic { class, .. }
        | LinkedInstruction::PutCharStatic { class, .. }
        | LinkedInstruction::PutShortStatic { class, .. }
        | LinkedInstruction::New { class, .. }
        | LinkedInstruction::InvokeStatic { class, .. } => Some(class),
        LinkedInstruction::GetSystemStream(_) => Some(SYSTEM),
        _ => None,
    }
}

/// The number of the class that a linked instruction looks for first, if it looks for one.
pub fn class_looked(instruction: LinkedInstruction) -> Option<u16>
    ensures { LooksFor instruction result }
{
    class_in(instruction)
}

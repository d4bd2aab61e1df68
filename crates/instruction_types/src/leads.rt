//! Where an instruction leads, as data.

use types::VerificationType;

/// Where an instruction that is not local leads, as a rule over the types before it (JVMS 4.10.1.9).
#[derive(Clone, Copy)]
pub enum Leads {
    /// To no instruction: a return, or an exception.
    Nowhere,
    /// To the next instruction, with nothing pushed.
    Next,
    /// To the next instruction, with one type pushed.
    Pushes(VerificationType),
    /// To the next instruction, with one type pushed: the component type of the array that is its second operand.
    PushesComponent,
    /// To the next instruction, with one type pushed: what a `new` makes of a class, of which no copy that it made
    /// before is left.
    Makes { class: usize },
    /// To the next instruction, where all copies of an operand, counted from the top, are initialised.
    Initialises { operand: usize },
}

//! The operands of the instructions that read and write variables: the function here is a theorem, and does nothing.
//!
//! # Proved
//!
//! - An instruction that finds its operands, as it means them, has the object or the array on its stack of words, and
//!   the index above that, where it reads or writes a field or an element (`operands_are_read`; JVMS 6.5 getfield,
//!   putfield, iaload, iastore and the like).

ghost use Rattle.next_accesses.specs.read_operands.Reads.{AreOperandsRead};

/// The words of a stack have the object and the index of the variable that an instruction reads or writes.
pub fn operands_are_read()
    ensures holds { AreOperandsRead }
{}

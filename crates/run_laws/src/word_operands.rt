//! What an instruction finds at the words of a well-typed state: each function here is a theorem, and does nothing.
//!
//! Over words nobody asks whether an operand is there, or what it refers to. What a machine without kinds may rest on
//! instead stands here, for files that link. The lemmas in `proofs/` are there for a crate above to cite.
//!
//! # Proved
//!
//! Of files that link:
//!
//! - Of the words of a well-typed state, and of a thread that runs with no exception pending and a frame on top
//!   (`IsOnTop`): the frame stands at an instruction boundary and at an instruction that means something over words
//!   (`instructions_are_meant`). What that pops is on the operand stack; there are max_locals local variables, and
//!   those that it reads are among them; the operand stack has at most max_stack words, and still so with what the
//!   instruction leaves; the test of operands passes, where a want of a reference is met by 0 and by the word of a
//!   reference to an object that is there and of the type; and the popped words are those of values that are as wanted,
//!   whose references are to objects that are there (`operands_are_there`, the definition `Finds`).
//! - Of such a frame: the object of its instruction (the definition `receiver_of`: of getfield, putfield,
//!   invokevirtual, invokespecial, invokeinterface, the loads and stores of arrays, arraylength, checkcast, instanceof,
//!   athrow, monitorenter and monitorexit) is on the operand stack, and is null or there: for a field an instance of
//!   the class that declares it or of one below it; for a call on a class an object whose class, which of an array is
//!   Object, is the named class or below it; for a load or store an array of its kind; for athrow an instance of a
//!   class below Throwable; for the others any object, or any array (`receivers_fit`).
//! - Of no state: a local instruction of a method with code reads and writes local variables below max_locals alone
//!   (`local_variables_are_there`); a reference that finds an instance field names a class that is no interface, not
//!   Object, and the declaring class or below it, and what the verifier takes for an object of that class is an
//!   instance of the declaring class or of one below it (`fields_are_of_classes`).

ghost use Rattle.run_laws.specs.word_operands.Operands.{AreMeant, AreOperandsFound, AreRowsInFrames};
ghost use Rattle.run_laws.specs.word_operands.Receivers.{AreFieldsOfClasses, AreReceived};

/// Each frame on top of a running thread stands at an instruction that means something.
pub fn instructions_are_meant()
    ensures holds { AreMeant }
{}

/// Its instruction finds its operands: as many as it pops, each as it is wanted, and each reference to an object that
/// is there; the local variables that it reads; and room for what it leaves.
pub fn operands_are_there()
    ensures holds { AreOperandsFound }
{}

/// A local instruction reads and writes local variables of its frame alone.
pub fn local_variables_are_there()
    ensures holds { AreRowsInFrames }
{}

/// A reference that finds an instance field names a class, and what the verifier takes for an object of it is an
/// instance of the class that declares the field or of one below it.
pub fn fields_are_of_classes()
    ensures holds { AreFieldsOfClasses }
{}

/// The object of an instruction is null, or it is there and of the class or kind that the instruction needs.
pub fn receivers_fit()
    ensures holds { AreReceived }
{}

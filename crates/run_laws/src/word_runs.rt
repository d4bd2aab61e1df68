//! Runs over words without kinds: each function here is a theorem, and does nothing.
//!
//! A machine need not keep the kind of each value. What it may rest on stands here: a step over the words of a
//! well-typed state is the step over the state, and where frames stand. The lemmas in `proofs/` are there for a crate
//! above to cite.
//!
//! # Proved
//!
//! Of words, values without their kinds (the definitions of `model`'s `Words`):
//!
//! - The words of the opening state are the opening state of words (`words_of_the_opening`); in files that link, what
//!   becomes of an event at the words of a well-typed state is what becomes of it at the state, one that is not enabled
//!   included (`a_step_is_carried`).
//! - Of the words of a well-typed state: each frame of a thread that has not ended stands at an instruction of its
//!   method, inside the code, with as many local variables as the method has (`frames_stand_in_code`); of each such
//!   frame, but the one on top where an exception is pending, the operand stack has at most max_stack words
//!   (`operand_stacks_fit`).

ghost use Rattle.model.specs.Classes.{Program};
ghost use Rattle.run_laws.specs.word_runs.Words.{AreStacksInRoom, IsInCode, IsOpenedAsWords, IsStepCarried};

/// The words of the opening state are the opening state of words.
pub fn words_of_the_opening()
    ensures holds { (files : Program) → IsOpenedAsWords files }
{}

/// What becomes of an event at the words of a well-typed state of linked files is what becomes of it at the state: an
/// untagged machine does what one does whose values have their kinds.
pub fn a_step_is_carried()
    ensures holds { IsStepCarried }
{}

/// At the words of a well-typed state each frame of a thread that has not ended stands at an instruction of its
/// method, inside the code, with as many local variables as the method has.
pub fn frames_stand_in_code()
    ensures holds { IsInCode }
{}

/// At the words of a well-typed state the operand stack of each frame of a thread that has not ended has at most
/// max_stack words; of the frame on top of a thread with a pending exception nothing is said.
pub fn operand_stacks_fit()
    ensures holds { AreStacksInRoom }
{}

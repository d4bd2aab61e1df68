//! What verification promises of a run: each function here is a theorem, and does nothing.
//!
//! What a run over words may rest on besides stands in `word_runs`, and how many objects it has in `object_counts`.
//!
//! # Proved
//!
//! Of accepted files (the definition `IsAccepted` of `model`: they link, and each method with code has a typing):
//!
//! - Whatever the events, no thread of a state that a run reaches meets a missing instruction or an operand of a wrong
//!   kind (`no_wrong_kind`, the definition `IsSound`). An event at a well-typed state of theirs leads to a well-typed
//!   state (`a_step_keeps_types`), and one at words of a well-typed state to such words (`a_step_keeps_words`). No
//!   event of a run of theirs is answered by a wrong kind (`no_event_is_wrong`). That code finds a typing exactly where
//!   there is one is proved in `verifier`.

ghost use Rattle.model.specs.Accepted.{IsSound};
ghost use Rattle.run_laws.specs.soundness.Runs.{AreWordsKept, IsNoEventWrong, IsStepKept};

/// An event at a well-typed state of accepted files leads to a well-typed state.
pub fn a_step_keeps_types()
    ensures holds { IsStepKept }
{}

/// Whatever the events, no thread of a state that a run of accepted files reaches meets a missing instruction, or an
/// operand of a wrong kind.
pub fn no_wrong_kind()
    ensures holds { IsSound }
{}

/// No event of a run of accepted files is answered by a wrong kind.
pub fn no_event_is_wrong()
    ensures holds { IsNoEventWrong }
{}

/// An event at words of a well-typed state of accepted files leads to words of a well-typed state.
pub fn a_step_keeps_words()
    ensures holds { AreWordsKept }
{}

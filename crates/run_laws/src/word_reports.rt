//! Which threads may go on, and what a report says, over words: each function here is a theorem, and does nothing.
//!
//! A machine without kinds reads this off its own state. That it is what the model says of the state whose words they
//! are stands here. The lemmas in `proofs/` are there for a crate above to cite.
//!
//! # Proved
//!
//! - Over values its definitions are those of the model, at each state (`reports_of_values`). At the words of a
//!   well-typed state of files that link, which events are enabled, which threads may step, whether the state is quiet
//!   and how each thread stands are as at the state, and where a run led to the state, its report is the one over the
//!   words (`reports_of_words`).

ghost use Rattle.run_laws.specs.word_reports.Reports.{AreReportsOfValues, AreReportsOfWords};

/// Over values the definitions are those of the model.
pub fn reports_of_values()
    ensures holds { AreReportsOfValues }
{}

/// At the words of a well-typed state of linked files, which events are enabled, whether the state is quiet, how each
/// thread stands and the text of the report are as at the state.
pub fn reports_of_words()
    ensures holds { AreReportsOfWords }
{}

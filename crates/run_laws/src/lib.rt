//! Theorems over the definitions alone: what runs keep (types, words, counts), that no run is of a wrong kind, which
//! schedules come to the same, and examples, computed.
#![tactic(auto)]

pub mod examples;
pub mod interleavings;
pub mod laws;
pub mod monitor_counts;
pub mod object_counts;
pub mod printed_texts;
pub mod searches;
pub mod soundness;
pub mod typed_runs;
pub mod typed_threads;
pub mod typing_search;
pub mod word_operands;
pub mod word_reports;
pub mod word_runs;

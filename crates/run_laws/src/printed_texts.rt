//! What reports show of the text that a run prints: each function here is a theorem, and does nothing.
//!
//! # Proved
//!
//! - Of ints that are printed, each with a line feed behind it, a report shows a line for each, in decimal
//!   (`ints_print_lines`).
//!
//! # Not proved
//!
//! - Not said here: that a printed text forges no line of a thread behind it. The crate `report_laws` has that.

ghost use Rattle.run_laws.specs.printed_texts.Lines.{ArePrintedAsLines};

/// Ints that are printed, each with a line feed behind it, are a line each.
pub fn ints_print_lines()
    ensures holds { ArePrintedAsLines }
{}

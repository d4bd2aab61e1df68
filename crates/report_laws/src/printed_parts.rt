//! How the printed text of a report is told apart from the lines behind it: the function here is a theorem, and does
//! nothing.
//!
//! # Proved
//!
//! - Where two reports with a thread or more are the same text, the same lines were printed, and the lines behind these
//!   are the same: those of the threads, of the number of events and of the end (`printed_texts_forge_no_lines`). So
//!   no printed text forges them. The end may be any, `seconds` and `place` among them.
//!
//! # Not proved
//!
//! - Not said: that the lines behind the printed ones tell the states of the threads, the number of events and the end.

ghost use Rattle.report_laws.specs.printed_parts.Apart.{ArePrintedTextsApart};

/// Reports that are the same text have the same printed lines, and the same lines behind these.
pub fn printed_texts_forge_no_lines()
    ensures holds { ArePrintedTextsApart }
{}

//! What grows while a run goes on: the lines that it has printed, and its record.

/// Is told of a run that is to be seen while it goes on. What it does then stands in no contract: it changes neither
/// the run nor what is told of it at the end.
pub trait Growth {
    /// The lines that the run prints are to be shown as they are printed.
    fn follow(&self) {}

    /// No line is to be shown before the run ends: others stand before those that it prints.
    fn show_none(&self) {}

    /// Whether a record can grow beside the file at this path.
    fn can_grow(&self, _path: &str) -> bool {
        true
    }

    /// A run begins whose record is to grow beside the file at this path, from this text on.
    fn record_begins(&self, _path: &str, _front: &[u8]) {}

    /// The file is made, and what has grown beside it goes.
    fn record_is_made(&self) {}
}

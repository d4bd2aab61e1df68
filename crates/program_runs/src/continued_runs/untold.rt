//! A run of which nobody is told.

use crate::workers::Gate;

/// A gate that does nothing.
pub(crate) struct Untold;

impl Gate for Untold {
    ghost use Rattle.std.specs.Prelude.{false};

    ghost may_stop = { λ _. false };

    fn burst_begins(&self, _thread: u16) {}

    fn burst_ends(&self, _thread: u16) {}

    fn turn_ends(&self, _events: u32) {}

    fn is_over(&self) -> bool {
        false
    }
}

//! What is told of a search while it goes on, and what may stop it.

ghost use Rattle.std.specs.Prelude.{Bool, IsTrue};

/// Is told how far a search has come, and may stop it.
pub trait Progress {
    ghost may_stop: { Self → Bool };

    /// So many states are met.
    fn states_met(&self, states: u32);

    /// Whether no more are to be met.
    fn is_over(&self) -> bool
        ensures { IsTrue result → IsTrue (may_stop self.now) };
}

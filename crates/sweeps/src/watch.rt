//! What is told of a sweep while it goes on, and what may stop it.

ghost use Rattle.std.specs.Prelude.{Bool, IsTrue};

/// Is told how far a sweep has come, and may stop it.
pub trait Watch {
    ghost may_stop: { Self → Bool };

    /// So many runs are done.
    fn runs_done(&self, runs: u128);

    /// Whether no more are to be done.
    fn is_over(&self) -> bool
        ensures { IsTrue result → IsTrue (may_stop self.now) };
}

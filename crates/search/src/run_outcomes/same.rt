//! Which outcomes are the same.

ghost use Rattle.std.specs.Prelude.{◌≡◌, ◌↔◌, IsTrue};
ghost use Rattle.search.specs.run_outcomes.Outcomes.{is_same, told_by};

use crate::run_outcomes::order::compare;
use crate::run_outcomes::outcomes::Outcome;

impl Outcome {
    /// Whether another outcome is the same: the same text was printed, and the threads stand the same.
    pub fn is_same(&self, other: &Outcome) -> bool
        ensures is { result ≡ is_same (told_by self.now) (told_by other.now) }
        ensures equal { IsTrue result ↔ (told_by self.now ≡ told_by other.now) }
    {
        compare(self, other).is_eq()
    }
}

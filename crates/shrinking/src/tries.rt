//! What schedules are tried for.

ghost use Rattle.std.specs.Prelude.{List, IfOk, IsFalse, IsTrue};
ghost use Rattle.model.specs.declared.event.Event.{Event};
ghost use Rattle.model.specs.Schedule.{events_of};

use schedule::Schedule;
use std::alloc::{AllocError, Global};

/// What schedules are tried for, and how.
pub trait Tries {
    ghost has: { Self → List Event → Type 0 };

    ghost lacks: { Self → List Event → Type 0 };

    /// Whether a schedule has it. The only error is a want of memory.
    fn has(&self, alloc: Global, schedule: &Schedule) -> Result<bool, AllocError>
        ensures yes { IfOk result (λ b. IsTrue b → has self.now (events_of schedule.now)) }
        ensures no { IfOk result (λ b. IsFalse b → lacks self.now (events_of schedule.now)) };
}

//! What is known of such bursts. Each function here is a theorem, and does nothing.

ghost use Rattle.machine.specs.object_events.Threads.{AreObjectBursts, DoBurstsJoin};

/// Bursts go on where others have led.
pub fn object_bursts_join()
    ensures holds { DoBurstsJoin }
{}

/// Instructions by linked code that touch their frame, objects and static fields alone are events of the thread whose
/// frame does them.
pub fn object_steps_are_events()
    ensures holds { AreObjectBursts }
{}

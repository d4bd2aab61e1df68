//! What is known of bursts. Each function here is a theorem, and does nothing.

ghost use Rattle.machine_state.specs.thread_bursts.Threads.{AreLocalBursts, DoJoin};

/// Events go on where others have led.
pub fn events_join()
    ensures holds { DoJoin }
{}

/// Local instructions by linked code are events of the thread whose frame does them.
pub fn steps_are_events()
    ensures holds { AreLocalBursts }
{}

//! What is told of a run while it goes on, and what may stop it.

ghost use Rattle.std.specs.Prelude.{Bool, IsTrue};

use schedule::recorded_events::RecordedEvents;

/// Is told by the workers what they do, and may stop them. They hold no lock meanwhile, but where they show what is
/// done.
pub trait Gate {
    ghost may_stop: { Self → Bool };

    /// A burst of a Java thread begins.
    fn burst_begins(&self, thread: u16);

    /// The burst of a Java thread has ended.
    fn burst_ends(&self, thread: u16);

    /// So many events are done in all.
    fn turn_ends(&self, events: u32);

    /// Whether it is to be shown now what the run has done so far.
    fn is_watching(&self) -> bool {
        false
    }

    /// These events are recorded so far. Those that are shown later have them in front.
    fn watch_record(&self, _events: &RecordedEvents) {}

    /// These units are printed so far. Those that are shown later have them in front.
    fn watch_output(&self, _printed: &[u16]) {}

    /// Whether no more are to be done.
    fn is_over(&self) -> bool
        ensures { IsTrue result → IsTrue (may_stop self.now) };
}

//! Which events are told.

ghost use Rattle.std.specs.Prelude.{◌≡◌, ◌+◌, ◌^◌, ◌<◌, ◌≤◌, false, IsTrue};
ghost use Rattle.program_runs.specs.traced_runs.Windows.{has_thread, is_told};

use model::ScheduleEntry;
use traces::Form;

/// The events that are told: those with a number from `from` to `to`, counted from 0, of the threads of a list, or of
/// all; and the form of their lines.
#[derive(Clone, Copy)]
pub struct Window<'a> {
    pub from: u64,
    pub to: u64,
    pub only: Option<&'a [u32]>,
    pub form: Form,
    /// Whether a run of local events is told in one line.
    pub summary: bool,
}

impl Window<'_> {
    /// Whether events of a thread are told.
    pub(crate) fn has_thread(self, thread: u16) -> bool
        ensures { result ≡ has_thread self.entry.only thread }
    {
        match self.only {
            Some(only) => only.contains(&u32::from(thread)),
            None => true,
        }
    }

    /// Whether an event is told, by its number and its thread.
    pub(crate) fn has(self, number: u64, thread: u16) -> bool
        ensures { result ≡ is_told self.entry number thread }
    {
        self.from <= number && number <= self.to && self.has_thread(thread)
    }

    /// Whether no event of an entry is told that begins at a number.
    pub(crate) fn leaves_out(self, number: u64, entry: ScheduleEntry) -> bool
        requires { number + entry.repeat < 2 ^ 64 }
        ensures { IsTrue result → (n : _) → number ≤ n → n < number + entry.repeat
            → is_told self.entry n entry.event.thread ≡ false }
    {
        if !self.has_thread(entry.event.thread) {
            return true;
        }
        self.to < number || number + u64::from(entry.repeat) <= self.from
    }
}

//! Calls of monitors as values.

ghost use Rattle.std.specs.Prelude.{◌≡◌, ◌↔◌, IsTrue};
ghost use Rattle.heap.specs.monitor.Locks.{object_of, IsAllowed, Answers};

use crate::monitor::refusal::MonitorRefusal;
use model::MonitorAnswer;

/// A call of `Monitors`, by the object and the thread that it names.
#[derive(Clone, Copy)]
pub enum Call {
    Enter {
        object: u32,
        thread: u16,
    },
    Exit {
        object: u32,
        thread: u16,
    },
    Wait {
        object: u32,
        thread: u16,
    },
    Notify {
        object: u32,
        thread: u16,
        pick: u16,
    },
    NotifyAll {
        object: u32,
        thread: u16,
    },
    WakeAll {
        object: u32,
    },
    Interrupt {
        object: u32,
        thread: u16,
    },
    Relock {
        object: u32,
        thread: u16,
        count: u32,
    },
}

impl Call {
    /// The object that the call names.
    pub fn object(self) -> u32
        ensures { result ≡ object_of self }
    {
        match self {
            Call::Enter { object, .. }
            | Call::Exit { object, .. }
            | Call::Wait { object, .. }
            | Call::Notify { object, .. }
            | Call::NotifyAll { object, .. }
            | Call::WakeAll { object }
            | Call::Interrupt { object, .. }
            | Call::Relock { object, .. } => object,
        }
    }
}

/// What answers calls of monitors, seen as the locks of objects.
pub trait MonitorCalls {
    ghost use Rattle.heap.specs.monitor.Locks.{Locks};

    ghost locks: { Self → Locks };

    /// Whether a caller may make this call: the object is there, a thread that is to own it is below 32,767, and one
    /// that enters again entered at least once, and where the lock is thin at most 256 times.
    fn allows(&self, call: Call) -> bool
        ensures { IsTrue result ↔ IsAllowed call (Self.locks self.now) };

    /// What the call of `Monitors` of that name does.
    fn apply(&mut self, call: Call) -> Result<MonitorAnswer, MonitorRefusal>
        requires { IsAllowed call (Self.locks self.old) }
        ensures { Answers result call (Self.locks self.old) (Self.locks self.new) };
}

//! Events of a schedule.

/// One step of a Java thread. Threads are numbered from 0, which is the main thread, in the order in which
/// they were started. The pick is 0, but at a `notify` on a wait set that has members: there it is the place of
/// the member that is woken, counted from 0 in the order in which they joined.
#[derive(Clone, Copy, PartialEq, Eq)]
pub struct Event {
    pub thread: u16,
    pub pick: u16,
}

/// So many equal events, one after the other.
#[derive(Clone, Copy)]
pub struct ScheduleEntry {
    pub event: Event,
    pub repeat: u32,
}

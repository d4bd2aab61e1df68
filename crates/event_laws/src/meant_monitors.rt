//! Events that begin an invocation which enters a monitor: the function here is a theorem, and does nothing.
//!
//! # Proved
//!
//! - An event after which an invocation is new on top that entered a monitor means no other monitor before it
//!   (`entries_mean_none`), of all files and states, over values and over words (JVMS 2.11.10).

ghost use Rattle.event_laws.specs.meant_monitors.Meant.{DoEntriesMeanNone};

/// An event that begins an invocation which enters a monitor means no other one.
pub fn entries_mean_none()
    ensures holds { DoEntriesMeanNone }
{}

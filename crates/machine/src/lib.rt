//! The machine: a linked program, the limits of a run and all that its threads share.
//!
//! # Proved
//!
//! - Kept by the type `Machine` (`IsMachine`): it always shows words of a well-typed state of accepted files, with the
//!   locks fat that are inflated there.
//! - `open` (`Opens`): it shows the opening state of whatever accepted files its program is of, with no lock inflated.
//!   Its only error is a want of memory.
//! - `step` (`Steps`): whatever state of whatever accepted files is shown, `Done` says that the event is enabled, that no
//!   limit stood at it, and that the one next state is shown, with its fat locks; `NotEnabled` that the event is not
//!   enabled; a refusal that it is, and that the limit which is told stands, or that it takes memory. In the latter two
//!   cases that state is still shown. There is no answer for an operand of a wrong kind: none is met.
//! - `repeat`, `steps` (`Repeats`): as many events were done as is answered, at none of which a limit stood, and the
//!   reason is that of the next one.
//! - `copy_top`: a burst of no instruction at the frame on top of a thread, exactly where the thread runs with no
//!   exception pending and a frame is on top, memory aside; nothing changes.
//! - `advance` (`AdvancesTop`): the frame on top has come to where the burst has, and so many events of the thread were
//!   done with pick 0, exactly where that frame stood where the burst started and the thread runs with no exception
//!   pending, memory aside; else nothing has changed.
//! - `program` and `limits` are what the machine was opened with.
//! - Where `open` refuses, its program is given up; where `advance` does, the burst is, and all stacks are as they
//!   were.
//! - `steps`, and `repeat` with pick 0, lend the stack once and run the fast loop, with the general event wherever it
//!   stops.
//!
//! # Not proved
//!
//! - Not proved: that there is no memory where the answer says so; how long an event takes.
//!
//! # Wrong bodies
//!
//! - Planted by `rt plant`: 29 functions, 11 untried; 18 bodies judged, 2 not judged, 17 not run; none proves.
#![tactic(auto)]

mod machine;
pub mod machine_bursts;
pub mod machine_replay;
pub mod machine_reports;
pub mod object_bursts;
pub mod object_events;
pub mod schedule_runs;
mod stacks;
pub mod thread_standings;
pub mod top_frames;
mod tops;
mod turns;

pub use machine::{Machine, Stopped};

//! The event of a thread that runs, with no exception pending, and has a frame on top: the instruction at which the
//! frame stands is done, after its class, where it needs one (JVMS 2.11, 5.5).
//!
//! # Proved
//!
//! - `instruction_event` is the event of a thread that runs, with no exception pending, and has a frame on top (JVMS
//!   2.6, 2.11, 5.5), in whatever state of linked files it stands so (`DoesBytecode`). First comes the pick: where the
//!   instruction does not let it, the event is not enabled, and no class is looked at. Then comes the class that the
//!   instruction needs: the thread begins to initialise it, waits for the thread that is at it, or a
//!   NoClassDefFoundError is pending. Then the instruction is done, whichever it is: one on fields, arrays, objects,
//!   types or monitors, a return, a local one, a call or println; an exception that it raises or throws is pending
//!   then. No frame stands at a part of a switch. Each refusal leaves all as it was. `known_instruction_event` is the
//!   same event, for a caller that knows the instruction at which the frame stands. `instruction_at_once` and
//!   `frame_at_once` answer that it is done only where it is; else nothing has changed. Of the latter nothing that is
//!   shared changes, and a frame is left. That they ever answer so isn't asked: they spare time.
//!
//! # Not proved
//!
//! - Not proved: that there is no memory where the answer says so.

mod at_once;
mod calls;
mod events;
mod fields;
mod first;
mod own;

pub use at_once::{frame_at_once, instruction_at_once};
pub use events::{instruction_event, known_instruction_event};

//! The instructions on monitors (JVMS 6.5 monitorenter, monitorexit; JLS 17.1).
//!
//! # Proved
//!
//! - `monitor_enter` and `monitor_exit` do what the definitions say of the event of `monitorenter` and `monitorexit`,
//!   in each state in which a thread runs there. An entry is not enabled while another thread owns the monitor, and is
//!   refused only at a limit that stands or for want of memory. An exit by another thread raises an
//!   IllegalMonitorStateException and changes nothing.

mod frames;
mod instructions;

pub use instructions::{monitor_enter, monitor_exit};
